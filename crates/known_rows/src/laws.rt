// What holds of the rows that an actor has.

ghost use Rattle.known_rows.specs.Known.{RowsAreOfHoldings};

/// The rows in both tables are those of the actor's holdings.
pub fn rows_are_of_holdings()
    ensures { RowsAreOfHoldings }
{}
