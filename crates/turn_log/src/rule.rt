// What the user of a log says of it.

ghost use Rattle.std.specs.Prelude.{ℕ, List};

use std::collections::LinkedList;

/// What a pass knows: who takes part in the log, and changes the value when it has its turn. No value
/// of this type is made; it stands in proofs alone.
pub struct Known<I, V> {
    /// The whole log as it was at its last turn, with what it wrote since.
    pub seen: LinkedList<I>,
    /// The longest beginning of the log that was seen by it, or by a pass that it took in.
    pub heard: LinkedList<I>,
    /// How many turns it had; a pass that was split off begins with those of the other.
    pub turns: u64,
    /// What the user of the log wants a pass to know beside the log.
    pub client: V,
}

/// The rule of a value that passes change in turns, and of the log of what they did.
///
/// `T` is the value, `I` an item of the log, and `V` what a pass knows beside the log.
pub trait LogRule<T, I, V> {
    ghost use Rattle.turn_log.specs.declared.rule.Known.{Known};

    /// What holds of the log, the value, what all passes know, and the words.
    ghost holds: { List I → T → List (Known I V) → List ℕ → Type 0 };

    /// What the first pass knows, where the log begins with this value.
    ghost first: { T → V };

    /// The item that a value's last change adds to the log.
    ghost item: { T → I };

    /// What a pass knows after it wrote the item.
    ghost after: { I → V → V };

    /// How many tickets a pass that knows this may have.
    ghost live: { V → ℕ };

    /// What is true of each pass that has no turn.
    ghost calm: { V → Type 0 };

    /// What a pass learns when it gets its turn, of what it knew, the log and the value.
    ghost shows: { Known I V → List I → T → Type 0 };
}

/// What a read tells.
pub trait Lesson<T, I, V> {
    ghost use Rattle.turn_log.specs.declared.table.SeatView.{SeatView};

    /// Of what the table keeps of the seat, the place that was read and the word that stood there.
    ghost tells: { SeatView T I V → ℕ → ℕ → Type 0 };
}
