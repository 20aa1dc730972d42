// What letters say of things.

ghost use Rattle.std.specs.Prelude.{◌≡◌, ◌∷◌, [], map};
ghost use Rattle.orca_names.specs.Names.{times_among};
ghost use Rattle.letter_kinds.specs.Letters.{as_letter};
ghost use Rattle.letter_kinds.specs.Sums.{amount_of};
ghost use Rattle.count_ledger.specs.Lines.{HasRoom, HasRoomForMail, Rise, own_only, raised_by, with_mail};
ghost use Rattle.count_ledger.specs.declared.lines.Column.TheVariants.{Letters};

use crate::lines::{Column, add};
use letter_kinds::{Amounts, Letter, Load};
use mail_rows::MailRow;
use orca_names::{ActorName, Sums};

// The amounts of those of these things that are the owner's.
fn add_amounts(sums: &mut [Sums], column: Column, owner: ActorName, things: &Amounts)
    requires rising { Rise sums.old }
    requires room { HasRoom column (own_only owner (λ x. amount_of x things.now)) sums.old }
    ensures { sums.new ≡ map (raised_by column (own_only owner (λ x. amount_of x things.now))) sums.old }
{
    for amount in things.as_slice() {
        if amount.0.owner() == owner {
            add(sums, column, &amount.0, amount.1);
        }
    }
}

// One letter more for each of these things.
fn add_load(sums: &mut [Sums], load: &Load)
    requires rising { Rise sums.old }
    requires room { HasRoom Letters (λ x. times_among x load.now) sums.old }
    ensures { sums.new ≡ map (raised_by Letters (λ x. times_among x load.now)) sums.old }
{
    let (items, _) = load.parts();
    for loaded in items {
        add(sums, Column::Letters, &loaded.0, 1);
    }
}

// What a letter to this actor says.
fn add_letter(sums: &mut [Sums], to: ActorName, letter: &Letter)
    requires rising { Rise sums.old }
    requires room { HasRoomForMail to (as_letter letter.now ∷ []) sums.old }
    ensures { sums.new ≡ map (with_mail to (as_letter letter.now ∷ [])) sums.old }
{
    match letter {
        Letter::App {
            behaviour: _,
            args: _,
            load,
            rows: _,
        } => add_load(sums, load),
        Letter::Inc { things } => add_amounts(sums, Column::Inc, to, things),
        Letter::Dec { things } => add_amounts(sums, Column::Dec, to, things),
        Letter::Confirm { token: _ } => {}
    }
}

/// What the letters that wait for this actor say.
pub(crate) fn add_mail(sums: &mut [Sums], to: ActorName, mail: &MailRow)
    requires rising { Rise sums.old }
    requires room { HasRoomForMail to mail.now.letters sums.old }
    ensures { sums.new ≡ map (with_mail to mail.now.letters) sums.old }
{
    for i in 0..mail.len() {
        add_letter(sums, to, mail.at(i));
    }
}
