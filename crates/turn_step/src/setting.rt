// What a turn only reads, but for rows.

ghost use Rattle.std.specs.Prelude.{◌≡◌, ◌+◌, ◌^◌, ◌<◌, length, position, slice_get, false, IfSome};
ghost use Rattle.std.specs.Option.{option_map_or};
ghost use Rattle.behaviour_code.specs.Find.{is_kind};

use behaviour_check::Checked;
use behaviour_code::{Kind, Name, Target};
use orca_names::{ActorName, ObjName, Row, RowReader, Value};

/// What a turn only reads, but for rows: the program, the actor whose turn it is, and the serial
/// that the next object gets that the actor makes.
#[derive(Clone, Copy)]
pub struct Setting<'p> {
    pub code: &'p Checked,
    pub me: ActorName,
    pub base: u64,
    ghost room: { base + 1024 < 2 ^ 64 },
}

fn is_kind_at(kinds: &[Kind], place: usize, name: Name) -> bool
    ensures { result ≡ option_map_or (is_kind name) (slice_get kinds.now place) false }
{
    match kinds.get(place) {
        Some(kind) => kind.name == name,
        None => false,
    }
}

fn place_of_kind(kinds: &[Kind], name: Name) -> Option<usize>
    ensures value { result ≡ position (is_kind name) kinds.now }
    ensures within { IfSome result (λ i. i < length kinds.now) }
{
    kinds.iter().position(|kind| kind.name == name)
}

impl<'p> Setting<'p> {
    ghost use Rattle.std.specs.Prelude.{◌≡◌, option_and_then, slice_get};
    ghost use Rattle.behaviour_code.specs.Find.{kind_named};
    ghost use Rattle.turn_rules.specs.Segment.{row_in};
    ghost use Rattle.turn_step.specs.Turns.{setting_of};

    /// The place of the kind of this name: where the check found it, else by a search.
    #[tactic(auto, using(crate::proofs::Guesses::kind_guessed))]
    pub(crate) fn find_kind(&self, kind: &Target) -> Option<u32>
        ensures { result ≡ kind_named self.now.code.now kind.now }
    {
        let kinds = self.code.program().kinds.as_slice();
        let place = kind.place();
        if is_kind_at(kinds, place as usize, kind.name()) {
            return Some(place);
        }
        match place_of_kind(kinds, kind.name()) {
            Some(i) => Some(i as u32),
            None => None,
        }
    }

    /// The value at a place of the row of an object, which was made in this turn or before; `None`
    /// where there is none.
    pub(crate) fn look<R: RowReader>(
        &self,
        rows: &mut R,
        made: &[Row],
        n: ObjName,
        i: u64,
    ) -> Option<Value>
        ensures value { let row = row_in (setting_of self.now (R.rows rows.old)) made.now n in
            result ≡ option_and_then (λ values. slice_get values i) row }
        ensures same { (R.rows rows.new ≡ R.rows rows.old) × (R.all rows.new ≡ R.all rows.old)
            × (R.beside rows.new ≡ R.beside rows.old) }
    {
        let serial = n.serial.get();
        if n.owner == self.me && self.base <= serial {
            match made.get((serial - self.base) as usize) {
                Some(row) => row.get(i),
                None => None,
            }
        } else {
            rows.read_place(n, i)
        }
    }
}
