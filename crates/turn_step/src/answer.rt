// A turn of a frame.

ghost use Rattle.std.specs.Prelude.{◌≡◌, ◌+◌, ◌<◌, ◌≤◌, ◌^◌, length, None, [], IfOk, OnErr};
ghost use Rattle.turn_rules.specs.Segment.{segment_of};
ghost use Rattle.turn_step.specs.Held.{needed_in};
ghost use Rattle.turn_step.specs.Turns.{setting_in, turn_answer};
ghost use Rattle.orca_names.specs.declared.limits.TheConstants.{BODY_LIMIT};

use crate::act::Act;
use crate::deed::{Halt, act_of};
use crate::held::AllHeld;
use crate::run::segment_held_at;
use crate::setting::Setting;
use crate::turn::Turn;
use behaviour_check::Checked;
use orca_names::{ActorName, Fields, HeldTest, NoMemory, Row, RowReader};
use turn_rules::Frame;

/// Runs the frame of an actor up to and with its next act, by a test of what the actor holds. The
/// rows that it makes are named from serial `base` on; they stand in `made`. Where it would get a
/// thing from a row that the actor does not hold, or not its owner, it answers the first such thing,
/// and nothing changes.
///
/// # Errors
/// Where memory is refused, nothing changes.
pub fn segment_held<R: RowReader, H: HeldTest>(
    code: &Checked,
    me: ActorName,
    frame: &mut Frame,
    fields: &mut Fields,
    rows: &mut R,
    held: &H,
    base: u64,
    made: &mut Vec<Row>,
) -> Result<Act, NoMemory>
    requires room { base + 1024 < 2 ^ 64 }
    requires fresh { made.old.items ≡ [] }
    ensures ok { let p = setting_in code.now me base (R.rows rows.old) in
        let needed = needed_in (H.held held.now) p frame.old fields.old in
        let stop = segment_of p frame.old fields.old in
        IfOk result (λ act. turn_answer needed stop frame.old fields.old
        ≡ record { act = act; frame = frame.new; fields = fields.new; made = made.new.items }) }
    ensures few { length made.new.items ≤ BODY_LIMIT }
    ensures frame { OnErr result (frame.new ≡ frame.old) }
    ensures fields { OnErr result (fields.new ≡ fields.old) }
    ensures made { OnErr result (made.new.items ≡ made.old.items) }
    ensures same { (R.rows rows.new ≡ R.rows rows.old) × (R.all rows.new ≡ R.all rows.old)
        × (R.beside rows.new ≡ R.beside rows.old) }
{
    let setting = Setting { code, me, base };
    let mut turn = Turn::new(*made.allocator());
    match segment_held_at(&setting, frame, fields, rows, held, &mut turn) {
        Ok(halt) => match halt {
            Halt::Stops(stop) => {
                frame.place = stop.place;
                frame.registers = *turn.registers();
                fields.copy_from(turn.fields());
                let act = act_of(&stop.deed, &turn);
                *made = turn.into_made();
                Ok(act)
            }
            Halt::Needs(thing) => Ok(Act::Need { thing }),
        },
        Err(e) => Err(e),
    }
}

/// Runs the frame of an actor up to and with its next act. The rows that it makes are named from
/// serial `base` on; they stand in `made`.
///
/// # Errors
/// Where memory is refused, nothing changes.
pub fn segment<R: RowReader>(
    code: &Checked,
    me: ActorName,
    frame: &mut Frame,
    fields: &mut Fields,
    rows: &mut R,
    base: u64,
    made: &mut Vec<Row>,
) -> Result<Act, NoMemory>
    requires room { base + 1024 < 2 ^ 64 }
    requires fresh { made.old.items ≡ [] }
    ensures ok { let p = setting_in code.now me base (R.rows rows.old) in
        let stop = segment_of p frame.old fields.old in
        IfOk result (λ act. turn_answer None stop frame.old fields.old
        ≡ record { act = act; frame = frame.new; fields = fields.new; made = made.new.items }) }
    ensures few { length made.new.items ≤ BODY_LIMIT }
    ensures frame { OnErr result (frame.new ≡ frame.old) }
    ensures fields { OnErr result (fields.new ≡ fields.old) }
    ensures made { OnErr result (made.new.items ≡ made.old.items) }
    ensures same { (R.rows rows.new ≡ R.rows rows.old) × (R.all rows.new ≡ R.all rows.old)
        × (R.beside rows.new ≡ R.beside rows.old) }
{
    segment_held(code, me, frame, fields, rows, &AllHeld, base, made)
}
