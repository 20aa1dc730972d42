// One instruction.

ghost use Rattle.std.specs.Prelude.{◌≡◌, ◌<◌, length, IfOk, OnErr};
ghost use Rattle.turn_rules.specs.Segment.{got_by, value_at_place, step_of, value_at};
ghost use Rattle.turn_step.specs.Held.{first_needed};
ghost use Rattle.turn_step.specs.Turns.{LeadsTo, setting_of};
ghost use Rattle.orca_names.specs.declared.limits.TheConstants.{BODY_LIMIT};

use crate::arithmetic::{difference, is_less, is_same, number, product, sum};
use crate::deed::{Deed, Lead};
use crate::effects::{leap_if_zero, new_actor, post};
use crate::held::needed;
use crate::setting::Setting;
use crate::turn::Turn;
use behaviour_code::Instr;
use orca_names::{HeldTest, NoMemory, RowReader, Value};

/// Does one instruction; where it gets a thing that is needed, it changes nothing.
///
/// # Errors
/// Where memory is refused, nothing changes.
pub(crate) fn step<'p, R: RowReader, H: HeldTest>(
    setting: &Setting<'_>,
    rows: &mut R,
    held: &H,
    instr: &'p Instr,
    turn: &mut Turn,
) -> Result<Lead<'p>, NoMemory>
    requires { length turn.old.made < BODY_LIMIT }
    ensures ok { let p = setting_of setting.now (R.rows rows.old) in
        let needed = first_needed (H.held held.now) (got_by p instr.now turn.old) in
        IfOk result (λ lead. LeadsTo needed (step_of p instr.now turn.old) turn.old lead turn.new) }
    ensures err { OnErr result (turn.new ≡ turn.old) }
    ensures same { (R.rows rows.new ≡ R.rows rows.old) × (R.all rows.new ≡ R.all rows.old)
        × (R.beside rows.new ≡ R.beside rows.old) }
{
    match instr {
        Instr::Drop(d) => turn.put(*d, Value::Null),
        Instr::Int(d, n) => turn.put(*d, Value::Num(*n)),
        Instr::Own(d) => turn.put(*d, Value::Actor(setting.me)),
        Instr::Copy(d, s) => turn.copy(*d, *s),
        Instr::Add(d, a, b) => turn.put(*d, sum(turn.value(*a), turn.value(*b))),
        Instr::Sub(d, a, b) => turn.put(*d, difference(turn.value(*a), turn.value(*b))),
        Instr::Mul(d, a, b) => turn.put(*d, product(turn.value(*a), turn.value(*b))),
        Instr::Less(d, a, b) => turn.put(*d, is_less(turn.value(*a), turn.value(*b))),
        Instr::Same(d, a, b) => turn.put(*d, is_same(turn.value(*a), turn.value(*b))),
        Instr::Row(d, values) => turn.make_row(setting, *d, values)?,
        Instr::Get(d, s, i) => return Ok(get(setting, rows, held, turn, *d, *s, *i)),
        Instr::Load(d, f) => turn.load(*d, *f),
        Instr::Store(f, s) => turn.store(*f, turn.value(*s)),
        Instr::Jump(l) => return Ok(Lead::Leap(l)),
        Instr::JumpZero(a, l) => return Ok(leap_if_zero(number(turn.value(*a)), l)),
        Instr::Label(_) => {}
        Instr::Pin => turn.set_pinned(true),
        Instr::Unpin => turn.set_pinned(false),
        Instr::New(d, kind) => return Ok(new_actor(setting, kind, *d)),
        Instr::Send(to, behaviour, values) => return Ok(post(turn, *to, *behaviour, values)),
        Instr::Print(a) => return Ok(Lead::Does(Deed::Print { register: *a })),
    }
    Ok(Lead::Next)
}

/// Puts the value at a place of a row into a register, null where there is none; a thing that is
/// needed is not put.
fn get<R: RowReader, H: HeldTest>(
    setting: &Setting<'_>,
    rows: &mut R,
    held: &H,
    turn: &mut Turn,
    d: u64,
    s: u64,
    i: u64,
) -> Lead<'static>
    ensures ok { let p = setting_of setting.now (R.rows rows.old) in
        let needed = first_needed (H.held held.now) (got_by p (Instr.Get d s i) turn.old) in
        LeadsTo needed (step_of p (Instr.Get d s i) turn.old) turn.old result turn.new }
    ensures same { (R.rows rows.new ≡ R.rows rows.old) × (R.all rows.new ≡ R.all rows.old)
        × (R.beside rows.new ≡ R.beside rows.old) }
{
    let value = place(setting, rows, turn, s, i);
    match needed(held, &value) {
        Some(thing) => Lead::Needs(thing),
        None => {
            turn.put(d, value);
            Lead::Next
        }
    }
}

/// The value at a place of the row of a register's object, null where there is none.
fn place<R: RowReader>(setting: &Setting<'_>, rows: &mut R, turn: &Turn, s: u64, i: u64) -> Value
    ensures value { let p = setting_of setting.now (R.rows rows.old) in
        result ≡ value_at_place p turn.now (value_at turn.now s) i }
    ensures same { (R.rows rows.new ≡ R.rows rows.old) × (R.all rows.new ≡ R.all rows.old)
        × (R.beside rows.new ≡ R.beside rows.old) }
{
    match turn.value(s) {
        Value::Obj(n) => setting.look(rows, turn.made(), n, i).unwrap_or(Value::Null),
        _ => Value::Null,
    }
}
