// Where the turns of the tests start, and what they leave, as texts.

ghost use Rattle.std.specs.Prelude.{IfOk, ◌≡◌, ◌∷◌, ◌&&◌, not, ◌==◌, [], true, false, None, Some, Contains, if◌then◌else◌};
ghost use Rattle.std.proofs.Common.{refl, sym, arith};
ghost use Rattle.std.proofs.lemmas.Bool.{and_parts, eqb-true};
ghost use Rattle.std.proofs.lemmas.Option.{none-some};
ghost use Rattle.orca_names.specs.Names.{is_thing};
ghost use Rattle.behaviour_code.specs.WellFormed.{IsWellFormed};

use behaviour_check::{Checked, check};
use behaviour_code::Program;
use behaviour_text::parse;
use orca_names::{
    ActorName, Args, Fields, HeldTest, NoMemory, ObjName, Reading, Row, Rows, Serial, Thing, Value,
};
use std::alloc::{AllocError, Global};
use std::test::Fail;
use turn_rules::{Frame, RegisterFile};
use turn_step::{Act, segment, segment_held};

const ME: ActorName = ActorName(4);

const OTHER: ActorName = ActorName(9);

fn object(owner: ActorName, serial: u64) -> Value {
    Value::Obj(ObjName {
        owner,
        serial: Serial::of(serial),
    })
}

/// The registers before a turn; the others are null.
fn registers() -> RegisterFile {
    RegisterFile::of(&Args::of(&[
        Value::Num(7),
        Value::Num(18_446_744_073_709_551_615),
        Value::Null,
        Value::Actor(OTHER),
        object(ME, 2),
        object(OTHER, 0),
        Value::Num(0),
        object(ME, 2),
    ]))
}

/// The fields before a turn.
fn fields() -> Fields {
    Fields {
        values: Args::of(&[Value::Num(3), Value::Null]),
        pinned: false,
    }
}

// The one row of before.
#[derive(Drop)]
struct OneRow {
    name: ObjName,
    row: Row,
}

/// The row of object 2 of actor 4.
fn own_row() -> OneRow {
    OneRow {
        name: ObjName {
            owner: ME,
            serial: Serial::of(2),
        },
        row: Row::of(&[Value::Num(5), Value::Actor(OTHER)]),
    }
}

impl Rows for OneRow {
    ghost rows = { λ s n. if (n.owner == s.name.owner) && (n.serial == s.name.serial) then Some s.row else None };

    ghost all = { λ s. s.name ∷ [] };

    fn row_of(&self, n: ObjName) -> Option<&[Value]> {
        if n.owner == self.name.owner && n.serial == self.name.serial {
            Some(self.row.as_slice())
        } else {
            None
        }
    }

    ghost within = { λ s n row.
        let is_it = (n.owner == s.name.owner) && (n.serial == s.name.serial) in
        elim is_it as (λ b. is_it ≡ b → (if b then Some s.row else None) ≡ Some row → Contains (s.name ∷ []) n) [
          | true ↦ λ same _.
              let parts = and_parts (n.owner == s.name.owner) (n.serial == s.name.serial) same in
              let owner = sym (eqb-true n.owner s.name.owner parts.0) in
              let serial = sym (eqb-true n.serial s.name.serial parts.1) in
              (0, omega arith, λ i. record { owner = owner i; serial = serial i })
          | false ↦ λ _ found. absurd (none-some row found)
        ] refl };
}

// What an actor holds that lacks one thing.
#[derive(Drop)]
struct AllBut(Thing);

impl HeldTest for AllBut {
    ghost held = { λ s x. not (is_thing x s.0) };

    fn holds(&self, thing: Thing) -> bool {
        thing.cmp(&self.0).is_ne()
    }
}

/// The program of a text.
pub(crate) fn program(alloc: Global, text: &str) -> Result<Program, Fail>
    ensures { IfOk result IsWellFormed }
{
    if text.len() > 4096 {
        return Err(Fail::from("a long text"));
    }
    Ok(parse(alloc, text.as_bytes())?)
}

fn checked(alloc: Global, text: &str) -> Result<Checked, Fail> {
    Ok(check(program(alloc, text)?)?)
}

/// The program whose first kind `Main`, name 0, has two fields and the behaviour `start`, name 1, of this
/// body, and whose second kind, `start`, has nothing.
pub(crate) fn code_of(alloc: Global, body: &str) -> Result<Checked, Fail> {
    let text = format!(in alloc; "kind Main 2\non start 0\n{body}end\nkind start 0\n")?;
    checked(alloc, text.as_str())
}

/// Fails where another text is told of this than the one that is wanted.
pub(crate) fn same_text(what: &str, told: &str, want: &str) -> Result<(), Fail> {
    if told == want {
        Ok(())
    } else {
        Err(Fail::new(format_args!("{what}\ntold: {told}\nwanted: {want}")))
    }
}

/// What an actor in its turn has: its frame and fields, and the rows that it made.
#[derive(Drop)]
struct Player {
    frame: Frame,
    fields: Fields,
    made: Vec<Row>,
}

impl Player {
    /// Actor 4 before its turn at a place of the body.
    fn at(alloc: Global, place: u32) -> Player
        ensures { result.made.items ≡ [] }
    {
        Player {
            frame: Frame {
                kind: 0,
                behaviour: 0,
                place,
                registers: registers(),
            },
            fields: fields(),
            made: Vec::new(alloc),
        }
    }

    /// It goes on up to its next act, over the row of its object 2; its next object is 3.
    fn goes(&mut self, code: &Checked) -> Result<Act, NoMemory>
        requires { self.old.made.items ≡ [] }
    {
        let mut rows = Reading { rows: &own_row() };
        let Player {
            frame,
            fields,
            made,
        } = self;
        segment(code, ME, frame, fields, &mut rows, 3, made)
    }

    /// It goes on as far as it can while it lacks this thing.
    fn goes_without(&mut self, code: &Checked, lacked: Thing) -> Result<Act, NoMemory>
        requires { self.old.made.items ≡ [] }
    {
        let mut rows = Reading { rows: &own_row() };
        let held = AllBut(lacked);
        let Player {
            frame,
            fields,
            made,
        } = self;
        segment_held(code, ME, frame, fields, &mut rows, &held, 3, made)
    }

    /// It goes on, and lacks a thing if one is given.
    fn goes_lacking(&mut self, code: &Checked, lacked: Option<Thing>) -> Result<Act, NoMemory>
        requires { self.old.made.items ≡ [] }
    {
        match lacked {
            Some(thing) => self.goes_without(code, thing),
            None => self.goes(code),
        }
    }
}

/// Appends an actor as `@9`, an object as `4.2`.
fn push_thing(text: &mut String, thing: &Thing) -> Result<(), AllocError> {
    match thing {
        Thing::Actor(a) => write!(text, "@{}", a.0),
        Thing::Obj(n) => write!(text, "{}.{}", n.owner.0, n.serial.get()),
    }
}

/// Appends a value: null as `-`, a number as it is.
fn push_value(text: &mut String, value: &Value) -> Result<(), AllocError> {
    match value {
        Value::Null => text.push('-'),
        Value::Num(n) => write!(text, "{n}"),
        Value::Actor(a) => push_thing(text, &Thing::Actor(*a)),
        Value::Obj(n) => push_thing(text, &Thing::Obj(*n)),
    }
}

/// Appends values, each behind a space.
fn push_values(text: &mut String, values: &[Value]) -> Result<(), AllocError> {
    for value in values {
        text.push(' ')?;
        push_value(text, value)?;
    }
    Ok(())
}

/// Appends rows, each behind a comma.
fn push_rows(text: &mut String, rows: &[Row]) -> Result<(), AllocError> {
    for row in rows {
        text.push(',')?;
        push_values(text, row.as_slice())?;
    }
    Ok(())
}

/// Appends the name and arguments of a letter, or what else a turn does to others.
fn push_act(text: &mut String, act: &Act) -> Result<(), AllocError> {
    match act {
        Act::Post {
            to,
            behaviour,
            args,
        } => {
            write!(text, "send @{} {}", to.0, behaviour.0)?;
            push_values(text, args.as_slice())
        }
        Act::New { kind, into } => write!(text, "new r{into} {kind}"),
        Act::Print { value } => {
            text.push_str("print ")?;
            push_value(text, value)
        }
        Act::End => text.push_str("end"),
        Act::Need { thing } => {
            text.push_str("need ")?;
            push_thing(text, thing)
        }
    }
}

/// Appends the place of a frame, and its registers.
fn push_frame(text: &mut String, frame: &Frame) -> Result<(), AllocError> {
    write!(text, " at {}:", frame.place)?;
    push_values(text, frame.registers.as_slice())
}

/// Appends the fields, behind whether the actor is pinned.
fn push_fields(text: &mut String, fields: &Fields) -> Result<(), AllocError> {
    text.push_str(if fields.pinned { "; pinned" } else { ";" })?;
    push_values(text, fields.values.as_slice())
}

/// Appends what is seen of a turn that left its actor so.
fn push_turn(
    text: &mut String,
    act: &Act,
    frame: &Frame,
    fields: &Fields,
    made: &[Row],
) -> Result<(), AllocError> {
    push_act(text, act)?;
    push_frame(text, frame)?;
    push_fields(text, fields)?;
    push_rows(text, made)
}

fn text_of(
    alloc: Global,
    act: &Act,
    frame: &Frame,
    fields: &Fields,
    made: &[Row],
) -> Result<String, AllocError> {
    let mut text = String::new(alloc);
    push_turn(&mut text, act, frame, fields, made)?;
    Ok(text)
}

/// What is seen of an actor's turn.
fn turn_of(
    alloc: Global,
    code: &Checked,
    player: &mut Player,
    lacked: Option<Thing>,
) -> Result<String, Fail>
    requires { player.old.made.items ≡ [] }
{
    let act = player.goes_lacking(code, lacked)?;
    let Player {
        frame,
        fields,
        made,
    } = player;
    Ok(text_of(alloc, &act, frame, fields, made.as_slice())?)
}

fn turn_from(
    alloc: Global,
    code: &Checked,
    place: u32,
    lacked: Option<Thing>,
) -> Result<String, Fail> {
    turn_of(alloc, code, &mut Player::at(alloc, place), lacked)
}

/// The actor of this number, if one is given.
fn actor_of(number: Option<u32>) -> Option<Thing> {
    match number {
        Some(n) => Some(Thing::Actor(ActorName(n))),
        None => None,
    }
}

/// What is seen of a turn of this body from a place on, where its actor lacks one if one is given.
pub(crate) fn told(
    alloc: Global,
    body: &str,
    place: u32,
    lacked: Option<u32>,
) -> Result<String, Fail> {
    turn_from(alloc, &code_of(alloc, body)?, place, actor_of(lacked))
}
