// What letters, turns and collections do to the counts of one actor.

ghost use Rattle.std.specs.Prelude.{◌≡◌, ◌∷◌, [], IfOk, None};
ghost use Rattle.actor_cell.specs.Cells.{as_cell};
ghost use Rattle.foreign_table.specs.Table as tables;
ghost use Rattle.letter_kinds.specs.Holdings.{nothing_held};
ghost use Rattle.letter_kinds.specs.Telling.{TellsNothing, Told};
ghost use Rattle.actor_cell.specs.Tells.{Tells};
ghost use Rattle.object_heap.specs.Heap as heaps;

use crate::going::{are_spare, checked, collects, goes, takes};
use actor_cell::{Cell, Out};
use behaviour_check::Checked;
use behaviour_code::Name;
use foreign_table::ForeignTable;
use letter_kinds::{Amounts, Letter, Load, Note, SentArgs};
use object_heap::ObjectHeap;
use orca_names::{ActorName, Args, NoMemory, ObjName, Row, Serial, Thing, Value};
use plain_list::Listed;
use row_store::{Remembered, Told as ToldRow};
use std::alloc::Global;
use std::test::Fail;

/// An object goes from the first actor to a second and on to a third, which drops it.
const PASSED: &str =
    "kind Main 0\non start 0\npin\nnew r0 A\nnew r1 B\nint r2 9\nrow r3 r2\nsend r0 give r3 r1\nend\nkind A 0\non give 2\nsend r1 keep r0\nend\nkind B 0\non keep 1\nget r1 r0 0\nprint r1\nend\n";

const FIRST: Thing = Thing::Actor(ActorName(0));

const LAST: Thing = Thing::Actor(ActorName(2));

/// The actor of the tests, and how often it is counted.
const SECOND: ActorName = ActorName(1);

const COUNT: u64 = 256;

/// The first object of this actor.
fn object_of(owner: u32) -> ObjName {
    ObjName {
        owner: ActorName(owner),
        serial: Serial::of(0),
    }
}

/// The name of the first behaviour of a kind.
fn first_behaviour(code: &Checked, kind: u32) -> Result<Name, Fail> {
    match code.program().behaviours(kind).get(0) {
        Some(behaviour) => Ok(behaviour.name),
        None => Err(Fail::from("no behaviour")),
    }
}

/// The row of the first actor's object.
fn nine() -> Row {
    Row::of(&[Value::Num(9)])
}

/// What the letter that gives the first actor's object and the last actor loads.
fn given_load(alloc: Global) -> Result<Load, Fail>
    ensures { IfOk result (λ load. TellsNothing (Told load)) }
{
    let mut load = Listed::new(alloc);
    load.push((FIRST, ToldRow::Nothing))?;
    load.push((Thing::Obj(object_of(0)), ToldRow::Here(nine())))?;
    load.push((LAST, ToldRow::Nothing))?;
    Ok(Load::with(load, Remembered::new()))
}

/// How often the actor holds the first actor, its object and the last actor.
fn held(cell: &Cell) -> [u64; 3] {
    [
        cell.foreign.count(FIRST),
        cell.foreign.count(Thing::Obj(object_of(0))),
        cell.foreign.count(LAST),
    ]
}

/// Whether the letter goes to this actor and raises the counts of these things.
fn raises(out: &(ActorName, Letter), to: u32, want: &[(Thing, u64)]) -> bool {
    match &out.1 {
        Letter::Inc { things } => out.0 == ActorName(to) && things.as_slice() == want,
        _ => false,
    }
}

/// Whether the letter goes to this actor and lowers the counts of these things.
fn lowers(out: &(ActorName, Letter), to: u32, want: &[(Thing, u64)]) -> bool {
    match &out.1 {
        Letter::Dec { things } => out.0 == ActorName(to) && things.as_slice() == want,
        _ => false,
    }
}

/// Whether a load is the first actor and its object with the row.
fn is_passed(load: &[(Thing, ToldRow)]) -> bool {
    let [first, object] = load else {
        return false;
    };
    let has_row =
        matches!(&object.1, ToldRow::Here(row) if row.as_slice() == [Value::Num(9)].as_slice());
    first.0 == FIRST && object.0 == Thing::Obj(object_of(0)) && has_row
}

/// Whether the letter starts this behaviour of the last actor, and loads the first actor and its object.
fn passes(out: &(ActorName, Letter), keep: Name) -> bool {
    match &out.1 {
        Letter::App {
            behaviour,
            load,
            ..
        } => out.0 == ActorName(2) && *behaviour == keep && is_passed(load.parts().0),
        _ => false,
    }
}

/// Where in its behaviour the actor is, if it has a frame.
fn place_of(cell: &Cell) -> Option<u32> {
    Some(cell.frame.get()?.place)
}

/// Whether the actor takes the letter for this behaviour, and then holds each thing of its load once.
fn gets(alloc: Global, code: &Checked, cell: &mut Cell, behaviour: Name) -> Result<bool, Fail>
    requires idle { cell.old.frame ≡ None }
    requires fresh { (as_cell cell.old).holdings ≡ nothing_held 256 }
    requires told { TellsNothing (Tells cell.old) }
    ensures { TellsNothing (Tells cell.new) }
{
    let load = given_load(alloc)?;
    if !are_spare(&load, cell, 0) {
        return Err(Fail::from("its own things are loaded"));
    }
    let mut args = SentArgs::new(alloc)?;
    args.copy_from(&Args::of(&[Value::Obj(object_of(0)), Value::Actor(ActorName(2))]));
    let letter = Letter::App {
        behaviour,
        args,
        load,
        rows: Load::new(alloc),
    };
    let out = takes(alloc, code, cell, letter)?;
    Ok(out.letters.is_empty() && out.notes.is_empty() && held(cell) == [1, 1, 1])
}

/// Whether the actor mints what it lacks for its letter, and stands where it stood.
fn mints(alloc: Global, code: &Checked, cell: &mut Cell) -> Result<bool, Fail>
    requires { TellsNothing (Tells cell.old) }
    ensures { TellsNothing (Tells cell.new) }
{
    let place = place_of(cell);
    let out = goes(alloc, code, cell)?;
    let minted = [(FIRST, 256), (Thing::Obj(object_of(0)), 256)];
    let is_told = matches!(out.letters.as_slice(), [letter] if raises(letter, 0, &minted));
    Ok(is_told && held(cell) == [257, 257, 1] && place_of(cell) == place)
}

/// Whether the actor sends its letter then.
fn sends(alloc: Global, code: &Checked, cell: &mut Cell, keep: Name) -> Result<bool, Fail>
    requires { TellsNothing (Tells cell.old) }
    ensures { TellsNothing (Tells cell.new) }
{
    let out = goes(alloc, code, cell)?;
    let is_sent = matches!(out.letters.as_slice(), [letter] if passes(letter, keep));
    Ok(is_sent && held(cell) == [256, 256, 1])
}

/// Whether the actor ends its turn, and gives back all that it holds as it collects.
fn gives_back(alloc: Global, code: &Checked, cell: &mut Cell) -> Result<bool, Fail>
    requires { TellsNothing (Tells cell.old) }
{
    let ended = goes(alloc, code, cell)?.letters.is_empty() && !cell.frame.is_some();
    let out = collects(alloc, cell)?;
    let first = [(FIRST, 256), (Thing::Obj(object_of(0)), 256)];
    let is_told = matches!(out.letters.as_slice(),
        [one, two] if lowers(one, 0, &first) && lowers(two, 2, &[(LAST, 1)]));
    Ok(ended && is_told && cell.foreign.len() == 0)
}

/// Whether the second actor passes an object on, and gives the rest back.
fn passes_on(alloc: Global, code: &Checked, cell: &mut Cell) -> Result<bool, Fail>
    requires idle { cell.old.frame ≡ None }
    requires fresh { (as_cell cell.old).holdings ≡ nothing_held 256 }
    requires told { TellsNothing (Tells cell.old) }
{
    let give = first_behaviour(code, 1)?;
    let keep = first_behaviour(code, 2)?;
    let got = gets(alloc, code, cell, give)?;
    let minted = mints(alloc, code, cell)?;
    let sent = sends(alloc, code, cell, keep)?;
    Ok(got && minted && sent && gives_back(alloc, code, cell)?)
}

/// Counts an object once.
fn count_once(heap: &mut ObjectHeap, object: &ObjName)
    ensures { heap.new.blocks ≡ heap.old.blocks }
{
    if heap.has(*object) {
        if heap.count(*object) < 1000 {
            heap.raise(*object, 1);
        }
    }
}

/// Makes an object that names the last actor, and is counted once.
fn own_counted(heap: &mut ObjectHeap) -> Result<(), Fail>
    ensures { heaps.AllHere heap.old → heaps.AllHere heap.new }
{
    heap.reserve(1)?;
    if heap.made() > 1000 {
        return Err(Fail::from("many objects"));
    }
    let object = heap.make(Row::of(&[Value::Actor(ActorName(2))]));
    count_once(heap, &object);
    Ok(())
}

/// Holds the last actor with the weight.
fn hold_last(foreign: &mut ForeignTable) -> Result<(), Fail>
    ensures { tables.AllHere foreign.old → tables.AllHere foreign.new }
{
    foreign.reserve(1)?;
    if foreign.count(LAST) < 1000 {
        foreign.gain(LAST, &ToldRow::Nothing, &Remembered::new(), COUNT);
    }
    Ok(())
}

/// Whether the actor keeps an object that is counted, and gives back what its row names.
fn keeps_counted(alloc: Global, cell: &mut Cell) -> Result<bool, Fail>
    requires { TellsNothing (Tells cell.old) }
{
    // None of its rows lies in a block.
    cell.untold_are_here();
    own_counted(&mut cell.heap)?;
    hold_last(&mut cell.foreign)?;
    let out = collects(alloc, cell)?;
    let is_told = matches!(out.letters.as_slice(), [one] if lowers(one, 2, &[(LAST, COUNT)]));
    Ok(is_told && cell.heap.has(object_of(1)) && cell.foreign.len() == 0)
}

/// One thing, with the amount 1.
fn once(alloc: Global, thing: Thing) -> Result<Amounts, NoMemory>
    ensures { IfOk result (λ things. things ≡ (thing, 1) ∷ []) }
{
    let mut things = Amounts::new(alloc);
    things.push((thing, 1))?;
    Ok(things)
}

/// What an actor gives out as it takes a letter that lowers its count by 1, after it reported.
fn lowered(alloc: Global, code: &Checked, cell: &mut Cell) -> Result<Out, Fail>
    requires idle { cell.old.frame ≡ None }
{
    cell.block(alloc)?;
    let things = once(alloc, Thing::Actor(cell.heap.owner()))?;
    if cell.count.get() == 0 {
        return Err(Fail::from("nobody holds it"));
    }
    takes(alloc, code, cell, Letter::Dec { things })
}

/// Whether the second actor tells that it is unblocked as its count falls after it reported.
fn unblocks(alloc: Global, code: &Checked, cell: &mut Cell) -> Result<bool, Fail>
    requires idle { cell.old.frame ≡ None }
{
    let out = lowered(alloc, code, cell)?;
    let is_told = matches!(out.notes.as_slice(), [Note::Unblock { actor }] if *actor == SECOND);
    Ok(is_told && cell.dirty && !cell.reported && cell.count.get() == 255)
}

/// Whether the second actor acknowledges the token that it is asked for after it reported.
fn acknowledges(alloc: Global, code: &Checked, cell: &mut Cell) -> Result<bool, Fail>
    requires idle { cell.old.frame ≡ None }
{
    cell.block(alloc)?;
    let out = takes(alloc, code, cell, Letter::Confirm { token: 1 })?;
    let is_told =
        matches!(out.notes.as_slice(), [Note::Ack { token: 1, actor }] if *actor == SECOND);
    Ok(is_told && !cell.dirty && cell.reported)
}

/// What the second actor is to do by itself.
#[derive(Clone, Copy)]
enum Scene {
    PassOn,
    KeepCounted,
    Unblock,
    Acknowledge,
}

/// Whether the fresh actor does so.
fn does(alloc: Global, code: &Checked, cell: &mut Cell, scene: Scene) -> Result<bool, Fail>
    requires idle { cell.old.frame ≡ None }
    requires fresh { (as_cell cell.old).holdings ≡ nothing_held 256 }
    requires told { TellsNothing (Tells cell.old) }
{
    match scene {
        Scene::PassOn => passes_on(alloc, code, cell),
        Scene::KeepCounted => keeps_counted(alloc, cell),
        Scene::Unblock => unblocks(alloc, code, cell),
        Scene::Acknowledge => acknowledges(alloc, code, cell),
    }
}

fn second_does(alloc: Global, code: &Checked, scene: Scene) -> Result<bool, Fail> {
    let mut cell = Cell::fresh(alloc, code, SECOND, 1, COUNT);
    does(alloc, code, &mut cell, scene)
}

/// Whether the second actor of the program does so.
fn plays(alloc: Global, scene: Scene) -> Result<bool, Fail> {
    let code = checked(alloc, PASSED)?;
    second_does(alloc, &code, scene)
}

#[test]
fn what_is_passed_on_is_counted(rt: HostRuntime) -> Result<(), Fail> {
    assert!(rt; plays(rt.alloc(), Scene::PassOn)?);
    Ok(())
}

#[test]
fn what_is_counted_is_kept_by_itself(rt: HostRuntime) -> Result<(), Fail> {
    assert!(rt; plays(rt.alloc(), Scene::KeepCounted)?);
    Ok(())
}

#[test]
fn a_reported_actor_tells_what_it_took(rt: HostRuntime) -> Result<(), Fail> {
    assert!(rt; plays(rt.alloc(), Scene::Unblock)?);
    assert!(rt; plays(rt.alloc(), Scene::Acknowledge)?);
    Ok(())
}
