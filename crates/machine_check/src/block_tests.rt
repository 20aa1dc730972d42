// The machine whose rows lie in blocks of words, beside the machine that frees nothing.

ghost use Rattle.std.specs.Prelude.{◌≡◌, ◌*◌, ◌<◌, ◌≤◌, length, IfOk};
ghost use Rattle.row_store.specs.Vectors.{known_in, places_in};
ghost use Rattle.machine_check.specs.Blocked.{Stands};

use crate::beside::{Ended, does, prints_the_same};
use crate::plain_tests::checked;
use crate::programs::{
    KEPT, NAMED, ONE_AFTER_ANOTHER, PASSED, PEERS, REACHED_TWICE, TO_ITSELF, VALUES,
};
use behaviour_check::Checked;
use event_rule::Event;
use orca_core::{Orca, StepFault};
use orca_names::{ActorName, NoMemory, Trace};
use plain_machine::Plain;
use row_store::BLOCK_WORDS;
use std::alloc::Global;
use std::test::Fail;

const MAIN: ActorName = ActorName(0);

/// Does these events, in their order.
fn does_all(
    alloc: Global,
    orca: &mut Orca<'_>,
    words: &mut Vec<u64>,
    events: &[Event],
) -> Result<(), StepFault>
    requires { Stands orca.old (known_in 0 words.old.items) (places_in words.old.items) }
    ensures { Stands orca.new (known_in 0 words.new.items) (places_in words.new.items) }
{
    for event in events {
        does(alloc, orca, *event, words)?;
    }
    Ok(())
}

/// Whether the first block has the row of the first object, and then, once this was freed, that of the
/// second.
fn serves_twice(alloc: Global, orca: &mut Orca<'_>, words: &mut Vec<u64>) -> Result<bool, StepFault>
    requires { Stands orca.old (known_in 0 words.old.items) (places_in words.old.items) }
    ensures { Stands orca.new (known_in 0 words.new.items) (places_in words.new.items) }
{
    let made = [Event::Take(MAIN), Event::Go(MAIN), Event::Go(MAIN)];
    does_all(alloc, orca, words, &made)?;
    // A number, 1.
    let first = words.get(1) == Some(&1) && words.get(2) == Some(&1);
    let again = [Event::Collect(MAIN), Event::Take(MAIN), Event::Go(MAIN)];
    does_all(alloc, orca, words, &again)?;
    // Null.
    let second = words.get(0) == Some(&1) && words.get(1) == Some(&0) && words.get(2) == Some(&0);
    Ok(first && second && orca.objects_made() == 2)
}

/// Whether a second object lacks a block while the first has the only one, and nothing changes then.
fn lacks_a_block(
    alloc: Global,
    orca: &mut Orca<'_>,
    words: &mut Vec<u64>,
) -> Result<bool, StepFault>
    requires { Stands orca.old (known_in 0 words.old.items) (places_in words.old.items) }
    ensures { Stands orca.new (known_in 0 words.new.items) (places_in words.new.items) }
{
    let made = [
        Event::Take(MAIN),
        Event::Go(MAIN),
        Event::Go(MAIN),
        Event::Take(MAIN),
    ];
    does_all(alloc, orca, words, &made)?;
    let refused = does(alloc, orca, Event::Go(MAIN), words)
        == Err(StepFault::NoRows { actor: MAIN });
    Ok(refused && orca.objects_made() == 1 && words.get(1) == Some(&1))
}

/// How the run ends. `None` where the machines do not agree.
fn ends_alike(
    alloc: Global,
    orca: &mut Orca<'_>,
    words: &mut Vec<u64>,
    plain: &mut Plain<'_>,
) -> Result<Option<Ended>, Fail>
    requires { Stands orca.old (known_in 0 words.old.items) (places_in words.old.items) }
{
    let ended = prints_the_same(alloc, orca, plain, words)?;
    if ended != Some(Ended::Quiet) {
        return Ok(ended);
    }
    let left = orca.left(alloc)?;
    let reached = plain.reach(alloc)?;
    Ok(ended.filter(|_| left.as_slice() == reached.as_slice()))
}

/// As many words as so many blocks have.
fn words_for(alloc: Global, count: u32) -> Result<Vec<u64>, NoMemory>
    requires { count ≤ 64 }
    ensures { IfOk result (λ words. length words.items ≡ 17 * count) }
{
    Ok(vec![in alloc; 0u64; BLOCK_WORDS as usize * count as usize]?)
}

/// How a run of a program ends with so many blocks. `None` where the machines do not agree.
fn end_of(alloc: Global, code: &Checked, count: u32) -> Result<Option<Ended>, Fail>
    requires some { 0 < count }
    requires few { count ≤ 64 }
{
    let mut words = words_for(alloc, count)?;
    let mut plain = Plain::start(alloc, code)?;
    let mut orca = Orca::start(alloc, code, 256, Some(count), Trace::Deep)?;
    ends_alike(alloc, &mut orca, &mut words, &mut plain)
}

/// With how many blocks a program ends quiet, where it lacks blocks with each fewer ones. `None` where
/// the machines do not agree, or 8 are not enough.
fn enough_for(alloc: Global, text: &str) -> Result<Option<u32>, Fail> {
    let code = checked(alloc, text)?;
    for count in 1..9 {
        match end_of(alloc, &code, count)? {
            Some(Ended::Quiet) => return Ok(Some(count)),
            Some(Ended::Lacking) => {}
            None => return Ok(None),
        }
    }
    Ok(None)
}

#[test]
fn programs_with_blocks_agree(rt: HostRuntime) -> Result<(), Fail> {
    let enough = [
        (VALUES, 1),
        (PASSED, 1),
        (KEPT, 1),
        (NAMED, 1),
        (PEERS, 1),
        (TO_ITSELF, 1),
        (REACHED_TWICE, 2),
        (ONE_AFTER_ANOTHER, 2),
    ];
    for (text, count) in enough {
        assert_eq!(rt; enough_for(rt.alloc(), text)?, Some(count));
    }
    Ok(())
}

/// Six events of a run with one block, before which nothing was done.
fn one_block_serves(alloc: Global, code: &Checked) -> Result<bool, Fail> {
    let mut words = words_for(alloc, 1)?;
    let mut orca = Orca::start(alloc, code, 256, Some(1), Trace::Deep)?;
    Ok(serves_twice(alloc, &mut orca, &mut words)?)
}

#[test]
fn a_block_is_written_twice(rt: HostRuntime) -> Result<(), Fail> {
    let code = checked(rt.alloc(), ONE_AFTER_ANOTHER)?;
    assert!(rt; one_block_serves(rt.alloc(), &code)?);
    Ok(())
}

fn one_block_lacks(alloc: Global, code: &Checked) -> Result<bool, Fail> {
    let mut words = words_for(alloc, 1)?;
    let mut orca = Orca::start(alloc, code, 256, Some(1), Trace::Deep)?;
    Ok(lacks_a_block(alloc, &mut orca, &mut words)?)
}

#[test]
fn a_go_without_free_blocks_is_refused(rt: HostRuntime) -> Result<(), Fail> {
    let code = checked(rt.alloc(), ONE_AFTER_ANOTHER)?;
    assert!(rt; one_block_lacks(rt.alloc(), &code)?);
    Ok(())
}
