// The machine that frees nothing makes the choices of the one that collects.

ghost use Rattle.machine_check.specs.Blocked.{Stands};

use event_rule::Event;
use letter_kinds::Letter;
use orca_core::{Orca, StepFault};
use orca_names::ActorName;
use plain_machine::Plain;
use row_store::RowWords;
use std::alloc::Global;
use std::test::Fail;

const MOST: u64 = 100_000;

/// How the machine that collects ends.
#[derive(Clone, Copy, Debug, PartialEq, Eq)]
pub(crate) enum Ended {
    /// No event is enabled.
    Quiet,
    /// The first enabled event makes more rows than there are free blocks.
    Lacking,
}

/// Whether the first letter of an actor is one that a program sent.
fn has_application_letter(orca: &Orca<'_>, a: ActorName) -> bool {
    match orca.mail(a) {
        Some(mail) => matches!(mail.front(), Some(Letter::App { .. })),
        None => false,
    }
}

/// Where in its behaviour an actor is, if it has a frame.
fn place_of(orca: &Orca<'_>, a: ActorName) -> Option<u32> {
    Some(orca.cell(a)?.frame.get()?.place)
}

/// Does an event in the machine that collects, if this is young enough.
pub(crate) fn does<W: RowWords>(
    alloc: Global,
    orca: &mut Orca<'_>,
    event: Event,
    words: &mut W,
) -> Result<(), StepFault>
    requires { Stands orca.old (W.known words.old) (W.places words.old) }
    ensures { Stands orca.new (W.known words.new) (W.places words.new) }
{
    if orca.steps() >= MOST {
        return Err(StepFault::NoMemory);
    }
    orca.step(alloc, event, words)?;
    Ok(())
}

/// Does a go, and answers whether the frame is another then: else counts were minted for its act.
fn goes_on<W: RowWords>(
    alloc: Global,
    orca: &mut Orca<'_>,
    a: ActorName,
    words: &mut W,
) -> Result<bool, StepFault>
    requires { Stands orca.old (W.known words.old) (W.places words.old) }
    ensures { Stands orca.new (W.known words.new) (W.places words.new) }
{
    let before = place_of(orca, a);
    does(alloc, orca, Event::Go(a), words)?;
    Ok(place_of(orca, a) != before)
}

/// Does an event, and answers whether it is a choice, which the machine that frees nothing makes too:
/// the take of a letter that a program sent, or a go after which the frame is another.
fn chooses<W: RowWords>(
    alloc: Global,
    orca: &mut Orca<'_>,
    event: &Event,
    words: &mut W,
) -> Result<bool, StepFault>
    requires { Stands orca.old (W.known words.old) (W.places words.old) }
    ensures { Stands orca.new (W.known words.new) (W.places words.new) }
{
    let is_choice = match event {
        Event::Go(a) => return goes_on(alloc, orca, *a, words),
        Event::Take(a) => has_application_letter(orca, *a),
        _ => false,
    };
    does(alloc, orca, *event, words)?;
    Ok(is_choice)
}

/// Does a choice in the machine that frees nothing.
fn follows(alloc: Global, plain: &mut Plain<'_>, event: &Event) -> Result<(), Fail> {
    if plain.steps() >= MOST {
        return Err(Fail::from("a long run"));
    }
    match *event {
        Event::Take(a) => plain.take(a)?,
        Event::Go(a) => plain.go(alloc, a)?,
        _ => {}
    }
    Ok(())
}

/// Does the first enabled event, in both machines where it is a choice. It answers how the run ends,
/// where none is enabled or blocks are lacked.
fn steps_both<W: RowWords>(
    alloc: Global,
    orca: &mut Orca<'_>,
    plain: &mut Plain<'_>,
    words: &mut W,
) -> Result<Option<Ended>, Fail>
    requires { Stands orca.old (W.known words.old) (W.places words.old) }
    ensures { Stands orca.new (W.known words.new) (W.places words.new) }
{
    let Some(event) = orca.first_enabled() else {
        return Ok(Some(Ended::Quiet));
    };
    match chooses(alloc, orca, &event, words) {
        Ok(true) => follows(alloc, plain, &event)?,
        Ok(false) => {}
        Err(StepFault::NoRows { .. }) => return Ok(Some(Ended::Lacking)),
        Err(fault) => return Err(Fail::from(fault)),
    }
    Ok(None)
}

/// How the run ends. `None` where the machines do not print the same after each event.
pub(crate) fn prints_the_same<W: RowWords>(
    alloc: Global,
    orca: &mut Orca<'_>,
    plain: &mut Plain<'_>,
    words: &mut W,
) -> Result<Option<Ended>, Fail>
    requires { Stands orca.old (W.known words.old) (W.places words.old) }
    ensures { Stands orca.new (W.known words.new) (W.places words.new) }
{
    for _ in 0..MOST {
        let ended = steps_both(alloc, orca, plain, words)?;
        if ended.is_some() {
            return Ok(ended);
        }
        if orca.prints() != plain.prints() {
            return Ok(None);
        }
    }
    Err(Fail::from("a long run"))
}
