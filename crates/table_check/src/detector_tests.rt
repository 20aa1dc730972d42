// The detector, note by note. One function makes it for all tests and drops it.

ghost use Rattle.std.specs.Prelude.{◌≡◌, ◌+◌, ◌<◌, ◌≤◌, length};
ghost use Rattle.cycle_detect.specs.Falling.{held_count};

use cycle_detect::{Detector, Token};
use letter_kinds::Note;
use orca_names::{ActorName, KeptReport, NoMemory};
use plain_list::Listed;
use std::alloc::Global;
use std::marker::Brand;
use std::sync::ledger::{Blank, Ledger};
use step_count::Steps;

/// What an actor holds: 1 on this other one.
fn held_on(alloc: Global, other: Option<u32>) -> Result<Listed<(ActorName, u64)>, NoMemory> {
    let mut held = Listed::new(alloc);
    if let Some(other) = other {
        held.push((ActorName(other), 1))?;
    }
    Ok(held)
}

/// Hears that the actor is blocked with this count, and holds 1 on this other one. Whether there was
/// memory for it.
fn hears_block(
    alloc: Global,
    detector: &mut Detector,
    actor: u32,
    count: u64,
    other: Option<u32>,
) -> bool
    ensures { detector.new.state.opened ≡ detector.old.state.opened }
{
    match held_on(alloc, other) {
        Ok(held) => {
            let actor = ActorName(actor);
            detector.hear(Note::Block { actor, count, held }).is_ok()
        }
        Err(_) => false,
    }
}

fn ack(token: u64, actor: u32) -> Note {
    Note::Ack {
        token,
        actor: ActorName(actor),
    }
}

/// The token that is ready once the note is heard, which takes no memory.
fn ready_after(detector: &mut Detector, note: Note) -> Option<u64> {
    if detector.hear(note).is_err() {
        return Some(u64::MAX);
    }
    detector.ready()
}

/// Whether this is the largest closed set.
fn is_closed(alloc: Global, detector: &Detector, members: &[ActorName]) -> bool {
    match detector.largest_closed(alloc) {
        Ok(found) => found.as_slice() == members,
        Err(_) => false,
    }
}

/// Opens a token of the largest closed set. Whether there was memory for it.
fn opens_prepared(alloc: Global, detector: &mut Detector) -> bool
    requires { detector.old.state.opened ≡ 0 }
{
    let Ok(set) = detector.largest_closed(alloc) else {
        return false;
    };
    match detector.prepare_token(alloc, &set) {
        Ok(token) => {
            detector.open_prepared(token);
            true
        }
        Err(_) => false,
    }
}

/// Hears of two actors that hold each other, and opens a token of both. Whether there was memory.
fn asks(alloc: Global, detector: &mut Detector) -> bool
    requires { detector.old.state.opened ≡ 0 }
{
    hears_block(alloc, detector, 2, 1, Some(1))
        && hears_block(alloc, detector, 1, 1, Some(2))
        && opens_prepared(alloc, detector)
}

/// The largest closed set, with the steps that 1,000 reports may take which tell one count each, or
/// all but one of them.
fn closed_within<L: Ledger>(
    alloc: Global,
    detector: &Detector,
    steps: &mut Steps<L>,
) -> Result<Vec<ActorName>, NoMemory>
    ensures chain { length detector.now.state.kept ≡ 1000 → held_count detector.now.state.kept ≡ 999
        → steps.new ≤ steps.old + 12000 }
    ensures ring { length detector.now.state.kept ≡ 1000 → held_count detector.now.state.kept ≡ 1000
        → steps.new ≤ steps.old + 12006 }
{
    detector.largest_closed_within(alloc, steps)
}

/// How many members the largest closed set has; `None` where there was no memory.
fn closed_count<L: Ledger>(alloc: Global, detector: &Detector, blank: Blank) -> Option<usize>
    requires name { blank.name ≡ L.name }
    requires parts { blank.parts ≡ L.parts }
    requires some { 0 < blank.parts }
{
    let mut steps: Steps<L> = Steps::none(blank);
    match closed_within(alloc, detector, &mut steps) {
        Ok(set) => Some(set.len()),
        Err(_) => None,
    }
}

/// Hears of the actors up to this one, each holding 1 on the next; the last holds 1 on this other
/// one, if any. How many members the largest closed set has then; `None` where there was no memory.
fn closed_in_a_row(
    alloc: Global,
    detector: &mut Detector,
    last: u32,
    other: Option<u32>,
) -> Option<usize> {
    for actor in 0..last {
        if !hears_block(alloc, detector, actor, 1, Some(actor + 1)) {
            return None;
        }
    }
    if !hears_block(alloc, detector, last, 1, other) {
        return None;
    }
    closed_count::<Brand>(alloc, detector, Blank::new(1))
}

/// Whether actors 1 and 2 are found closed, and have the first token.
fn opens_first(alloc: Global, detector: &mut Detector) -> bool
    requires { detector.old.state.opened ≡ 0 }
{
    let Ok(set) = detector.largest_closed(alloc) else {
        return false;
    };
    let two = set.as_slice() == [ActorName(1), ActorName(2)].as_slice();
    two && matches!(detector.open_token(alloc, &set), Ok(1))
}

/// Whether two of three actors, that hold each other, are found closed, and have the first token.
fn opens_for_two(alloc: Global, detector: &mut Detector) -> bool
    requires { detector.old.state.opened ≡ 0 }
{
    hears_block(alloc, detector, 1, 1, Some(2))
        && hears_block(alloc, detector, 2, 1, Some(1))
        && hears_block(alloc, detector, 3, 1, None)
        && detector.news()
        && opens_first(alloc, detector)
}

/// Whether nobody is found closed where one count of the first is held by nobody.
fn finds_none(alloc: Global, detector: &mut Detector) -> bool {
    hears_block(alloc, detector, 1, 2, Some(2))
        && hears_block(alloc, detector, 2, 1, Some(1))
        && hears_block(alloc, detector, 3, 1, Some(1))
        && is_closed(alloc, detector, &[])
}

/// Whether the token is ready, and both of its members acknowledged.
fn is_acked(detector: &Detector) -> bool {
    let members = [ActorName(1), ActorName(2)];
    detector.acked(1) && detector.acked_members(1) == Some(members.as_slice())
}

/// Whether the token is ready once both of its members acknowledged, and not before.
fn waits_for_both(detector: &mut Detector) -> bool {
    ready_after(detector, ack(1, 1)) == None
        && detector.acked_members(1).is_none()
        && ready_after(detector, ack(1, 2)) == Some(1)
        && is_acked(detector)
}

/// Whether the token is gone once one of its members is blocked no more, whoever acknowledges.
fn is_cancelled(detector: &mut Detector) -> bool {
    let actor = ActorName(2);
    ready_after(detector, ack(1, 1)) == None
        && ready_after(detector, Note::Unblock { actor }) == None
        && ready_after(detector, ack(1, 2)) == None
        && detector.members(1).is_none()
}

/// Whether the token is gone once it is closed, with the reports of its members.
fn closes(alloc: Global, detector: &mut Detector) -> bool {
    if detector.members(1).is_some() {
        detector.close(1);
    }
    detector.members(1).is_none() && is_closed(alloc, detector, &[])
}

fn count_one_each(reports: &[KeptReport]) -> bool {
    for report in reports {
        if report.count != 1 || report.held.len() != 1 {
            return false;
        }
    }
    true
}

fn tells_two(alloc: Global, detector: &Detector) -> bool {
    match detector.token_reports(alloc, 1) {
        Ok(Some(reports)) => reports.len() == 2 && count_one_each(&reports),
        _ => false,
    }
}

fn tells_none(alloc: Global, detector: &Detector) -> bool {
    matches!(detector.token_reports(alloc, 2), Ok(None))
}

/// Whether the note, once it was prepared, is news when it is heard, and not before.
fn is_news_once_heard(detector: &mut Detector, note: Note) -> bool {
    if detector.prepare_hear(&note).is_err() {
        return false;
    }
    let before = detector.news();
    detector.hear_prepared(note);
    !before && detector.news()
}

fn hears_as_prepared(alloc: Global, detector: &mut Detector) -> bool {
    let note = Note::Block {
        actor: ActorName(70),
        count: 0,
        held: Listed::new(alloc),
    };
    is_news_once_heard(detector, note) && is_closed(alloc, detector, &[ActorName(70)])
}

/// Whether the first token has these marks beside its members, actors 1 and 2.
fn is_marked(token: Option<&Token>, marks: [bool; 2]) -> bool {
    let members = [ActorName(1), ActorName(2)];
    match token {
        Some(token) => {
            token.number() == 1
                && token.members() == members.as_slice()
                && token.marks() == marks.as_slice()
        }
        None => false,
    }
}

/// Whether the report of actor 1 is kept, which holds 1 on actor 2.
fn keeps_first(detector: &Detector) -> bool {
    match detector.report(ActorName(1)) {
        Some(report) => {
            let held = [(ActorName(2), 1)];
            report.actor == ActorName(1)
                && report.count == 1
                && report.held.as_slice() == held.as_slice()
        }
        None => false,
    }
}

/// Whether what is known is found by its actor or number, and nothing of others.
fn tells_parts(detector: &mut Detector) -> bool {
    let fresh = is_marked(detector.token(1), [false, false]);
    let noted = ready_after(detector, ack(1, 2)) == None;
    let none = detector.token(2).is_none()
        && detector.token_of(ActorName(3)).is_none()
        && detector.report(ActorName(3)).is_none();
    fresh
        && noted
        && none
        && is_marked(detector.token_of(ActorName(1)), [false, true])
        && keeps_first(detector)
        && detector.opened() == 1
}

/// What a token of two actors that hold each other is tried for.
#[derive(Clone, Copy)]
enum Asked {
    WaitsForBoth,
    IsCancelled,
    Closes,
    TellsReports,
    TellsParts,
}

/// What a detector is tried for that heard nothing yet.
#[derive(Clone, Copy)]
enum Tried {
    OpensForTwo,
    FindsNone,
    ChainFalls,
    RingStands,
    HearsAsPrepared,
    Asks(Asked),
}

fn holds_once_asked(alloc: Global, detector: &mut Detector, asked: Asked) -> bool {
    match asked {
        Asked::WaitsForBoth => waits_for_both(detector),
        Asked::IsCancelled => is_cancelled(detector),
        Asked::Closes => closes(alloc, detector),
        Asked::TellsReports => tells_none(alloc, detector) && tells_two(alloc, detector),
        Asked::TellsParts => tells_parts(detector),
    }
}

fn holds_from_the_start(alloc: Global, detector: &mut Detector, tried: Tried) -> bool
    requires { detector.old.state.opened ≡ 0 }
{
    match tried {
        Tried::OpensForTwo => opens_for_two(alloc, detector),
        Tried::FindsNone => finds_none(alloc, detector),
        Tried::ChainFalls => closed_in_a_row(alloc, detector, 999, None) == Some(0),
        Tried::RingStands => closed_in_a_row(alloc, detector, 999, Some(0)) == Some(1000),
        Tried::HearsAsPrepared => hears_as_prepared(alloc, detector),
        Tried::Asks(asked) => asks(alloc, detector) && holds_once_asked(alloc, detector, asked),
    }
}

fn holds(alloc: Global, tried: Tried) -> bool {
    let mut detector = Detector::new(alloc);
    let holds = holds_from_the_start(alloc, &mut detector, tried);
    drop(detector);
    holds
}

#[test]
fn two_hold_each_other_and_one_more_count_leaves_none(rt: HostRuntime) {
    assert!(rt; holds(rt.alloc(), Tried::OpensForTwo));
    assert!(rt; holds(rt.alloc(), Tried::FindsNone));
}

#[test]
fn a_chain_falls_and_a_ring_stands(rt: HostRuntime) {
    assert!(rt; holds(rt.alloc(), Tried::ChainFalls));
    assert!(rt; holds(rt.alloc(), Tried::RingStands));
}

#[test]
fn a_token_waits_for_both_or_is_cancelled_or_closed(rt: HostRuntime) {
    assert!(rt; holds(rt.alloc(), Tried::Asks(Asked::WaitsForBoth)));
    assert!(rt; holds(rt.alloc(), Tried::Asks(Asked::IsCancelled)));
    assert!(rt; holds(rt.alloc(), Tried::Asks(Asked::Closes)));
}

#[test]
fn reports_are_handed_out_and_what_was_prepared_is_heard(rt: HostRuntime) {
    assert!(rt; holds(rt.alloc(), Tried::Asks(Asked::TellsReports)));
    assert!(rt; holds(rt.alloc(), Tried::Asks(Asked::TellsParts)));
    assert!(rt; holds(rt.alloc(), Tried::HearsAsPrepared));
}
