// The one-worker order and the text of each event, from outside of the contracts.

use crate::table::{holds, same_text};
use event_rule::Event;
use orca_names::{ActorName, Serial};
use std::alloc::Global;
use std::test::Fail;

fn rise(events: &[(Event, &str)]) -> Result<(), Fail> {
    for pair in events.windows(2) {
        if let [first, second] = pair {
            holds(first.0 < second.0, second.1)?;
        }
    }
    Ok(())
}

fn have_their_texts(alloc: Global, events: &[(Event, &str)]) -> Result<(), Fail> {
    for (event, text) in events {
        same_text(event.to_string(alloc)?.as_str(), text)?;
    }
    Ok(())
}

#[test]
fn events_rise_as_one_worker_does_them(rt: HostRuntime) -> Result<(), Fail> {
    let rising = [
        (Event::Go(ActorName(0)), "go 0"),
        (Event::Take(ActorName(0)), "take 0"),
        (Event::Go(ActorName(12)), "go 12"),
        (Event::Take(ActorName(12)), "take 12"),
        (Event::Collect(ActorName(0)), "collect 0"),
        (Event::Leave(ActorName(0)), "leave 0"),
        (Event::Block(ActorName(0)), "block 0"),
        (Event::Collect(ActorName(65535)), "collect 65535"),
        (Event::Block(ActorName(65535)), "block 65535"),
        (Event::Hear, "hear"),
        (Event::Scan, "scan"),
        (Event::Reap(Serial::of(1)), "reap 1"),
        (Event::Reap(Serial::of(2)), "reap 2"),
        (
            Event::Reap(Serial::of(u64::MAX)),
            "reap 18446744073709551615",
        ),
    ];
    rise(&rising)?;
    have_their_texts(rt.alloc(), &rising)
}
