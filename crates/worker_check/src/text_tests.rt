// What refusals and failures read like.

use orca_names::ActorName;
use outside_world::{Failed, ReadErr};
use std::alloc::Global;
use std::fmt::Display;
use work_board::Refuse;

/// Whether the value reads so.
fn reads<T: Display>(alloc: Global, value: &T, wanted: &str) -> bool {
    let Ok(text) = value.to_string(alloc) else {
        return false;
    };
    text.as_str() == wanted
}

fn refusals_read(alloc: Global) -> bool {
    let unknown = Refuse::Unknown { made: 3 };
    let busy = Refuse::Busy { holder: 1 };
    let budget = Refuse::Budget { length: 9 };
    let actor = ActorName(2);
    reads(alloc, &unknown, "only 3 actors are made")
        && reads(alloc, &Refuse::Gone, "the actor is gone")
        && reads(alloc, &busy, "pass 1 has the actor")
        && reads(alloc, &Refuse::NotReady, "the event is not enabled")
        && reads(alloc, &budget, "the budget of 9 entries is spent")
        && reads(alloc, &Refuse::Full { actor }, "all actors are made")
        && reads(alloc, &Refuse::NoMemory, "out of memory")
}

#[test]
fn refusals_have_their_texts(rt: HostRuntime) {
    assert!(rt; refusals_read(rt.alloc()));
}

#[test]
fn failures_have_their_texts(rt: HostRuntime) {
    let alloc = rt.alloc();
    assert!(rt; reads(alloc, &Failed, "the device failed"));
    assert!(rt; reads(alloc, &ReadErr::Failed, "the source failed"));
    assert!(rt; reads(alloc, &ReadErr::NoMemory, "out of memory"));
}
