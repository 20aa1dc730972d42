// A set over three levels, against the numbers that are known to be in it.

use ready_set::{PLACES_LIMIT, ReadySet};

// A number, whether it is put in or taken out, and the least one of the set then.
const CHANGES: &[(u32, bool, Option<u32>)] = &[
    (65_535, true, Some(65_535)),
    (4096, true, Some(4096)),
    (4095, true, Some(4095)),
    (64, true, Some(64)),
    (70, true, Some(64)),
    (64, false, Some(70)),
    (64, false, Some(70)),
    (70, false, Some(4095)),
    (0, true, Some(0)),
    (0, false, Some(4095)),
    (4095, false, Some(4096)),
    (4096, false, Some(65_535)),
    (65_535, false, None),
    (3, true, Some(3)),
    (70, true, Some(3)),
    (4095, true, Some(3)),
    (8200, true, Some(3)),
    (65_535, true, Some(3)),
];

// A number, and the least one of the set from that on, once all of these changes were made.
const NEXT: &[(u32, Option<u32>)] = &[
    (0, Some(3)),
    (3, Some(3)),
    (4, Some(70)),
    (71, Some(4095)),
    (4096, Some(8200)),
    (8201, Some(65_535)),
    (65_535, Some(65_535)),
    (65_536, None),
    (u32::MAX, None),
];

/// Whether a set has 64 places more after each of 1,024 calls.
fn grows(set: &mut ReadySet) -> bool {
    for turn in 1..1025 {
        if set.len() >= PLACES_LIMIT || set.grow().is_err() || set.len() != 64 * turn {
            return false;
        }
    }
    true
}

/// Whether the change is seen, and this number is the least one then.
fn changes(set: &mut ReadySet, change: &(u32, bool, Option<u32>)) -> bool {
    let (a, on, first) = *change;
    if a as usize >= set.len() {
        return false;
    }
    set.put(a, on);
    set.contains(a) == on && set.first() == first
}

fn finds_the_least(set: &mut ReadySet) -> bool {
    for change in CHANGES {
        if !changes(set, change) {
            return false;
        }
    }
    true
}

fn finds_the_next(set: &ReadySet) -> bool {
    for (from, next) in NEXT {
        if set.next(*from) != *next {
            return false;
        }
    }
    true
}

/// Whether a set that has no place yet grows, and then finds what is in it.
fn finds_all(set: &mut ReadySet) -> bool {
    set.len() == 0
        && set.first() == None
        && grows(set)
        && finds_the_least(set)
        && finds_the_next(set)
}

#[test]
fn the_least_and_the_next_are_found(rt: HostRuntime) {
    let mut set = ReadySet::new(rt.alloc());
    let holds = finds_all(&mut set);
    drop(set);
    assert!(rt; holds);
}
