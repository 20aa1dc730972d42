// An actor that holds an object and two actors reports the counts on the actors alone.

use crate::cases::{Holding, Named, gains_all};
use block_report::report;
use foreign_table::ForeignTable;
use letter_kinds::Note;
use orca_names::ActorName;
use std::alloc::Global;

const HELD: &[Holding] = &[
    (Named::Actor(2), &[], 1),
    (Named::Object(1, 4), &[], 9),
    (Named::Actor(1), &[], 256),
];

fn tells_two(note: &Note) -> bool {
    let told = [(ActorName(1), 256), (ActorName(2), 1)];
    match note {
        Note::Block {
            actor,
            count: 7,
            held,
        } => *actor == ActorName(3) && held.as_slice() == told.as_slice(),
        _ => false,
    }
}

fn reports_two(alloc: Global, table: &ForeignTable) -> bool {
    match report(alloc, ActorName(3), 7, table) {
        Ok(note) => tells_two(&note),
        Err(_) => false,
    }
}

#[test]
fn counts_on_actors_are_told(rt: HostRuntime) {
    let mut table = ForeignTable::new(rt.alloc());
    let held = gains_all(&mut table, HELD) && table.len() == 3;
    let told = reports_two(rt.alloc(), &table);
    drop(table);
    assert!(rt; held && told);
}
