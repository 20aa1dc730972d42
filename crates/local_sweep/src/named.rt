// What a sweep keeps where the fields lead no further than to what they name: no walk is wanted.

ghost use Rattle.std.specs.Prelude.{◌≡◌};
ghost use Rattle.local_sweep.specs.Marked.{is_for, is_named};

use crate::kept::Kept;
use foreign_table::ForeignTable;
use known_rows::KnownRows;
use object_heap::ObjectHeap;
use orca_names::{Thing, Value};

// Whether the value names the thing, or an object of it.
#[inline(always)]
fn is_for(value: &Value, thing: &Thing) -> bool
    ensures { result ≡ is_for thing.now value.now }
{
    match value {
        Value::Obj(n) => match thing {
            Thing::Actor(a) => n.owner == *a,
            Thing::Obj(m) => *n == *m,
        },
        Value::Actor(b) => match thing {
            Thing::Actor(a) => *a == *b,
            Thing::Obj(_) => false,
        },
        _ => false,
    }
}

// Whether one of the values names the thing, or an object of it.
#[inline(always)]
fn is_named(values: &[Value], thing: &Thing) -> bool
    ensures { result ≡ is_named values.now thing.now }
{
    for value in values {
        if is_for(value, thing) {
            return true;
        }
    }
    false
}

/// What the values name is kept, with the owners.
#[derive(Drop)]
pub(crate) struct ByName<'a> {
    pub(crate) values: &'a [Value],
    pub(crate) rows: KnownRows<'a>,
}

impl Kept for ByName<'_> {
    ghost own = { λ s. s.rows.heap.now };

    ghost held = { λ s. s.rows.foreign.now };

    ghost marked = { λ s. is_named s.values.now };

    fn heap(&self) -> &ObjectHeap {
        self.rows.heap
    }

    fn foreign(&self) -> &ForeignTable {
        self.rows.foreign
    }

    fn keeps_own(&self, i: usize) -> bool {
        let (n, _, _) = self.rows.heap.at(i);
        is_named(self.values, &Thing::Obj(n))
    }

    #[inline(always)]
    fn keeps_held(&self, j: usize) -> bool {
        is_named(self.values, &self.rows.foreign.thing_at(j))
    }
}
