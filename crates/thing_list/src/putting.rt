// Things that are put in order, each once.

ghost use Rattle.std.specs.Prelude.{Contains, IsTrue, OnOk, ◌≡◌, ◌↔◌, [], ◌∷◌};
ghost use Rattle.std.specs.List.Sorted.{IsStrictlySortedBy};
ghost use Rattle.std.specs.declared.cmp.Ordering.TheVariants.{Less};
ghost use Rattle.orca_names.specs.Names.{thing_cmp};
ghost use Rattle.orca_names.specs.declared.names.Thing.{Thing as any_thing};
ghost use Rattle.thing_list.specs.Putting.{Puts};

use crate::list::ThingList;
use orca_names::{NoMemory, Thing};

/// Whether the thing is one of these.
#[inline(always)]
pub fn is_among(things: &[Thing], thing: &Thing) -> bool
    ensures { IsTrue result ↔ Contains things.now thing.now }
{
    for other in things {
        if *other == *thing {
            return true;
        }
    }
    false
}

// Whether the thing comes behind all of these, which are in order.
#[inline(always)]
fn comes_last(things: &[Thing], thing: &Thing) -> bool
    requires { IsStrictlySortedBy thing_cmp things.now }
    ensures { IsTrue result → (x : any_thing) → Contains things.now x
        → thing_cmp x thing.now ≡ Less }
{
    match things.last() {
        Some(last) => last.cmp(thing).is_lt(),
        None => true,
    }
}

// Puts a thing in its place among things in order, where it does not come last.
#[inline(never)]
fn put_among(things: &mut ThingList, thing: Thing) -> Result<(), NoMemory>
    requires { IsStrictlySortedBy thing_cmp things.old }
    ensures { OnOk result (Puts (thing ∷ []) things.old things.new) }
{
    if is_among(things.as_slice(), &thing) {
        return Ok(());
    }
    things.insert(thing)
}

/// Puts a thing in its place among things in order. One that is there stays.
///
/// # Errors
/// `NoMemory` where memory was refused; what `things` holds then is left open.
#[inline(always)]
pub fn put(things: &mut ThingList, thing: Thing) -> Result<(), NoMemory>
    requires { IsStrictlySortedBy thing_cmp things.old }
    ensures { OnOk result (Puts (thing ∷ []) things.old things.new) }
{
    if comes_last(things.as_slice(), &thing) {
        things.push(thing)
    } else {
        put_among(things, thing)
    }
}
