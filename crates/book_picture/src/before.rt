// What an event finds, of which its entry tells what changes.

ghost use Rattle.std.specs.Prelude.{◌≡◌, [], IfOk};
ghost use Rattle.orca_core.specs.Machine.{NoneIsAway};
ghost use Rattle.picture_rules.specs.Pictures.{heard};
ghost use Rattle.book_picture.specs.Entries.{IsBefore, IsStateOfParts};

use crate::texts::{Texts, texts_of};
use crate::touched::{Touched, touched_by};
use behaviour_code::Names;
use event_rule::Event;
use orca_core::{Orca, Ready};
use orca_names::NoMemory;
use std::alloc::Global;

/// What an event finds of the parts that it touches.
#[derive(Drop)]
pub(crate) struct Before {
    pub(crate) touched: Touched,
    pub(crate) texts: Texts,
    /// How many values were printed.
    pub(crate) prints: usize,
    /// How many notes wait that it doesn't take.
    pub(crate) notes: usize,
}

/// How many notes the detector takes by the event.
fn heard(event: &Event) -> usize
    ensures { result ≡ heard event.now }
{
    match event {
        Event::Hear => 1,
        _ => 0,
    }
}

/// What an event that was prepared finds.
///
/// # Errors
/// `NoMemory` where memory was refused.
pub(crate) fn before_event(
    alloc: Global,
    orca: &Orca<'_>,
    names: &Names,
    ready: &Ready,
) -> Result<Before, NoMemory>
    requires home { NoneIsAway orca.now }
    requires none { orca.now.blocks ≡ [] }
    ensures before { IfOk result (IsBefore names.now ready.now.event orca.now) }
    ensures state { IsStateOfParts orca.now }
{
    let touched = touched_by(alloc, orca, ready)?;
    let texts = texts_of(alloc, orca, names, &touched)?;
    let prints = orca.prints().len();
    let notes = orca.notes().len().saturating_sub(heard(&ready.event));
    Ok(Before {
        touched,
        texts,
        prints,
        notes,
    })
}
