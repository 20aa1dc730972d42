// The report of a run at its end.

ghost use Rattle.orca_core.specs.Machine.{NoneIsAway};

use orca_core::Orca;
use orca_names::{NoMemory, Thing};
use report_text::{Numbers, Status, report};
use std::alloc::Global;

/// How many of these things are actors, or else objects.
fn count(things: &[Thing], actors: bool) -> u64 {
    let is_counted = |thing: &&Thing| matches!(thing, Thing::Actor(_)) == actors;
    things.iter().filter(is_counted).count() as u64
}

/// The report of a machine that is quiet.
fn quiet_report(alloc: Global, orca: &Orca<'_>) -> Result<Vec<u8>, NoMemory>
    requires { NoneIsAway orca.now }
{
    let left = orca.left(alloc)?;
    let actors = Numbers {
        made: orca.made(),
        left: count(&left, true),
    };
    let objects = Numbers {
        made: orca.objects_made(),
        left: count(&left, false),
    };
    report(
        alloc,
        &Status::Quiet,
        orca.prints(),
        actors,
        objects,
        None,
        None,
    )
}

/// Whether the report of a machine that is quiet has this text.
pub(crate) fn has_report(alloc: Global, orca: &Orca<'_>, text: &str) -> bool
    requires { NoneIsAway orca.now }
{
    match quiet_report(alloc, orca) {
        Ok(bytes) => bytes.as_slice() == text.as_bytes(),
        Err(_) => false,
    }
}

/// The report of the peers.
pub(crate) const PEERS_REPORT: &str =
    "--\nend quiet\nactors made 3 left 1\nobjects made 0 left 0\n";
