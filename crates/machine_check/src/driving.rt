// The machine that collects does an event, where what a turn or a collection does may be found before.

ghost use Rattle.std.specs.Prelude.{◌≡◌, ◌≤◌, IfSome, Some};
ghost use Rattle.event_rule.specs.Events.{actor_of};
ghost use Rattle.machine_check.specs.Driven.{IsDriven};

use behaviour_check::Checked;
use event_rule::Event;
use orca_core::{Orca, StepFault};
use orca_names::{ActorName, Trace};
use row_store::NoBlocks;
use std::alloc::Global;

/// The weight of the machines.
pub(crate) const WEIGHT: u32 = 256;

/// How a machine is driven.
#[derive(Drop)]
pub(crate) struct Drive<'a> {
    pub(crate) code: &'a Checked,
    pub(crate) trace: Trace,
    /// Whether what a turn or a collection does is found on the actor's cell, before the event comes.
    pub(crate) finds: bool,
}

/// Does an actor's turn or collection as it is found on the actor's cell.
fn installs(
    alloc: Global,
    drive: &Drive<'_>,
    machine: &mut Orca<'_>,
    a: ActorName,
    event: Event,
) -> Result<Option<ActorName>, StepFault>
    requires driven { IsDriven drive.now.code.now drive.now.trace machine.old }
    requires young { machine.old.steps ≤ 1000 }
    requires its { actor_of event ≡ Some a }
    ensures { IsDriven drive.now.code.now drive.now.trace machine.new }
{
    // The program was checked, and a run led to the machine.
    let _program = drive.code.program();
    machine.keeps_the_reachable();
    let Some(cell) = machine.cell(a) else {
        return Err(StepFault::NotEnabled);
    };
    match cell.found(
        alloc,
        drive.code,
        WEIGHT,
        drive.trace,
        &mut NoBlocks::default(),
    ) {
        Ok(found) => machine.install(alloc, event, found, &mut NoBlocks::default()),
        Err(_) => Err(StepFault::NoMemory),
    }
}

// The actor whose turn or collection the event is.
fn evaluated(event: &Event) -> Option<ActorName>
    ensures { IfSome result (λ a. actor_of event.now ≡ Some a) }
{
    match event {
        Event::Go(a) | Event::Collect(a) => Some(*a),
        _ => None,
    }
}

/// Does this event, if the machine is young enough, and tells the lowest actor that it woke.
pub(crate) fn does(
    alloc: Global,
    drive: &Drive<'_>,
    machine: &mut Orca<'_>,
    event: Event,
) -> Result<Option<ActorName>, StepFault>
    requires { IsDriven drive.now.code.now drive.now.trace machine.old }
    ensures { IsDriven drive.now.code.now drive.now.trace machine.new }
{
    if machine.steps() > 1000 {
        return Err(StepFault::NoMemory);
    }
    if drive.finds {
        if let Some(a) = evaluated(&event) {
            return installs(alloc, drive, machine, a, event);
        }
    }
    // A run led to the machine, and an event keeps its program.
    machine.keeps_the_reachable();
    machine.step(alloc, event, &mut NoBlocks::default())
}
