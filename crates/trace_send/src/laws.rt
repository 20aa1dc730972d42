// What holds of loads that have each thing once.

ghost use Rattle.trace_send.specs.Can.{LoadsAreOnce, OnceIsReceived, OnceIsSent};

/// A load that has each thing once can be received, and sent, where each of its things can be, by
/// the counts as they are before the first of them.
pub fn once_is_enough()
    ensures received { OnceIsReceived }
    ensures sent { OnceIsSent }
{}

/// The load of a letter has each thing once.
pub fn loads_are_once()
    ensures { LoadsAreOnce }
{}
