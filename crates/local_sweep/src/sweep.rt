// A sweep by its plan.

ghost use Rattle.std.specs.Prelude.{◌≡◌, ℕ, Bool};
ghost use Rattle.orca_names.specs.declared.names.Thing.{Thing as thing};
ghost use Rattle.letter_kinds.specs.Counting.{sweep};
ghost use Rattle.object_heap.specs.Free.{freed};
ghost use Rattle.foreign_table.specs.Back.{given_up};
ghost use Rattle.known_rows.specs.Holdings.{holdings_of};
ghost use Rattle.local_sweep.specs.Plan.{IsPlan, plan_of};

use foreign_table::ForeignTable;
use letter_kinds::SweepPlan;
use object_heap::ObjectHeap;

/// Frees and gives back what a plan says. It takes no memory.
pub fn apply(plan: &SweepPlan, heap: &mut ObjectHeap, foreign: &mut ForeignTable)
    requires { IsPlan heap.old foreign.old plan.now }
    ensures heap { heap.new ≡ freed plan.now.free heap.old }
    ensures foreign { foreign.new ≡ given_up plan.now.back foreign.old }
    ensures swept { (marked : thing → Bool) (count : ℕ)
        → plan.now ≡ plan_of marked heap.old foreign.old
        → holdings_of count heap.new foreign.new
        ≡ sweep marked heap.old.owner (holdings_of count heap.old foreign.old) }
{
    heap.free(plan.free.as_slice());
    foreign.give_back(plan.back.as_slice());
}
