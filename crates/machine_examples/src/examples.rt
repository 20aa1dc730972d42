// Programs and books that are runs of them.

ghost use Rattle.machine_examples.specs.Examples.{AnObjectIsPassedOnAndGoes, TwoHoldEachOtherAndGo};
ghost use Rattle.machine_examples.specs.FurtherExamples.{AnUnblockOutlivesItsActor, GetsAreMintedInOrder};
ghost use Rattle.machine_examples.specs.InOrder.{GetsByRoots, HoldsByRoots, HoldsDeep, LeavesAtOnce, PassesOn};
ghost use Rattle.machine_examples.specs.RootsExamples.{ABroughtRowStays, AGotObjectIsMinted, AHeldObjectStays};
ghost use Rattle.machine_examples.specs.SmallExamples.{AReapGivesBackByOwners, AnUnblockCancelsItsOwn, MintsAreForTheLowestFirst, TheFirstLeavesAtOnce};

/// Two actors hold each other, and the detector finds them. One is pinged before it is asked, so the
/// first token is cancelled; the second token takes both. At the end nothing is left.
pub fn two_hold_each_other_and_go()
    ensures { TwoHoldEachOtherAndGo }
{}

/// An object goes from an actor to a second and on to a third, which drops it. At the end it is
/// freed, and its maker alone is left, which is pinned.
pub fn an_object_is_passed_on_and_goes()
    ensures { AnObjectIsPassedOnAndGoes }
{}

/// The first actor begins clean: where no letter comes to it, it leaves at once.
pub fn the_first_leaves_at_once()
    ensures { TheFirstLeavesAtOnce }
{}

/// A new actor begins clean, and reports its count, which is the weight. A scan that finds no closed set
/// opens no token. An Unblock cancels the tokens of its actor, and no other.
pub fn an_unblock_cancels_its_own()
    ensures { AnUnblockCancelsItsOwn }
{}

/// An actor that lacks things of two owners mints for the lower one first, by the weight. The taker of
/// the increment is dirty then, though it was clean, and collects.
pub fn mints_are_for_the_lowest_first()
    ensures { MintsAreForTheLowestFirst }
{}

/// A reap gives back what a member held on two things of one owner by one decrement.
pub fn a_reap_gives_back_by_owners()
    ensures { AReapGivesBackByOwners }
{}

/// With root-only tracing an object is held by an actor that its row names, and so both stay with the
/// object's owner, though nothing leads to them; with deep tracing both go.
pub fn a_held_object_stays()
    ensures { AHeldObjectStays }
{}

/// With root-only tracing, where a turn gets an object that its actor does not hold, the actor mints for
/// that first, and nothing of the turn is kept.
pub fn a_got_object_is_minted()
    ensures { AGotObjectIsMinted }
{}

/// With root-only tracing the row of another's object that a letter brought stays as long as it is in use, also
/// where the actor does not hold the object. Where a turn gets it, the actor mints for the object and its
/// owner, of whichever it holds none.
pub fn a_brought_row_stays()
    ensures { ABroughtRowStays }
{}

/// With root-only tracing, where a turn gets two objects that its actor needs, the actor mints for the first
/// before it mints for the second.
pub fn gets_are_minted_in_order()
    ensures { GetsAreMintedInOrder }
{}

/// An Unblock outlives its actor: the report of one that left is kept until its Unblock is heard.
pub fn an_unblock_outlives_its_actor()
    ensures { AnUnblockOutlivesItsActor }
{}

/// One worker writes these books: each event is the first that is enabled, up to where none is. The
/// other books here are of runs that several workers may have.
pub fn one_worker_writes_these_books()
    ensures leaving { LeavesAtOnce }
    ensures passing { PassesOn }
    ensures holding { HoldsDeep }
    ensures holding_by_roots { HoldsByRoots }
    ensures getting_by_roots { GetsByRoots }
{}
