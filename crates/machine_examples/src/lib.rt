//! Programs with books that are runs of them, proved by computation: what the rules of the machine that
//! collects say of small cases, each of which refuses a wrong rule.
#![tactic(auto)]

mod examples;

pub use examples::{
    a_brought_row_stays, a_got_object_is_minted, a_held_object_stays, a_reap_gives_back_by_owners,
    an_object_is_passed_on_and_goes, an_unblock_cancels_its_own, an_unblock_outlives_its_actor,
    gets_are_minted_in_order, mints_are_for_the_lowest_first, one_worker_writes_these_books,
    the_first_leaves_at_once, two_hold_each_other_and_go,
};
