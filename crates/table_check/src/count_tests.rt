// Both counts, once through all of their calls.

use ref_weights::{Held, OwnCount};

/// What an owner counts that raises by 256 and lowers by 1, and what a holder of 1 gives back that gains
/// 2, mints 256 and spends 1.
fn counted() -> (u64, u64) {
    let mut count = OwnCount::new();
    count.raise(256);
    count.lower(1);
    let mut held = Held::new(1);
    held.gain(2);
    held.mint(256);
    held.spend();
    (count.get(), held.give_back())
}

#[test]
fn an_owner_counts_and_a_holder_spends_and_mints(rt: HostRuntime) {
    assert!(rt; counted() == (255, 258));
}
