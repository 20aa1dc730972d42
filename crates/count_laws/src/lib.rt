//! What holds of the counts in each state of each run of the machine that collects, as far as it needs
//! nothing of the detector: the counts balance, each actor knows what it reaches, and the machine that
//! frees nothing makes the same choices beside it.
//!
//! The definitions stand in `specs/`, a file a topic; the proofs in folders by topic.
#![tactic(auto)]

mod laws;

pub use laws::{
    cells_can_be_away, clean_cells_stay_swept, counts_rise_by_the_weight, events_open_one_token,
    gone_stays_gone, known_rows_stay_where_marked_reach, letters_name_their_own,
    no_actor_gets_a_count_on_its_own, runs_make_few_actors, take_go_and_collect_keep_the_facts,
    the_start_has_the_facts,
};
