//! The picture of a run: lines of words that say what each entry of a book changed, so that a page can
//! show the run step by step.
//!
//! What the lines are stands in `specs/`: words and lines, the lines of each part of a state, what an
//! entry changes, and the whole. `picture_lines` writes them.
#![tactic(auto)]
