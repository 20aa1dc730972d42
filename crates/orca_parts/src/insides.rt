// The machine's insides.

use crate::parts::Parts;
use behaviour_check::Checked;
use orca_names::Options;

/// The machine's insides: its program, what its run may choose, and its parts.
#[derive(Drop)]
pub struct Core<'a> {
    pub code: &'a Checked,
    pub options: Options,
    pub parts: Parts,
    /// What was found last of a turn stands, where it awaits a letter.
    pub stands: bool,
}
