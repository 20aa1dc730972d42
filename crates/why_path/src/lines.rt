// The line of a thing among reasons.

ghost use Rattle.std.specs.Prelude.{◌≡◌, ◌↔◌, true, map, Contains};
ghost use Rattle.std.specs.Option.{option_copied};
ghost use Rattle.std.specs.Result.{MatchResult};
ghost use Rattle.orca_names.specs.Names.{thing_cmp};
ghost use Rattle.plain_list.specs.Rising.{IsAt, IsGap};
ghost use Rattle.why_path.specs.Checks.{line_of};
ghost use Rattle.why_path.specs.Lines.{Rise, key_of};
ghost use Rattle.why_path.specs.Reasons.{things_in};

use orca_names::{Reason, Thing};

/// The place of the thing among lines that rise, or the place where it would stand.
pub(crate) fn place_of(reasons: &[Reason], thing: &Thing) -> Result<usize, usize>
    requires { Rise reasons.now }
    ensures { MatchResult result (IsAt thing_cmp (map key_of reasons.now) thing.now)
        (IsGap thing_cmp (map key_of reasons.now) thing.now) }
{
    reasons.binary_search_by_key(thing, |line| line.thing)
}

/// The line of the thing; `None` exactly where it has none.
pub(crate) fn line_of<'a>(reasons: &'a [Reason], thing: &Thing) -> Option<&'a Reason>
    requires { Rise reasons.now }
    ensures { option_copied result ≡ line_of reasons.now thing.now }
{
    match place_of(reasons, thing) {
        Ok(i) => Some(&reasons[i]),
        Err(_) => None,
    }
}

/// Whether the thing has a line.
pub(crate) fn has_line(reasons: &[Reason], thing: &Thing) -> bool
    requires { Rise reasons.now }
    ensures { result ≡ true ↔ Contains (things_in reasons.now) thing.now }
{
    line_of(reasons, thing).is_some()
}
