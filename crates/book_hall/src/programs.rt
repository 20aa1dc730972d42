// Programs compared.

ghost use Rattle.std.specs.Prelude.{◌≡◌, ◌<◌, ◌^◌, ◌↔◌, IsTrue, length};

use behaviour_check::Checked;
use behaviour_code::{Kind, Name, Names};

fn same_kinds(one: &[Kind], other: &[Kind]) -> bool
    ensures { IsTrue result ↔ (one.now ≡ other.now) }
{
    one == other
}

fn same_names(one: &Names, other: &Names) -> bool
    ensures { IsTrue result → one.now ≡ other.now }
{
    if one.len() != other.len() {
        return false;
    }
    let Ok(count) = u32::try_from(one.len()) else {
        return false;
    };
    for k in 0..count {
        if one.text_or_empty(Name(k)) != other.text_or_empty(Name(k)) {
            return false;
        }
    }
    true
}

/// Whether it is the same program.
pub(crate) fn is_same_program(one: &Checked, other: &Checked) -> bool
    ensures { IsTrue result → one.now ≡ other.now }
{
    let one = one.program();
    let other = other.program();
    same_kinds(one.kinds.as_slice(), other.kinds.as_slice()) && same_names(&one.names, &other.names)
}
