// The text of the load program.

ghost use Rattle.std.specs.Prelude.{◌≡◌, ◌≤◌, IfOk, length, string_bytes};
ghost use Rattle.load_maker.specs.Loads.{load_text};
ghost use Rattle.load_maker.specs.declared.load.TheConstants.{NODES_LIMIT};
ghost use Rattle.orca_names.specs.declared.limits.TheConstants.{TEXT_LIMIT};

use orca_names::NoMemory;
use std::alloc::{AllocError, Global};

/// The most nodes of a load program.
pub const NODES_LIMIT: u32 = 60_000;

/// The load program with `n` nodes.
fn text_of(alloc: Global, n: u32) -> Result<String, AllocError>
    ensures { IfOk result (λ text. string_bytes text ≡ load_text n) }
{
    format!(in alloc;
        "kind Main 0
on start 0
int r0 {n}
row r1 r0
new r2 Node
send r2 grow r0 r2 r1
end
kind Node 2
on grow 3
store f1 r2
int r3 1
same r4 r0 r3
jzero r4 more
store f0 r1
get r5 r2 0
print r5
jump done
label more
sub r0 r0 r3
new r6 Node
store f0 r6
send r6 grow r0 r1 r2
label done
end
"
    )
}

/// The text of the load program with `n` nodes, from 1 to `NODES_LIMIT`: they stand in a ring,
/// each holds the one object, the last prints `n`, and nothing is pinned.
///
/// # Errors
/// `NoMemory` where memory was refused.
#[tactic(auto, using(crate::proofs::Texts::is_short_text))]
pub fn program_of(alloc: Global, n: u32) -> Result<Vec<u8>, NoMemory>
    requires { (1 ≤ n) × (n ≤ NODES_LIMIT) }
    ensures text { IfOk result (λ text. text.items ≡ load_text n) }
    ensures fits { IfOk result (λ text. length text.items ≤ TEXT_LIMIT) }
{
    Ok(text_of(alloc, n)?.into_bytes())
}
