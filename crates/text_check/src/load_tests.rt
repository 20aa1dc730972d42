// The load program as literal bytes.

use crate::table::{holds, same_bytes};
use load_maker::{NODES_LIMIT, program_of};
use std::test::Fail;

const THREE: &str = "kind Main 0
on start 0
int r0 3
row r1 r0
new r2 Node
send r2 grow r0 r2 r1
end
kind Node 2
on grow 3
store f1 r2
int r3 1
same r4 r0 r3
jzero r4 more
store f0 r1
get r5 r2 0
print r5
jump done
label more
sub r0 r0 r3
new r6 Node
store f0 r6
send r6 grow r0 r1 r2
label done
end
";

#[test]
fn three_nodes(rt: HostRuntime) -> Result<(), Fail> {
    let text = program_of(rt.alloc(), 3)?;
    is_three(text.as_slice())
}

fn is_three(text: &[u8]) -> Result<(), Fail> {
    holds(text.len() == 279, "the length")?;
    same_bytes(text, THREE)
}

#[test]
fn the_most_nodes(rt: HostRuntime) -> Result<(), Fail> {
    let text = program_of(rt.alloc(), NODES_LIMIT)?;
    is_the_most(text.as_slice())
}

fn is_the_most(text: &[u8]) -> Result<(), Fail> {
    let head = "kind Main 0\non start 0\nint r0 60000\nrow r1 r0\n";
    holds(text.len() == 283, "the length")?;
    holds(text.starts_with(head.as_bytes()), head)
}
