// Rows that are put into words, and read again.

ghost use Rattle.std.specs.Prelude.{◌≡◌, IfOk, replicate};

use orca_names::{ActorName, NoMemory, ObjName, Row, Serial, Value};
use row_store::{put, read};
use std::alloc::Global;
use std::test::Fail;

/// The words of two blocks.
fn two_blocks(alloc: Global) -> Result<Vec<u64>, NoMemory>
    ensures { IfOk result (λ words. words.items ≡ replicate 34 0) }
{
    let words = vec![in alloc; 0; 34]?;
    Ok(words)
}

/// These rows, from two blocks into which they were put, the second over the first.
fn there_and_back(alloc: Global, one: &Row, other: &Row) -> Result<(Row, Row), NoMemory>
    ensures { IfOk result (λ rows. (rows.0 ≡ one.now) × (rows.1 ≡ other.now)) }
{
    let mut words = two_blocks(alloc)?;
    put(&mut words, 0, one);
    put(&mut words, 1, one);
    put(&mut words, 1, other);
    let first = read(&mut words, 0);
    let second = read(&mut words, 1);
    Ok((first, second))
}

#[test]
fn rows_come_back(rt: HostRuntime) -> Result<(), Fail> {
    let owner = ActorName(u32::MAX);
    let one = Row::of(&[
        Value::Null,
        Value::Num(u64::MAX),
        Value::Actor(owner),
        Value::Obj(ObjName {
            owner,
            serial: Serial::of(u64::MAX),
        }),
        Value::Num(0),
        Value::Actor(ActorName(0)),
        Value::Null,
        Value::Num(3),
    ]);
    let other = Row::of(&[Value::Obj(ObjName {
        owner: ActorName(1),
        serial: Serial::of(7),
    })]);
    let (first, second) = there_and_back(rt.alloc(), &one, &other)?;
    assert_eq!(rt; first, one);
    assert_eq!(rt; second, other);
    Ok(())
}
