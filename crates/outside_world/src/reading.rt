// Reading all that a source has left, up to a limit.

ghost use Rattle.std.specs.Prelude.{◌≡◌, ◌<◌, ◌≤◌, ◌+◌, ◌==◌, false, nat_lt, IfOk, OnErr, OnOk, IsErrOf, vec_len};
ghost use Rattle.std.specs.Io.KnownBytes.{IsAtEnd};
ghost use Rattle.outside_world.specs.Device.{Rose};
ghost use Rattle.outside_world.specs.Pieces.{TakesAll, TakesMore, TakesPart};
ghost use Rattle.outside_world.specs.declared.reading.ReadErr.TheVariants as err;

use crate::device::{Failed, Source};
use std::alloc::{AllocError, Global};
use thiserror::Error;

/// The most bytes that one read asks for.
const PIECE: usize = 4096;

/// Why a source was not read to its end.
#[derive(Clone, Copy, Debug, PartialEq, Eq, Error)]
pub enum ReadErr {
    #[error("the source failed")]
    Failed,
    #[error("out of memory")]
    NoMemory,
}

impl From<Failed> for ReadErr {
    ghost from_gives = { λ _ e. e ≡ err.Failed };

    fn from(_: Failed) -> ReadErr {
        ReadErr::Failed
    }
}

impl From<AllocError> for ReadErr {
    ghost from_gives = { λ _ e. e ≡ err.NoMemory };

    fn from(_: AllocError) -> ReadErr {
        ReadErr::NoMemory
    }
}

/// One turn: asks for 4,096 bytes, or for what is missing to the most, and answers how many came; 0
/// is the end.
fn read_more<S: Source>(source: &mut S, most: usize, bytes: &mut Vec<u8>) -> Result<usize, ReadErr>
    requires room { vec_len bytes.old < most }
    requires goes_on { S.ended source.old ≡ false }
    ensures more { IfOk result
        (λ count. TakesMore (S.left source.old)
        (S.left source.new) bytes.old.items bytes.new.items count) }
    ensures fits { IfOk result (λ count. vec_len bytes.old + count ≤ most) }
    ensures end { IfOk result (λ count. count ≡ 0 → IsAtEnd (S.left source.new)) }
    ensures ended { IfOk result (λ count. S.ended source.new ≡ (count == 0)) }
    ensures part { OnErr result (TakesPart (S.left source.old) (S.left source.new)) }
    ensures stays { S.faults source.old ≤ S.faults source.new }
    ensures well { OnOk result (S.faults source.new ≡ S.faults source.old) }
    ensures failed { IsErrOf result ReadErr.Failed
        → Rose (S.faults source.old) (S.faults source.new) }
{
    let mut piece = [0u8; PIECE];
    let room = (most - bytes.len()).min(PIECE);
    let count = source.read(&mut piece[..room])?;
    bytes.extend_from_slice(&piece[..count])?;
    Ok(count)
}

/// Reads until the source answers that nothing is left, or has given the most bytes.
///
/// # Errors
/// `Failed` where the source failed, `NoMemory` where memory was refused; what was read until then is
/// lost.
#[tactic(auto, using(crate::proofs::Pieces::takes_after))]
pub fn read_to_end<S: Source>(
    alloc: Global,
    source: &mut S,
    most: usize,
) -> Result<Vec<u8>, ReadErr>
    requires { S.ended source.old ≡ false }
    ensures all { IfOk result
        (λ bytes. TakesAll most (S.left source.old) (S.left source.new) bytes.items) }
    ensures ended { IfOk result (λ bytes. S.ended source.new ≡ nat_lt (vec_len bytes) most) }
    ensures part { OnErr result (TakesPart (S.left source.old) (S.left source.new)) }
    ensures stays { S.faults source.old ≤ S.faults source.new }
    ensures well { OnOk result (S.faults source.new ≡ S.faults source.old) }
    ensures failed { IsErrOf result ReadErr.Failed
        → Rose (S.faults source.old) (S.faults source.new) }
{
    let mut bytes = Vec::new(alloc);
    while bytes.len() < most {
        if read_more(source, most, &mut bytes)? == 0 {
            break;
        }
    }
    Ok(bytes)
}
