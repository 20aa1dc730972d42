// Writing a whole text.

ghost use Rattle.std.specs.Prelude.{OnErr, OnOk};
ghost use Rattle.std.specs.Io.KnownBytes.{Appends};
ghost use Rattle.outside_world.specs.Device.{CountsFaults};
ghost use Rattle.outside_world.specs.Pieces.{GivesPart};

use crate::device::{Failed, Sink};

/// Writes all the bytes. Each write offers all that is left.
///
/// # Errors
/// `Failed` where the sink failed; a front of the bytes was written then.
#[tactic(auto, using(crate::proofs::Pieces::gives_after))]
pub fn write_all<K: Sink>(sink: &mut K, bytes: &[u8]) -> Result<(), Failed>
    ensures all { OnOk result (Appends (K.written sink.old) (K.written sink.new) bytes.now) }
    ensures part { OnErr result (GivesPart (K.written sink.old) (K.written sink.new) bytes.now) }
    ensures cause { CountsFaults (K.faults sink.old) (K.faults sink.new) result }
{
    let mut at = 0;
    while at < bytes.len() {
        at += sink.write(&bytes[at..])?;
    }
    Ok(())
}
