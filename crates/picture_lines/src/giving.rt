// Lines are given to a sink.

ghost use Rattle.std.specs.Prelude.{◌≡◌, [], OnErr, OnOk, string_bytes};
ghost use Rattle.std.specs.Io.KnownBytes.{Appends};
ghost use Rattle.outside_world.specs.Device.{CountsFaults};
ghost use Rattle.outside_world.specs.Pieces.{GivesPart};

use outside_world::{Failed, Sink, write_all};

/// Writes all lines that wait in the text, and empties it.
///
/// # Errors
/// `Failed` where the sink failed; a front of the lines was written then, and the text is as it was.
pub fn give<K: Sink>(out: &mut String, sink: &mut K) -> Result<(), Failed>
    ensures all { OnOk result (Appends (K.written sink.old) (K.written sink.new) (string_bytes out.old)) }
    ensures empty { OnOk result (string_bytes out.new ≡ []) }
    ensures part { OnErr result (GivesPart (K.written sink.old) (K.written sink.new) (string_bytes out.old)) }
    ensures kept { OnErr result (string_bytes out.new ≡ string_bytes out.old) }
    ensures cause { CountsFaults (K.faults sink.old) (K.faults sink.new) result }
{
    write_all(sink, out.as_bytes())?;
    out.clear();
    Ok(())
}
