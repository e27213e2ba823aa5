//! Writing all of some bytes.

ghost use Rattle.std.specs.Prelude.{OnOk, OnErr};
ghost use Rattle.std.specs.Io.KnownBytes.{Appends};
ghost use Rattle.qz_outside.specs.Causes.{HasCause};
ghost use Rattle.qz_outside.specs.Sources.{AppendsFront};

use crate::{Failed, Sink};

/// Writes all of the bytes. After `Failed`, which comes only where the sink's count of faults rose, a front of them
/// was written. A write that takes none of a piece is a failure too.
pub fn write_all<O: Sink>(sink: &mut O, bytes: &[u8]) -> Result<(), Failed>
    ensures written { OnOk result (Appends (O.holds sink.old) (O.holds sink.new) bytes.now) }
    ensures front { OnErr result (AppendsFront (O.holds sink.old) (O.holds sink.new) bytes.now) }
    ensures cause { HasCause (O.faults sink.old) (O.faults sink.new) result }
{
    let mut rest = bytes;
    while !rest.is_empty() {
        let count = sink.write(rest)?;
        if count == 0 {
            return Err(Failed);
        }
        rest = &rest[count..];
    }
    Ok(())
}
