//! Writing all of some bytes to a link.

ghost use Rattle.std.specs.Prelude.{◌≡◌, OnOk, OnErr};
ghost use Rattle.std.specs.Io.KnownBytes.{Appends};
ghost use Rattle.qz_outside.specs.Causes.{HasCause};
ghost use Rattle.qz_outside.specs.Sources.{AppendsFront};

use crate::Link;
use qz_outside::Failed;

/// Writes all of the bytes. After `Failed`, which comes only where the link's count of faults rose, a front of them
/// was written. A write that takes none of a piece is a failure too. Nothing is read.
pub fn send_all<L: Link>(link: &mut L, bytes: &[u8]) -> Result<(), Failed>
    ensures written { OnOk result (Appends (L.holds link.old) (L.holds link.new) bytes.now) }
    ensures front { OnErr result (AppendsFront (L.holds link.old) (L.holds link.new) bytes.now) }
    ensures cause { HasCause (L.faults link.old) (L.faults link.new) result }
    ensures apart { L.left link.new ≡ L.left link.old }
{
    let mut rest = bytes;
    while !rest.is_empty() {
        let count = link.write(rest)?;
        if count == 0 {
            return Err(Failed);
        }
        rest = &rest[count..];
    }
    Ok(())
}
