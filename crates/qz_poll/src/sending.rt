//! Writing on.

ghost use Rattle.qz_poll.specs.Outsides.{outside_of};
ghost use Rattle.qz_poll.specs.Steps.{HowSent, SendsOn};

use crate::outbox::Outbox;
use qz_outside::Failed;
use qz_ready::{Look, ReadyLink};

/// What came of writing.
#[derive(Clone, Copy, Debug, PartialEq, Eq)]
pub enum Sending {
    /// Nothing is unsent.
    Done,
    /// The link has no room yet.
    NotYet,
}

/// Writes to a link until nothing is unsent, or the link has no room yet. After `Failed` a front of the bytes was
/// written.
pub fn send_on<L: ReadyLink>(link: &mut L, outbox: &mut Outbox) -> Result<Sending, Failed>
    ensures sends { SendsOn (outside_of L.ReadyLink link.old) (outside_of L.ReadyLink link.new)
        outbox.old outbox.new }
    ensures sent { HowSent (outside_of L.ReadyLink link.old) (outside_of L.ReadyLink link.new)
        outbox.new result }
{
    while !outbox.is_empty() {
        match link.try_write(outbox.unsent()) {
            Ok(Look::Moved(0)) | Err(Failed) => return Err(Failed),
            Ok(Look::Moved(count)) => outbox.advance(count),
            Ok(Look::NotYet) => return Ok(Sending::NotYet),
        }
    }
    Ok(Sending::Done)
}
