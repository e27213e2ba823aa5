//! Reading on.

ghost use Rattle.std.specs.Prelude.{◌≡◌, ◌<◌, false, length};
ghost use Rattle.qz_poll.specs.Outsides.{outside_of};
ghost use Rattle.qz_poll.specs.Steps.{HowRead};

use crate::step::Step;
use qz_http::{LinkCore, LinkEnd};
use qz_outside::Failed;
use qz_ready::{Look, ReadyLink};
use qz_text::NoMemory;

/// Reads a piece of a link, and feeds it. Where none is left, the bytes have ended. No request
/// is answered.
pub fn read_on<L: ReadyLink>(link: &mut L, core: &mut LinkCore, room: &mut [u8]) -> Step
    requires unfinished { core.old.finished ≡ false }
    requires room { 0 < length room.old }
    ensures { HowRead (outside_of L.ReadyLink link.old) (outside_of L.ReadyLink link.new)
        core.old core.new result }
{
    match link.try_read(room) {
        Err(Failed) => Step::Over(LinkEnd::ReadFault),
        Ok(Look::NotYet) => Step::NotYet,
        Ok(Look::Moved(0)) => {
            core.finish();
            Step::On
        }
        Ok(Look::Moved(count)) => match core.feed(&room[..count]) {
            Ok(()) => Step::On,
            Err(NoMemory) => Step::Over(LinkEnd::Memory),
        },
    }
}
