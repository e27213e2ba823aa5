//! The request at the front of a link's bytes.

ghost use Rattle.std.specs.Prelude.{◌≡◌, length};
ghost use Rattle.qz_http.specs.Fronts.{IsFront};

use crate::heads::{Head, Judgement, ROOM, judge};
use httparse::spans::HeaderSpan;

/// What stands at the front of the bytes of a link.
#[derive(Clone, Copy)]
pub enum Front<'b> {
    /// A whole request, which has so many bytes.
    Request {
        head: Head<'b>,
        body: &'b [u8],
        len: usize,
    },
    /// No whole head yet, or not all of its body.
    Part,
    /// A head that is refused with this status.
    Bad(u16),
}

/// The request at the front of the bytes. `room` is used anew by each call.
pub fn front_of<'b>(bytes: &'b [u8], room: &mut [HeaderSpan]) -> Front<'b>
    requires { length room.old ≡ ROOM }
    ensures { IsFront bytes.now result }
{
    let head = match judge(bytes, room) {
        Judgement::More => return Front::Part,
        Judgement::Bad(status) => return Front::Bad(status),
        Judgement::Whole(head) => head,
    };
    let (_, behind) = bytes.split_at(head.len);
    if behind.len() < head.body {
        return Front::Part;
    }
    let (body, _) = behind.split_at(head.body);
    Front::Request {
        head,
        body,
        len: head.len + head.body,
    }
}
