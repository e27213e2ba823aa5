//! How a link ends.

ghost use Rattle.std.specs.Prelude.{◌≡◌, ◌<◌, ◌^◌, List, length};
ghost use Rattle.qz_http.specs.declared.items.Item.{Item};
ghost use Rattle.qz_http.specs.Links.{cut_end, end_after};
ghost use Rattle.qz_http.specs.Talk.{EndsSo, Talk};

use crate::fronts::{Front, front_of};
use crate::heads::ROOM;
use crate::items::LinkEnd;
use httparse::spans::HeaderSpan;

/// So many requests are answered on a link.
pub const MOST_REQUESTS: u32 = 1000;

/// The end of a link whose bytes ended with these, in which no request is whole.
pub fn cut_end(bytes: &[u8]) -> LinkEnd
    requires { length bytes.now < 2 ^ 32 }
    ensures { result ≡ cut_end bytes.now }
{
    match bytes {
        [] => LinkEnd::End,
        _ => LinkEnd::Cut {
            left: bytes.len() as u32,
        },
    }
}

/// The end that a request decides, behind which so many may come.
pub fn end_after(more: u32, closes: bool) -> Option<LinkEnd>
    ensures { result ≡ end_after more closes }
{
    if more == 0 {
        return Some(LinkEnd::Full);
    }
    if closes { Some(LinkEnd::Closed) } else { None }
}

/// The end of a link on which so many requests may still come, and whose last bytes these are.
fn end_from(bytes: &[u8], room: &mut [HeaderSpan], more: u32) -> LinkEnd
    requires room { length room.old ≡ ROOM }
    requires some { 0 < more }
    ensures { EndsSo bytes.now more result }
{
    match front_of(bytes, room) {
        Front::Part => cut_end(bytes),
        Front::Bad(status) => LinkEnd::Bad { status },
        Front::Request { head, len, .. } => {
            let (_, behind) = bytes.split_at(len);
            match end_after(more - 1, head.closes) {
                Some(end) => end,
                None => end_from(behind, room, more - 1),
            }
        }
    }
}

/// How a link ends that is fed these bytes, in any pieces, and no others, where no call of it fails: some list of items and this end is
/// what they say. `room` is used anew for each head, so that no memory is taken.
pub fn end_of(bytes: &[u8], room: &mut [HeaderSpan]) -> LinkEnd
    requires { length room.old ≡ ROOM }
    ensures { (items : List Item) × Talk bytes.now items result }
{
    end_from(bytes, room, MOST_REQUESTS)
}
