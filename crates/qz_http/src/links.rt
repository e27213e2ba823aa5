//! One link: the bytes that are fed to it in any pieces, the requests that they ask, and the bytes that answer them.

ghost use Rattle.std.specs.Prelude.{◌≡◌, ◌<◌, ◌≤◌, ◌^◌, false, true, length, drop, IfOk, OnErr, OnOk};
ghost use Rattle.qz_http.specs.Items.{AsksAskable};
ghost use Rattle.qz_http.specs.Links.{Link, fed, new_link, waiting, route_by, Steps, StepAsksAskable, Gives, written};
ghost use Rattle.qz_http.specs.Routes.{way_of};

use crate::ends::{MOST_REQUESTS, cut_end, end_after};
use crate::fronts::{Front, front_of};
use crate::heads::ROOM;
use crate::items::{Item, LinkEnd, item_of};
use crate::responses::{Route, bare_response, reply_response};
use crate::routes::{Path, path_in};
use httparse::spans::{EMPTY_HEADER_SPAN, HeaderSpan};
use qz_terms::Reply;
use qz_text::{Bytes, NoMemory};
use std::alloc::Global;
use std::marker::Model;

/// The bytes of one link, and what they ask.
#[derive(Drop)]
pub struct LinkCore {
    /// Those that have come, of which the first so many are taken.
    bytes: Vec<u8>,
    taken: usize,
    room: Vec<HeaderSpan>,
    /// How many requests may still come.
    more: u32,
    finished: bool,
    /// The end that the last request decided.
    over: Option<LinkEnd>,
    /// The route of the last request.
    route: Route,
}

impl Model for LinkCore {
    ghost Value = { Link };

    ghost view = { λ c. record { left = drop c.taken c.bytes.items; more = c.more; finished = c.finished; over = c.over; route = c.route } };

    ghost invariant = { λ c. (length c.room.items ≡ 2731) × (c.taken ≤ length c.bytes.items) };
}

/// One step of a link.
#[derive(Drop)]
pub enum Step {
    /// Nothing is taken of the bytes.
    Stays(Item),
    /// A request is taken, which has so many bytes.
    Takes {
        item: Item,
        len: usize,
        route: Route,
        closes: bool,
    },
}

/// What is given while a request isn't whole.
fn waiting(finished: bool, bytes: &[u8]) -> Item
    requires { length bytes.now < 2 ^ 32 }
    ensures value { result ≡ waiting finished bytes.now }
    ensures asked { AsksAskable result }
{
    if finished {
        Item::Over(cut_end(bytes))
    } else {
        Item::Need
    }
}

fn route_of(target: &[u8]) -> Route
    ensures { result ≡ route_by (way_of target.now) }
{
    match path_in(target) {
        Path::Nowhere | Path::Ask => Route::Ask,
        Path::Entry { .. } => Route::Entry,
        Path::Page(_) => Route::Page,
        Path::TextReport(_) => Route::TextReport,
        Path::CsvReport(_) => Route::CsvReport,
    }
}

fn next_step(
    alloc: Global,
    bytes: &[u8],
    room: &mut [HeaderSpan],
    finished: bool,
) -> Result<Step, NoMemory>
    requires { length room.old ≡ ROOM }
    ensures steps { IfOk result (Steps finished bytes.now) }
    ensures asked { IfOk result StepAsksAskable }
{
    match front_of(bytes, room) {
        Front::Part => Ok(Step::Stays(waiting(finished, bytes))),
        Front::Bad(status) => Ok(Step::Stays(Item::Over(LinkEnd::Bad { status }))),
        Front::Request { head, body, len } => Ok(Step::Takes {
            item: item_of(alloc, head, body)?,
            len,
            route: route_of(head.target),
            closes: head.closes,
        }),
    }
}

impl LinkCore {
    /// A link that no bytes were fed to. Only want of memory is an error.
    pub fn new(alloc: Global) -> Result<LinkCore, NoMemory>
        ensures { IfOk result (λ link. link ≡ new_link) }
    {
        Ok(LinkCore {
            bytes: Vec::new(alloc),
            taken: 0,
            room: vec![in alloc; EMPTY_HEADER_SPAN; ROOM]?,
            more: MOST_REQUESTS,
            finished: false,
            over: None,
            route: Route::Ask,
        })
    }

    /// Takes a piece of the bytes whole, or nothing of it where memory is wanting. The bytes haven't ended.
    pub fn feed(&mut self, piece: &[u8]) -> Result<(), NoMemory>
        requires { self.old.finished ≡ false }
        ensures fed { OnOk result (self.new ≡ fed self.old piece.now) }
        ensures kept { OnErr result (self.new ≡ self.old) }
    {
        self.drop_taken();
        Ok(self.bytes.extend_from_slice(piece)?)
    }

    /// Drops the bytes that are taken, where they are at least half of all: so each byte that is moved stands for one that was taken.
    fn drop_taken(&mut self)
        ensures { self.new ≡ self.old }
    {
        if self.taken >= self.bytes.len() - self.taken {
            self.bytes.drain(..self.taken);
            self.taken = 0;
        }
    }

    /// The bytes have ended. This takes no memory.
    pub fn finish(&mut self)
        ensures { self.new ≡ record self.old { finished = true } }
    {
        self.finished = true;
    }

    /// What the bytes fed give next. An ask is by a token, its request is one that is read, it has a key where it has to, and no
    /// token, key or name is longer than it may be. After want of memory the link is as it was, and the same may be asked again.
    pub fn next(&mut self, alloc: Global) -> Result<Item, NoMemory>
        ensures given { IfOk result (λ item. Gives self.old item self.new) }
        ensures asked { IfOk result AsksAskable }
        ensures kept { OnErr result (self.new ≡ self.old) }
    {
        if let Some(end) = self.over {
            return Ok(Item::Over(end));
        }
        let (_, left) = self.bytes.split_at(self.taken);
        match next_step(alloc, left, &mut self.room, self.finished)? {
            Step::Stays(item) => Ok(item),
            Step::Takes {
                item,
                len,
                route,
                closes,
            } => {
                self.more = self.more.saturating_sub(1);
                self.over = end_after(self.more, closes);
                self.taken += len;
                self.route = route;
                Ok(item)
            }
        }
    }

    /// The bytes that answer the item given last, with this reply where it is an ask or a refusal. Where nothing is answered they
    /// are none.
    pub fn respond(&self, alloc: Global, item: &Item, reply: &Reply) -> Result<Bytes, NoMemory>
        ensures { IfOk result (λ bytes. bytes ≡ written self.now item.now reply.now) }
    {
        let closes = self.over.is_some();
        match item {
            Item::Ask(_) | Item::Refused(_) => reply_response(alloc, self.route, closes, reply),
            Item::Bare(status) => bare_response(alloc, *status, closes),
            Item::Over(LinkEnd::Bad { status }) => bare_response(alloc, *status, true),
            Item::Over(_) | Item::Need => Ok(Bytes {
                items: Vec::new(alloc),
            }),
        }
    }
}
