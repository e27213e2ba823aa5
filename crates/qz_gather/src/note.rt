//! A note of one request.

ghost use Rattle.std.specs.Prelude.{◌≡◌, ◌<◌, IfOk, OnOk, length, vec_len, vec_capacity};
ghost use Rattle.qz_gather.specs.Notes.{IsNoted, Notes, is_there};

use qz_terms::{Ask, Caller, Reply, copy_of_text};
use qz_text::{Listed, NoMemory, TryCopy};
use qz_visit::Last;
use std::alloc::Global;

/// What was asked of a school, and what it came to.
#[derive(Drop)]
pub struct Note {
    pub ask: Ask,
    /// When it was asked, by the clock, in seconds since 1970.
    pub moment: u64,
    /// The reply. `None` where it accepts and there was no memory for its copy.
    pub reply: Option<Reply>,
    /// How many records were seen of the catalogue's list, without the request's own.
    pub catalog: u64,
    /// The same of each shard's list, in order.
    pub parts: Listed<u64>,
    /// The shard that the request went to, and `None` for the catalogue.
    pub list: Option<u8>,
    /// Whether the request's own record stands next in that list.
    pub put: bool,
    /// Whether the request was refused with `KeepFault`, and its own record is in doubt there.
    pub doubt: bool,
}

/// Room for a note: a copy of what is asked, and a number for each shard.
#[derive(Drop)]
pub(crate) struct Room {
    pub ask: Ask,
    pub parts: Listed<u64>,
}

fn copy_of_caller(caller: &Caller, alloc: Global) -> Result<Caller, NoMemory>
    ensures { IfOk result (λ copy. copy ≡ caller.now) }
{
    match caller {
        Caller::Token(token) => Ok(Caller::Token(token.try_copy(alloc)?)),
        Caller::Worker => Ok(Caller::Worker),
    }
}

fn copy_of_ask(ask: &Ask, alloc: Global) -> Result<Ask, NoMemory>
    ensures { IfOk result (λ copy. copy ≡ ask.now) }
{
    Ok(Ask {
        caller: copy_of_caller(&ask.caller, alloc)?,
        key: copy_of_text(&ask.key, alloc)?,
        request: ask.request.try_copy(alloc)?,
    })
}

/// What is noted of a reply. A refusal takes no memory.
fn noted(reply: &Reply, alloc: Global) -> Option<Reply>
    ensures { IsNoted reply.now result }
{
    match reply {
        Reply::Refused(refusal) => Some(Reply::Refused(*refusal)),
        Reply::Ok { .. } => match reply.try_copy(alloc) {
            Ok(copy) => Some(copy),
            Err(NoMemory) => None,
        },
    }
}

/// Whether what is kept of a request names a list that is there.
fn is_there(last: &Last) -> bool
    ensures { result ≡ is_there last.now }
{
    match last.list {
        Some(shard) => usize::from(shard) < last.parts.items.len(),
        None => true,
    }
}

/// Makes room for one more note: of this request, with so many numbers. Where memory is wanting the notes stay as they are.
pub(crate) fn make_room(
    alloc: Global,
    notes: &mut Vec<Note>,
    ask: &Ask,
    count: usize,
) -> Result<Room, NoMemory>
    ensures same { notes.new.items ≡ notes.old.items }
    ensures room { OnOk result (vec_len notes.new < vec_capacity notes.new) }
    ensures ask { IfOk result (λ room. room.ask ≡ ask.now) }
    ensures parts { IfOk result (λ room. length room.parts ≡ count) }
{
    let ask = copy_of_ask(ask, alloc)?;
    let parts = Listed {
        items: vec![in alloc; 0; count]?,
    };
    notes.reserve(1)?;
    Ok(Room { ask, parts })
}

impl Note {
    /// The note of a request at this moment: the reply to it, and what is kept of it.
    pub(crate) fn of(alloc: Global, room: Room, moment: u64, reply: &Reply, last: &Last) -> Note
        requires { length room.parts ≡ length last.now.parts }
        ensures { Notes last.now moment room.ask reply.now result }
    {
        let Room { ask, mut parts } = room;
        parts.items.copy_from_slice(&last.parts.items);
        // That the list named is there, and that one of the words at most is true, isn't said of what is kept.
        let is_there = is_there(last);
        Note {
            ask,
            moment,
            reply: noted(reply, alloc),
            catalog: last.catalog,
            parts,
            list: last.list,
            put: is_there && last.put,
            doubt: is_there && !last.put && last.doubt,
        }
    }
}
