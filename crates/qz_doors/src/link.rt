//! Serving one link.

ghost use Rattle.std.specs.Prelude.{◌≡◌, ◌<◌, ℕ, false, true, length, MatchOption, MatchResult};
ghost use Rattle.qz_terms.specs.declared.ask.Ask.{Ask};
ghost use Rattle.qz_terms.specs.Kept.{is_moment};
ghost use Rattle.qz_http.specs.declared.items.Item.TheVariants as items;
ghost use Rattle.qz_http.specs.Items.{AsksAskable, IsAskable};
ghost use Rattle.qz_http.specs.Links.{new_link};
ghost use Rattle.qz_asking.specs.Asking.{Asks};
ghost use Rattle.qz_doors.specs.Answers.{RepliesTo};
ghost use Rattle.qz_doors.specs.Links.{LinkEnds, has_response};
ghost use Rattle.qz_doors.specs.Steps.{AnswersItem, AnswerStops, GoesOn, IsDone, ItemStops, ReadStops, ReadsOn, StepEnds, StepStops, StepsOn, halt_end};

use crate::halt::Halt;
use qz_grading::Refusal;
use qz_http::{Item, LinkCore, LinkEnd};
use qz_links::{Clock, Link, send_all};
use qz_terms::{Desk, GREATEST_MOMENT, Reply};
use std::alloc::Global;

/// One read gives at most so many bytes: as many as a head has.
const PIECE: usize = 8192;

/// Serves a link to its end: answers each of its requests over a desk, at the moment that the clock tells then, and writes the whole response
/// before anything more is read.
///
/// A moment past 4,102,444,799 counts as that one. `End` and `Cut` come where a read gave the link's end; `Closed`, `Bad` and `Full` as soon
/// as the bytes read decide them, and what stands behind is left unread or unanswered. After `ReadFault` every whole request that was read is
/// answered. After `WriteFault` and `Memory` the first of them are, and a front of the next response may be written; what was read of
/// the others is lost.
pub fn serve_link<D: Desk, L: Link, C: Clock>(
    alloc: Global,
    desk: &mut D,
    link: &mut L,
    clock: &mut C,
) -> LinkEnd
    requires takes { (moment : ℕ) (ask : Ask) → is_moment moment ≡ true → IsAskable ask → D.takes moment ask }
    ensures ends { LinkEnds (Asks C.tells D.answers)
        (record { left = L.left link.old; holds = L.holds link.old; faults = L.faults link.old })
        (record { left = L.left link.new; holds = L.holds link.new; faults = L.faults link.new })
        (record { desk = desk.old; clock = clock.old })
        (record { desk = desk.new; clock = clock.new })
        result }
{
    match serve_or_halt(alloc, desk, link, clock) {
        Ok(end) => end,
        Err(halt) => halt.end(),
    }
}

fn serve_or_halt<D: Desk, L: Link, C: Clock>(
    alloc: Global,
    desk: &mut D,
    link: &mut L,
    clock: &mut C,
) -> Result<LinkEnd, Halt>
    requires takes { (moment : ℕ) (ask : Ask) → is_moment moment ≡ true → IsAskable ask → D.takes moment ask }
    ensures { let ends = LinkEnds (Asks C.tells D.answers)
        (record { left = L.left link.old; holds = L.holds link.old; faults = L.faults link.old })
        (record { left = L.left link.new; holds = L.holds link.new; faults = L.faults link.new })
        (record { desk = desk.old; clock = clock.old })
        (record { desk = desk.new; clock = clock.new })
        in MatchResult result ends (λ halt. ends (halt_end halt)) }
{
    let Ok(mut room) = vec![in alloc; 0u8; PIECE] else {
        return Err(Halt::Memory);
    };
    let Ok(mut core) = LinkCore::new(alloc) else {
        return Err(Halt::Memory);
    };
    serve_through(alloc, desk, link, clock, &mut core, &mut room)
}

/// Serves a link of which nothing was fed yet, and which is read through a room.
fn serve_through<D: Desk, L: Link, C: Clock>(
    alloc: Global,
    desk: &mut D,
    link: &mut L,
    clock: &mut C,
    core: &mut LinkCore,
    room: &mut [u8],
) -> Result<LinkEnd, Halt>
    requires takes { (moment : ℕ) (ask : Ask) → is_moment moment ≡ true → IsAskable ask → D.takes moment ask }
    requires fresh { core.old ≡ new_link }
    requires room { 0 < length room.old }
    ensures { let ends = LinkEnds (Asks C.tells D.answers)
        (record { left = L.left link.old; holds = L.holds link.old; faults = L.faults link.old })
        (record { left = L.left link.new; holds = L.holds link.new; faults = L.faults link.new })
        (record { desk = desk.old; clock = clock.old })
        (record { desk = desk.new; clock = clock.new })
        in MatchResult result ends (λ halt. ends (halt_end halt)) }
{
    loop {
        match step(alloc, desk, link, clock, core, room) {
            Ok(None) => {}
            Ok(Some(end)) => return Ok(end),
            Err(halt) => return Err(halt),
        }
    }
}

/// Takes the next item of a link, and does what it asks for. The end, if the link is over.
#[tactic(auto, using(crate::proofs::ServeLemmas::acts_step, crate::proofs::ServeLemmas::need_unfinished))]
fn step<D: Desk, L: Link, C: Clock>(
    alloc: Global,
    desk: &mut D,
    link: &mut L,
    clock: &mut C,
    core: &mut LinkCore,
    room: &mut [u8],
) -> Result<Option<LinkEnd>, Halt>
    requires takes { (moment : ℕ) (ask : Ask) → is_moment moment ≡ true → IsAskable ask → D.takes moment ask }
    requires room { 0 < length room.old }
    ensures { MatchResult result
        (λ ended. MatchOption ended (StepsOn (Asks C.tells D.answers)
        (record { left = L.left link.old; holds = L.holds link.old; faults = L.faults link.old })
        (record { left = L.left link.new; holds = L.holds link.new; faults = L.faults link.new })
        (record { desk = desk.old; clock = clock.old })
        (record { desk = desk.new; clock = clock.new })
        core.old core.new)
        (StepEnds (Asks C.tells D.answers)
        (record { left = L.left link.old; holds = L.holds link.old; faults = L.faults link.old })
        (record { left = L.left link.new; holds = L.holds link.new; faults = L.faults link.new })
        (record { desk = desk.old; clock = clock.old })
        (record { desk = desk.new; clock = clock.new })
        core.old))
        (StepStops (Asks C.tells D.answers)
        (record { left = L.left link.old; holds = L.holds link.old; faults = L.faults link.old })
        (record { left = L.left link.new; holds = L.holds link.new; faults = L.faults link.new })
        (record { desk = desk.old; clock = clock.old })
        (record { desk = desk.new; clock = clock.new })
        core.old) }
{
    let Ok(item) = core.next(alloc) else {
        return Err(Halt::Memory);
    };
    act(alloc, desk, link, clock, core, room, &item)
}

/// Whether an item has a response: a request does, and a head that is refused.
pub fn has_response(item: &Item) -> bool
    ensures { result ≡ has_response item.now }
{
    match item {
        Item::Ask(_) | Item::Refused(_) | Item::Bare(_) | Item::Over(LinkEnd::Bad { .. }) => true,
        Item::Over(_) | Item::Need => false,
    }
}

/// Answers an item that has a response, and reads on where more bytes are needed. The end, if the link is over.
#[tactic(auto, using(crate::proofs::ServeLemmas::answer_stops, crate::proofs::ServeLemmas::read_stops, crate::proofs::ServeLemmas::no_response))]
fn act<D: Desk, L: Link, C: Clock>(
    alloc: Global,
    desk: &mut D,
    link: &mut L,
    clock: &mut C,
    core: &mut LinkCore,
    room: &mut [u8],
    item: &Item,
) -> Result<Option<LinkEnd>, Halt>
    requires takes { (moment : ℕ) (ask : Ask) → is_moment moment ≡ true → IsAskable ask → D.takes moment ask }
    requires asked { AsksAskable item.now }
    requires unfinished { item.now ≡ items.Need → core.old.finished ≡ false }
    requires room { 0 < length room.old }
    ensures { MatchResult result
        (λ ended. MatchOption ended (GoesOn (Asks C.tells D.answers)
        (record { left = L.left link.old; holds = L.holds link.old; faults = L.faults link.old })
        (record { left = L.left link.new; holds = L.holds link.new; faults = L.faults link.new })
        (record { desk = desk.old; clock = clock.old })
        (record { desk = desk.new; clock = clock.new })
        core.old core.new item.now)
        (IsDone (Asks C.tells D.answers)
        (record { left = L.left link.old; holds = L.holds link.old; faults = L.faults link.old })
        (record { left = L.left link.new; holds = L.holds link.new; faults = L.faults link.new })
        (record { desk = desk.old; clock = clock.old })
        (record { desk = desk.new; clock = clock.new })
        core.old item.now))
        (ItemStops (Asks C.tells D.answers)
        (record { left = L.left link.old; holds = L.holds link.old; faults = L.faults link.old })
        (record { left = L.left link.new; holds = L.holds link.new; faults = L.faults link.new })
        (record { desk = desk.old; clock = clock.old })
        (record { desk = desk.new; clock = clock.new })
        core.old item.now) }
{
    if has_response(item) {
        if let Err(halt) = answer(alloc, desk, link, clock, core, item) {
            return Err(halt);
        }
    }
    match item {
        Item::Need => match read_on(link, core, room) {
            Ok(()) => Ok(None),
            Err(halt) => Err(halt),
        },
        Item::Ask(_) | Item::Refused(_) | Item::Bare(_) => Ok(None),
        Item::Over(end) => Ok(Some(*end)),
    }
}

/// Reads a piece of the link, and feeds it. Where none is left, the bytes have ended.
fn read_on<L: Link>(link: &mut L, core: &mut LinkCore, room: &mut [u8]) -> Result<(), Halt>
    requires unfinished { core.old.finished ≡ false }
    requires room { 0 < length room.old }
    ensures { MatchResult result
        (λ _. ReadsOn
        (record { left = L.left link.old; holds = L.holds link.old; faults = L.faults link.old })
        (record { left = L.left link.new; holds = L.holds link.new; faults = L.faults link.new })
        core.old core.new)
        (ReadStops
        (record { left = L.left link.old; holds = L.holds link.old; faults = L.faults link.old })
        (record { left = L.left link.new; holds = L.holds link.new; faults = L.faults link.new })) }
{
    let Ok(count) = link.read(room) else {
        return Err(Halt::ReadFault);
    };
    if count == 0 {
        core.finish();
    } else {
        core.feed(&room[..count])?;
    }
    Ok(())
}

/// Answers an item, and writes the whole response.
#[tactic(auto, using(crate::proofs::ServeLemmas::leaves_none))]
fn answer<D: Desk, L: Link, C: Clock>(
    alloc: Global,
    desk: &mut D,
    link: &mut L,
    clock: &mut C,
    core: &LinkCore,
    item: &Item,
) -> Result<(), Halt>
    requires takes { (moment : ℕ) (ask : Ask) → is_moment moment ≡ true → IsAskable ask → D.takes moment ask }
    requires asked { AsksAskable item.now }
    ensures { MatchResult result
        (λ _. AnswersItem (Asks C.tells D.answers)
        (record { left = L.left link.old; holds = L.holds link.old; faults = L.faults link.old })
        (record { left = L.left link.new; holds = L.holds link.new; faults = L.faults link.new })
        (record { desk = desk.old; clock = clock.old })
        (record { desk = desk.new; clock = clock.new })
        core.now item.now)
        (AnswerStops (Asks C.tells D.answers)
        (record { left = L.left link.old; holds = L.holds link.old; faults = L.faults link.old })
        (record { left = L.left link.new; holds = L.holds link.new; faults = L.faults link.new })
        (record { desk = desk.old; clock = clock.old })
        (record { desk = desk.new; clock = clock.new })
        core.now item.now) }
{
    let reply = reply_to(alloc, desk, clock, item);
    let Ok(response) = core.respond(alloc, item, &reply) else {
        return Err(Halt::Memory);
    };
    if send_all(link, response.as_slice()).is_err() {
        return Err(Halt::WriteFault);
    }
    Ok(())
}

/// The reply to an item: an ask is answered over the desk, at the moment that the clock tells, or at 4,102,444,799 where it tells
/// a later one. Where an item has no reply, what is answered here means nothing.
pub fn reply_to<D: Desk, C: Clock>(alloc: Global, desk: &mut D, clock: &mut C, item: &Item) -> Reply
    requires takes { (moment : ℕ) (ask : Ask) → is_moment moment ≡ true → IsAskable ask → D.takes moment ask }
    requires asked { AsksAskable item.now }
    ensures { RepliesTo (Asks C.tells D.answers) item.now
        (record { desk = desk.old; clock = clock.old })
        (record { desk = desk.new; clock = clock.new })
        result }
{
    match item {
        Item::Ask(ask) => desk.ask(alloc, ask, clock.now().min(GREATEST_MOMENT)),
        Item::Refused(refusal) => Reply::Refused(*refusal),
        Item::Bare(_) | Item::Over(_) | Item::Need => Reply::Refused(Refusal::UnknownToken),
    }
}
