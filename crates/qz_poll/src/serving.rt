//! A link and what serves it.

ghost use Rattle.std.specs.Prelude.{◌≡◌, ℕ, ◌<◌, [], None, true, vec_len};
ghost use Rattle.qz_terms.specs.declared.ask.Ask.{Ask};
ghost use Rattle.qz_terms.specs.Kept.{is_moment};
ghost use Rattle.qz_http.specs.Items.{AsksAskable, IsAskable};
ghost use Rattle.qz_asking.specs.Asking.{Answerer, Asks};
ghost use Rattle.qz_doors.specs.Links.{Peer, has_response};
ghost use Rattle.qz_poll.specs.Stages.{IsUnderWay, stage_of};
ghost use Rattle.qz_poll.specs.Steps.{Advances, HowAnswered, Leaves};
ghost use Rattle.qz_poll.specs.Tasks.{CanGoOn};

use crate::outbox::Outbox;
use crate::reading::read_on;
use crate::replying::respond;
use crate::sending::{Sending, send_on};
use crate::step::{Advance, MOST_AT_ONCE, Step};
use qz_doors::has_response;
use qz_http::{Item, LinkCore, LinkEnd};
use qz_links::Clock;
use qz_outside::Failed;
use qz_ready::ReadyLink;
use qz_terms::Desk;
use std::alloc::Global;

/// A link while it is served, and what serves it.
#[derive(Drop)]
pub struct Serving<D, L, C> {
    pub desk: D,
    pub link: L,
    pub clock: C,
    /// What was read of the link.
    pub core: LinkCore,
    /// The link is read through this.
    pub room: Vec<u8>,
    /// The latest response.
    pub outbox: Outbox,
    /// The end that the latest item decided, whose response is still to be written.
    pub over: Option<LinkEnd>,
}

impl<D: Desk, L: ReadyLink, C: Clock> Serving<D, L, C> {
    /// Serves the link until it isn't ready to go on, or it is over, or so many requests were answered as are answered
    /// at once.
    pub fn advance(&mut self, alloc: Global) -> Advance
        requires takes { (moment : ℕ) (ask : Ask) → is_moment moment ≡ true → IsAskable ask → D.takes moment ask }
        requires going { CanGoOn (Asks C.tells D.answers) L.ReadyLink self.old }
        ensures advances { (first : Peer) (a : Answerer D C)
            → IsUnderWay (Asks C.tells D.answers) first a (stage_of L.ReadyLink self.old)
            → Advances (Asks C.tells D.answers) first a (stage_of L.ReadyLink self.old)
            (stage_of L.ReadyLink self.new) result }
        ensures room { vec_len self.new.room ≡ vec_len self.old.room }
    {
        let mut answered = 0;
        while answered < MOST_AT_ONCE {
            match self.step(alloc) {
                Step::Answered => answered += 1,
                Step::On => {}
                Step::NotYet => return Advance::NotYet,
                Step::Over(end) => return Advance::Over(end),
            }
        }
        Advance::Enough
    }

    /// Writes on, and then takes the next item of the link, if all is written.
    fn step(&mut self, alloc: Global) -> Step
        requires takes { (moment : ℕ) (ask : Ask) → is_moment moment ≡ true → IsAskable ask → D.takes moment ask }
        requires room { 0 < vec_len self.old.room }
        ensures leaves { (first : Peer) (a : Answerer D C)
            → IsUnderWay (Asks C.tells D.answers) first a (stage_of L.ReadyLink self.old)
            → Leaves (Asks C.tells D.answers) first a (stage_of L.ReadyLink self.old)
            (stage_of L.ReadyLink self.new) result }
        ensures room { vec_len self.new.room ≡ vec_len self.old.room }
    {
        match send_on(&mut self.link, &mut self.outbox) {
            Ok(Sending::Done) => match self.over {
                Some(end) => Step::Over(end),
                None => self.take_item(alloc),
            },
            Ok(Sending::NotYet) => Step::NotYet,
            Err(Failed) => Step::Over(LinkEnd::WriteFault),
        }
    }

    /// Takes the next item, and does what it asks for. Nothing is unsent, and no end is decided.
    fn take_item(&mut self, alloc: Global) -> Step
        requires takes { (moment : ℕ) (ask : Ask) → is_moment moment ≡ true → IsAskable ask → D.takes moment ask }
        requires room { 0 < vec_len self.old.room }
        requires sent { self.old.outbox ≡ [] }
        requires undecided { self.old.over ≡ None }
        ensures leaves { (first : Peer) (a : Answerer D C)
            → IsUnderWay (Asks C.tells D.answers) first a (stage_of L.ReadyLink self.old)
            → Leaves (Asks C.tells D.answers) first a (stage_of L.ReadyLink self.old)
            (stage_of L.ReadyLink self.new) result }
        ensures room { vec_len self.new.room ≡ vec_len self.old.room }
    {
        let Ok(item) = self.core.next(alloc) else {
            return Step::Over(LinkEnd::Memory);
        };
        if has_response(&item) {
            return self.answer(alloc, &item);
        }
        match item {
            Item::Over(end) => Step::Over(end),
            Item::Need => read_on(&mut self.link, &mut self.core, &mut self.room),
            Item::Ask(_) | Item::Refused(_) | Item::Bare(_) => unreachable!(),
        }
    }

    /// Answers an item, whose response is to be written next.
    fn answer(&mut self, alloc: Global, item: &Item) -> Step
        requires takes { (moment : ℕ) (ask : Ask) → is_moment moment ≡ true → IsAskable ask → D.takes moment ask }
        requires asked { AsksAskable item.now }
        requires responds { has_response item.now ≡ true }
        ensures answers { HowAnswered (Asks C.tells D.answers) (stage_of L.ReadyLink self.old)
            (stage_of L.ReadyLink self.new) item.now result }
        ensures room { vec_len self.new.room ≡ vec_len self.old.room }
    {
        let Ok(()) = respond(
            alloc,
            &mut self.desk,
            &mut self.clock,
            &self.core,
            item,
            &mut self.outbox,
        ) else {
            return Step::Over(LinkEnd::Memory);
        };
        match item {
            Item::Over(end) => {
                self.over = Some(*end);
                Step::On
            }
            Item::Ask(_) | Item::Refused(_) | Item::Bare(_) => Step::Answered,
            Item::Need => unreachable!(),
        }
    }
}
