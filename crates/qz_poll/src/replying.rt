//! Making responses.

ghost use Rattle.std.specs.Prelude.{◌≡◌, ℕ, true, MatchResult};
ghost use Rattle.qz_terms.specs.declared.ask.Ask.{Ask};
ghost use Rattle.qz_terms.specs.Kept.{is_moment};
ghost use Rattle.qz_http.specs.Items.{AsksAskable, IsAskable};
ghost use Rattle.qz_asking.specs.Asking.{Asks};
ghost use Rattle.qz_poll.specs.Steps.{IsReplied, Responds};

use crate::outbox::Outbox;
use qz_doors::reply_to;
use qz_http::{Item, LinkCore};
use qz_links::Clock;
use qz_terms::Desk;
use qz_text::NoMemory;
use std::alloc::Global;

/// Answers an item, whose response is to be written next.
pub fn respond<D: Desk, C: Clock>(
    alloc: Global,
    desk: &mut D,
    clock: &mut C,
    core: &LinkCore,
    item: &Item,
    outbox: &mut Outbox,
) -> Result<(), NoMemory>
    requires takes { (moment : ℕ) (ask : Ask) → is_moment moment ≡ true → IsAskable ask → D.takes moment ask }
    requires asked { AsksAskable item.now }
    ensures { MatchResult result
        (λ _. Responds (Asks C.tells D.answers)
        (record { desk = desk.old; clock = clock.old })
        (record { desk = desk.new; clock = clock.new })
        core.now item.now outbox.new)
        (λ _. IsReplied (Asks C.tells D.answers)
        (record { desk = desk.old; clock = clock.old })
        (record { desk = desk.new; clock = clock.new })
        item.now) }
{
    let reply = reply_to(alloc, desk, clock, item);
    let Ok(response) = core.respond(alloc, item, &reply) else {
        return Err(NoMemory);
    };
    outbox.refill(response.as_slice())
}
