//! Serving the links of a door.

ghost use Rattle.std.specs.Prelude.{◌≡◌, ◌+◌, ◌-◌, ◌^◌, ◌<◌, ◌≤◌, ℕ, true, [], IfSome, MatchOption, MatchResult};
ghost use Rattle.qz_outside.specs.Causes.{HasRisen};
ghost use Rattle.qz_terms.specs.declared.ask.Ask.{Ask};
ghost use Rattle.qz_terms.specs.Kept.{is_moment};
ghost use Rattle.qz_http.specs.Items.{IsAskable};
ghost use Rattle.qz_asking.specs.Asking.{Asks};
ghost use Rattle.qz_doors.specs.Doors.{ServesDoor, ServesNext, TakesNoLink, is_short, shorter};

use crate::link::serve_link;
use qz_http::LinkEnd;
use qz_links::{Clock, Door};
use qz_outside::Failed;
use qz_terms::Desk;
use std::alloc::Global;

/// How serving a door ended.
#[derive(Clone, Copy, Debug, PartialEq, Eq)]
pub struct DoorEnd {
    /// So many links were taken, and given back.
    pub taken: u64,
    /// Whether the door failed: its count of faults rose.
    pub fault: bool,
    /// So many links ended for want of memory.
    pub short: u64,
}

/// Serves the links of a door one after the other, and gives each back when it has ended, until `links` of them were taken, none comes or
/// the door fails.
pub fn serve_door<D: Desk, R: Door, C: Clock>(
    alloc: Global,
    desk: &mut D,
    door: &mut R,
    clock: &mut C,
    links: u64,
) -> DoorEnd
    requires takes { (moment : ℕ) (ask : Ask) → is_moment moment ≡ true → IsAskable ask → D.takes moment ask }
    ensures serves { ServesDoor (Asks C.tells D.answers)
        (λ link. record { left = R.Link.left link; holds = R.Link.holds link; faults = R.Link.faults link })
        links
        (record { left = R.left door.old; returned = R.returned door.old; returns = R.returns door.old; out = R.out door.old; faults = R.faults door.old })
        (record { left = R.left door.new; returned = R.returned door.new; returns = R.returns door.new; out = R.out door.new; faults = R.faults door.new })
        (record { desk = desk.old; clock = clock.old })
        (record { desk = desk.new; clock = clock.new })
        result }
{
    let mut end = DoorEnd {
        taken: 0,
        fault: false,
        short: 0,
    };
    while end.taken < links {
        match serve_next(alloc, desk, door, clock) {
            Ok(Some(why)) => end = with_one_more(end, why),
            Ok(None) => return end,
            Err(Failed) => return DoorEnd { fault: true, ..end },
        }
    }
    end
}

/// One more link was served, and ended so.
fn with_one_more(end: DoorEnd, why: LinkEnd) -> DoorEnd
    requires few { end.short ≤ end.taken }
    requires room { end.taken < 2 ^ 64 - 1 }
    ensures { result ≡ record end { taken = end.taken + 1; short = shorter (is_short why) end.short } }
{
    let short = if why == LinkEnd::Memory {
        end.short + 1
    } else {
        end.short
    };
    DoorEnd {
        taken: end.taken + 1,
        short,
        ..end
    }
}

/// Serves the next link, and gives it back. How it ended, if one came.
fn serve_next<D: Desk, R: Door, C: Clock>(
    alloc: Global,
    desk: &mut D,
    door: &mut R,
    clock: &mut C,
) -> Result<Option<LinkEnd>, Failed>
    requires takes { (moment : ℕ) (ask : Ask) → is_moment moment ≡ true → IsAskable ask → D.takes moment ask }
    ensures { MatchResult result
        (λ ended. MatchOption ended
        (TakesNoLink (record { left = R.left door.old; returned = R.returned door.old; returns = R.returns door.old; out = R.out door.old; faults = R.faults door.old })
        (record { left = R.left door.new; returned = R.returned door.new; returns = R.returns door.new; out = R.out door.new; faults = R.faults door.new }) × (desk.new ≡ desk.old) × (clock.new ≡ clock.old) × IfSome (R.left door.new) (λ left. left ≡ []))
        (ServesNext (Asks C.tells D.answers)
        (λ link. record { left = R.Link.left link; holds = R.Link.holds link; faults = R.Link.faults link })
        (record { left = R.left door.old; returned = R.returned door.old; returns = R.returns door.old; out = R.out door.old; faults = R.faults door.old })
        (record { left = R.left door.new; returned = R.returned door.new; returns = R.returns door.new; out = R.out door.new; faults = R.faults door.new })
        (record { desk = desk.old; clock = clock.old })
        (record { desk = desk.new; clock = clock.new })))
        (λ _. TakesNoLink (record { left = R.left door.old; returned = R.returned door.old; returns = R.returns door.old; out = R.out door.old; faults = R.faults door.old })
        (record { left = R.left door.new; returned = R.returned door.new; returns = R.returns door.new; out = R.out door.new; faults = R.faults door.new }) × (desk.new ≡ desk.old) × (clock.new ≡ clock.old) × HasRisen (R.faults door.old) (R.faults door.new)) }
{
    let Ok(next) = door.next() else {
        return Err(Failed);
    };
    let Some(mut link) = next else {
        return Ok(None);
    };
    let end = serve_link(alloc, desk, &mut link, clock);
    door.back(link);
    Ok(Some(end))
}
