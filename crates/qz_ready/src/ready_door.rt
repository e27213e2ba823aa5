//! Where links come from, and where they go back, where nobody waits for the next.

ghost use Rattle.std.specs.Prelude.{◌≡◌, ℕ, ◌+◌, ◌<◌, List, Option};
ghost use Rattle.qz_links.specs.Doors.{NextLink, GivesBack};
ghost use Rattle.qz_outside.specs.Causes.{HasCause};
ghost use Rattle.qz_ready.specs.Arrivals.{HasDelay, arrived};

use crate::{Arrival, ReadyLink};
use qz_outside::Failed;

/// A door at which links come, one after the other, and to which each is given back. Its calls neither wait nor take
/// memory. It counts its faults, and how often no link had come yet: two counts that never fall.
pub trait ReadyDoor {
    /// The links that come.
    type Link: ReadyLink;

    /// The links that are left, where the door tells them.
    ghost left: { Self → Option (List Self.Link) };

    /// The links that were given back, in their order, where the door tells them.
    ghost returned: { Self → Option (List Self.Link) };

    /// How many links were given back.
    ghost returns: { Self → ℕ };

    /// How many more were taken than given back.
    ghost out: { Self → ℕ };

    /// How often it has failed.
    ghost faults: { Self → ℕ };

    /// How often no link had come yet.
    ghost waits: { Self → ℕ };

    /// Its key.
    ghost key: { Self → ℕ };

    /// The word by which the outside tells that a link may have come: the same for as long as the door lives.
    fn key(&self) -> u64
        ensures { result ≡ key self.now };

    /// Takes the next link, if it has come. After `NotYet`, `Over` and `Failed` no link is lost.
    fn try_next(&mut self) -> Result<Arrival<Self::Link>, Failed>
        ensures takes { NextLink (left self.old) (left self.new) (out self.old) (out self.new)
            (arrived result) }
        ensures cause { HasCause (faults self.old) (faults self.new) result }
        ensures delay { HasDelay (waits self.old) (waits self.new) result }
        ensures apart { returned self.new ≡ returned self.old }
        ensures returns_stay { returns self.new ≡ returns self.old }
        ensures same_key { key self.new ≡ key self.old };

    /// Gives a link back.
    fn back(&mut self, link: Self::Link)
        requires { 0 < out self.old }
        ensures adds { GivesBack (returned self.old) (returned self.new) link }
        ensures returns { returns self.new ≡ returns self.old + 1 }
        ensures out { out self.old ≡ out self.new + 1 }
        ensures apart { left self.new ≡ left self.old }
        ensures steady { faults self.new ≡ faults self.old }
        ensures waits_stay { waits self.new ≡ waits self.old }
        ensures same_key { key self.new ≡ key self.old };
}
