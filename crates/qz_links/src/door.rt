//! Where links come from, and where they go back.

ghost use Rattle.std.specs.Prelude.{◌≡◌, ℕ, ◌+◌, ◌<◌, List, Option};
ghost use Rattle.qz_outside.specs.Causes.{HasCause};
ghost use Rattle.qz_links.specs.Doors.{NextLink, GivesBack};

use crate::Link;
use qz_outside::Failed;

/// A door at which links come, one after the other, and to which each is given back. Its calls take no memory, and
/// `next` may wait.
pub trait Door {
    /// The links that come.
    type Link: Link;

    /// The links that are left, where the door tells them.
    ghost left: { Self → Option (List Self.Link) };

    /// The links that were given back, in their order, where the door tells them.
    ghost returned: { Self → Option (List Self.Link) };

    /// How many links were given back.
    ghost returns: { Self → ℕ };

    /// How many more were taken than given back.
    ghost out: { Self → ℕ };

    /// How often it has failed: a count that never falls.
    ghost faults: { Self → ℕ };

    /// Takes the next link. `None` where no more come. After `Failed` no link is lost.
    fn next(&mut self) -> Result<Option<Self::Link>, Failed>
        ensures takes { NextLink (left self.old) (left self.new) (out self.old) (out self.new) result }
        ensures cause { HasCause (faults self.old) (faults self.new) result }
        ensures apart { returned self.new ≡ returned self.old }
        ensures returns_stay { returns self.new ≡ returns self.old };

    /// Gives a link back.
    fn back(&mut self, link: Self::Link)
        requires { 0 < out self.old }
        ensures adds { GivesBack (returned self.old) (returned self.new) link }
        ensures returns { returns self.new ≡ returns self.old + 1 }
        ensures out { out self.old ≡ out self.new + 1 }
        ensures apart { left self.new ≡ left self.old }
        ensures steady { faults self.new ≡ faults self.old };
}
