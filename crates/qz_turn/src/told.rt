// The value behind a lock, and the work of one turn.
ghost use Rattle.std.specs.Prelude.{◌≡◌, length};
ghost use Rattle.qz_turn.specs.declared.view.Tale.{Tale};
ghost use Rattle.qz_turn.specs.Tales.{Follows, CanGo, KeepsFit};

/// A value that tells a list.
pub trait Told {
    /// What the list has.
    type Item;
    /// What a lock says of its value for good: it is given when the lock is made, and never changes.
    type Key;

    ghost tells: { Self → Tale Self.Item };

    // What holds of the value, under the lock's key, whenever nobody has the turn.
    ghost fits: { Self.Key → Self → Type 0 };

    /// How many items the list has.
    fn len(&self) -> u64
        ensures { result ≡ length (tells self.now).list };
}

/// The work of one turn.
pub trait Errand<T: Told> {
    // What has to hold of the errand before it goes, under the lock's key and after what its pass has seen.
    ghost can: { T.Key → Tale T.Item → Self → Type 0 };

    // What it did: of the errand and the value before, and of the value and the errand after.
    ghost does: { Self → T → T → Self → Type 0 };

    /// Goes once, while it has the turn. What its pass has seen begins what the value tells. The list that the value tells only
    /// grows, and the count of faults never falls.
    fn go(&mut self, value: &mut T)
        requires { CanGo T.tells T.fits can self.old value.old }
        ensures done { does self.old value.old value.new self.new }
        ensures grows { Follows (T.tells value.old) (T.tells value.new) }
        ensures fits { KeepsFit T.tells T.fits can self.old value.old value.new };
}
