// The right to take part in a lock's turns.
ghost use Rattle.std.specs.Prelude.{◌≡◌, [], length};
ghost use Rattle.qz_turn.specs.declared.view.Stage.TheVariants.{Resting};
ghost use Rattle.qz_turn.specs.Passes.{standing_at};

use crate::board::Place;
use crate::told::Told;
use crate::view::View;
use atomic_table::Badge;
use std::marker::Model;

/// The right to take part in the turns of one lock, and what its holder has seen there. Of this it keeps no more
/// than how many items the list had. To a contract it is the lock that it belongs to, its numbers, what the value told
/// as the pass's last turn began (`found`) and ended (`seen`), and the turns that it took (`turns`), with those of the passes that
/// were joined in. Each turn stands at one pass of those that have a number.
#[derive(Drop)]
pub struct Pass<T: Told> {
    pub(crate) badge: Badge<View<T::Item, T::Key>>,
    pub(crate) len: u64,
}

impl<T: Told> Model for Pass<T> {
    ghost use Rattle.qz_turn.specs.Passes.{Standing, standing, IsMeasured};

    ghost Value = { Standing T.Item T.Key };

    ghost view = { λ p. standing p.badge };

    ghost invariant = { λ p. IsMeasured p.badge p.len };
}

impl<T: Told> Pass<T> {
    /// How many items its holder has seen the list have.
    pub fn len(&self) -> u64
        ensures { result ≡ length self.now.seen.list }
    {
        self.len
    }

    pub(crate) fn of(seat: Place<T>, len: u64) -> Pass<T>
        requires rests { (seat.me.0.stage ≡ Resting) × (seat.me.1 ≡ []) }
        requires len { len ≡ length seat.me.0.seen.list }
        ensures { result ≡ standing_at seat.table_id seat.me.0 }
    {
        Pass {
            badge: seat.into_badge(),
            len,
        }
    }

    pub(crate) fn into_seat(self) -> Place<T>
        ensures rests { (result.me.0.stage ≡ Resting) × (result.me.1 ≡ []) }
        ensures standing { self ≡ standing_at result.table_id result.me.0 }
    {
        let Pass { badge, len: _ } = self;
        badge.into_seat()
    }
}
