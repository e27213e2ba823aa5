// The table of a lock, and the steps that its seats make.
ghost use Rattle.std.specs.Prelude.{◌≡◌, ◌+◌, [], ◌∷◌, IfOk, IfErr, length};
ghost use Rattle.qz_turn.specs.declared.view.Stage.TheVariants.{Resting};
ghost use Rattle.qz_turn.specs.Tales.{Follows, put_in};
ghost use Rattle.qz_turn.specs.Rule.{dealer, HasEvery};
ghost use Rattle.qz_turn.specs.Steps.{IsReady, IsWaiting, Draws, Comes, CanSend, Went, MayEnd, Ends, IsKeyed, HasServed, Measures, Compares, dealing, dealt_to, noted, joining};

use crate::room::Room;
use crate::rule::{About, Compare, Deal, Draw, InTurn, Look, Merge, Note, Serve};
use crate::told::{Errand, Told};
use crate::view::View;
use atomic_table::{Refused, Seat, Table};
use crossbeam_utils::sync::EventCount;
use std::alloc::{AllocFailed, Global};
use std::hint::spin_loop;
use std::snapshot::Snapshot;
use std::sync::Wait;
use std::sync::atomic::AtomicU64;
use std::sync::atomic::Ordering::SeqCst;

// The words: the next ticket, and the one that is served. The one slot has the value.
const TICKET: usize = 0;

const SERVED: usize = 1;

// How often a thread that waits looks before it sleeps: for about a microsecond.
const LOOKS: u32 = 20;

// A seat at the table.
pub type Place<T> = Seat<T, View<<T as Told>::Item, <T as Told>::Key>>;

// The table in memory, under the rule of the lock.
#[derive(Drop)]
pub struct Board<T: Told> {
    table: Table<T, View<T::Item, T::Key>, About<T>, InTurn, Global>,
    // Where threads sleep that have a ticket, until the next one is served, and those that have none; and how many sleep
    // there or are about to.
    served: EventCount,
    room: Room,
    sleepers: AtomicU64,
    ghost sized: { (table.shared.table_id.words ≡ 2) × (table.shared.table_id.slots ≡ 1) },
}

// A row of one value, for the slot.
fn one_slot<T>(alloc: Global, value: T) -> Result<Vec<T>, T>
    ensures ok { IfOk result (λ row. row.items ≡ value ∷ []) }
    ensures err { IfErr result (λ back. back ≡ value) }
{
    let mut row = Vec::new(alloc);
    match row.push(value) {
        Ok(()) => Ok(row),
        Err(AllocFailed { value }) => {
            row.destroy_empty();
            Err(value)
        }
    }
}

impl<T: Told> Board<T> {
    /// A table with the value at home, and its first seat, which has all numbers.
    pub fn new(alloc: Global, value: T, key: &T::Key, seats: u32) -> Result<(Board<T>, Place<T>), T>
        requires { T.fits key.now value }
        ensures made { IfOk result (λ made. made.0.table.shared.key.key.value ≡ key.now × (made.0.table.shared.key.seats ≡ seats)) }
        ensures start { IfOk result (λ made. made.0.table.shared.key.start.value ≡ value) }
        ensures first { IfOk result (λ made. (made.1.table_id ≡ made.0.table.shared.table_id) × (made.1.me ≡ (dealer key.now (T.tells value) seats, []))) }
        ensures refused { IfErr result (λ back. back ≡ value) }
    {
        let about = About {
            key: Snapshot::of(key),
            start: Snapshot::of(&value),
            seats,
        };
        let row = one_slot(alloc, value)?;
        match Table::new(alloc, &[0, 0], row, &about) {
            Ok((table, seat)) => Ok((
                Board {
                    table,
                    served: EventCount::new(),
                    room: Room::new(),
                    sleepers: AtomicU64::new(0),
                },
                seat,
            )),
            Err(Refused { slots: mut row }) => {
                let Some(value) = row.pop() else {
                    unreachable!()
                };
                row.destroy_empty();
                Err(value)
            }
        }
    }

    // Takes the next ticket.
    fn draw(&self, seat: &mut Place<T>) -> u64
        requires own { seat.old.table_id ≡ self.now.table.shared.table_id }
        requires ready { IsReady seat.old.me }
        ensures own { seat.new.table_id ≡ seat.old.table_id }
        ensures drawn { Draws seat.old.me result seat.new.me }
    {
        self.table.shared.fetch_add::<Draw>(seat, TICKET, 1)
    }

    // Whether no ticket is out.
    fn is_free(&self) -> bool {
        let served = self.table.shared.peek(SERVED);
        self.table.shared.peek(TICKET) == served
    }

    // Looks a few times whether the lock is free, and waits in the room if it never is. Tells whether it was called.
    fn await_call<R: Wait>(&self, rt: &R) -> bool {
        for _ in 0..LOOKS {
            if self.is_free() {
                return false;
            }
            spin_loop();
        }
        self.sleepers.fetch_add(1, SeqCst);
        let number = self.room.come();
        // A turn that ended before that called nobody.
        if self.is_free() {
            self.room.call();
        }
        self.room.wait(rt, number);
        self.sleepers.fetch_sub(1, SeqCst);
        true
    }

    // Takes the next ticket once the lock is free, or this thread is called.
    #[cold]
    #[inline(never)]
    fn draw_late<R: Wait>(&self, rt: &R, seat: &mut Place<T>) -> u64
        requires own { seat.old.table_id ≡ self.now.table.shared.table_id }
        requires ready { IsReady seat.old.me }
        ensures own { seat.new.table_id ≡ seat.old.table_id }
        ensures drawn { Draws seat.old.me result seat.new.me }
    {
        let is_called = self.await_call(rt);
        let ticket = self.draw(seat);
        if is_called {
            self.room.tell_drawn();
        }
        ticket
    }

    // Returns when another ticket than this one is served, or for no reason.
    #[cold]
    #[inline(never)]
    fn rest<R: Wait>(&self, rt: &R, served: u64) {
        for _ in 0..LOOKS {
            if self.table.shared.peek(SERVED) != served {
                return;
            }
            spin_loop();
        }
        self.sleepers.fetch_add(1, SeqCst);
        let sleep = self.served.prepare_wait();
        if self.table.shared.peek(SERVED) == served {
            sleep.wait(rt);
        }
        self.sleepers.fetch_sub(1, SeqCst);
    }

    // Wakes those who have tickets, and calls one who has none.
    #[cold]
    #[inline(never)]
    fn rouse(&self) {
        self.served.notify_all();
        self.room.call();
    }

    fn wait<R: Wait>(&self, rt: &R, seat: &mut Place<T>, ticket: u64)
        requires own { seat.old.table_id ≡ self.now.table.shared.table_id }
        requires waits { IsWaiting seat.old.me ticket }
        ensures own { seat.new.table_id ≡ seat.old.table_id }
        ensures comes { Comes T.tells T.fits seat.old.me seat.new.me }
    {
        for _ in rt.forever() {
            let served = self.table.shared.load::<Look>(seat, SERVED);
            if served == ticket {
                return;
            }
            self.rest(rt, served);
        }
        unreachable!()
    }

    // Waits until the turn of the seat has come. Then the seat has the value.
    fn enter<R: Wait>(&self, rt: &R, seat: &mut Place<T>)
        requires own { seat.old.table_id ≡ self.now.table.shared.table_id }
        requires ready { IsReady seat.old.me }
        ensures own { seat.new.table_id ≡ seat.old.table_id }
        ensures comes { Comes T.tells T.fits seat.old.me seat.new.me }
    {
        let ticket = if self.is_free() {
            self.draw(seat)
        } else {
            self.draw_late(rt, seat)
        };
        self.wait(rt, seat, ticket);
    }

    // Sends the errand to the value that the seat has.
    fn send<E: Errand<T>>(&self, seat: &mut Place<T>, errand: &mut E)
        requires own { seat.old.table_id ≡ self.now.table.shared.table_id }
        requires can { CanSend T.tells T.fits E.can seat.old.me errand.old }
        ensures own { seat.new.table_id ≡ seat.old.table_id }
        ensures went { Went T.tells T.fits E.can E.does seat.old.me seat.new.me errand.old errand.new }
    {
        errand.go(seat.slot_mut(&self.table.shared, 0));
    }

    // How many items the list of the value has, which stays with the seat.
    fn measure(&self, seat: &mut Place<T>) -> u64
        requires own { seat.old.table_id ≡ self.now.table.shared.table_id }
        requires holds { (value : T) × (seat.old.me.1 ≡ (0, value) ∷ []) }
        ensures own { seat.new.table_id ≡ seat.old.table_id }
        ensures same { seat.new.me ≡ seat.old.me }
        ensures len { Measures T.tells seat.old.me result }
    {
        seat.slot_mut(&self.table.shared, 0).len()
    }

    // Gives the value back, and the turn on.
    fn leave(&self, seat: &mut Place<T>)
        requires own { seat.old.table_id ≡ self.now.table.shared.table_id }
        requires may { MayEnd T.tells T.fits seat.old.me }
        ensures own { seat.new.table_id ≡ seat.old.table_id }
        ensures ends { Ends T.tells seat.old.me seat.new.me }
    {
        self.table.shared.fetch_add::<Serve>(seat, SERVED, 1);
        // Who isn't counted here looks once more before it sleeps.
        if self.sleepers.load(SeqCst) > 0 {
            self.rouse();
        }
    }

    /// Waits until the turn of the seat has come, sends the errand, and gives the turn on. Tells how many items the
    /// list had as the turn ended.
    pub fn serve<E: Errand<T>, R: Wait>(&self, rt: &R, seat: &mut Place<T>, errand: &mut E) -> u64
        requires own { seat.old.table_id ≡ self.now.table.shared.table_id }
        requires ready { IsReady seat.old.me }
        requires can { IsKeyed (λ key. E.can key seat.old.me.0.seen errand.old) seat.old.me.0 }
        ensures own { seat.new.table_id ≡ seat.old.table_id }
        ensures turn { HasServed T.tells T.fits E.does seat.old.me seat.new.me errand.old errand.new }
        ensures len { result ≡ length seat.new.me.0.seen.list }
    {
        self.enter(rt, seat);
        self.send(seat, errand);
        let len = self.measure(seat);
        self.leave(seat);
        len
    }

    /// Cuts off a new seat, with the first number.
    pub fn deal(&self, seat: &mut Place<T>) -> Place<T>
        requires own { seat.old.table_id ≡ self.now.table.shared.table_id }
        requires rests { seat.old.me.0.stage ≡ Resting }
        ensures left { (seat.new.table_id ≡ seat.old.table_id) × (seat.new.me ≡ (dealing seat.old.me.0, seat.old.me.1)) }
        ensures given { (result.table_id ≡ seat.old.table_id) × (result.me ≡ (dealt_to seat.old.me.0, [])) }
    {
        self.table.shared.split_seat::<Deal>(seat)
    }

    /// Cuts off a new seat without a number, which has seen the same.
    pub fn note(&self, seat: &mut Place<T>) -> Place<T>
        requires own { seat.old.table_id ≡ self.now.table.shared.table_id }
        ensures left { (seat.new.table_id ≡ seat.old.table_id) × (seat.new.me ≡ seat.old.me) }
        ensures given { (result.table_id ≡ seat.old.table_id) × (result.me ≡ (noted seat.old.me.0, [])) }
    {
        self.table.shared.split_seat::<Note>(seat)
    }

    fn merge(&self, seat: &mut Place<T>, other: Place<T>)
        requires own { (seat.old.table_id ≡ self.now.table.shared.table_id) × (other.table_id ≡ self.now.table.shared.table_id) }
        requires rests { (other.me.0.stage ≡ Resting) × (other.me.1 ≡ []) }
        ensures own { seat.new.table_id ≡ seat.old.table_id }
        ensures joined { seat.new.me ≡ (joining seat.old.me.0 other.me.0, seat.old.me.1) }
    {
        self.table.shared.join_seat::<Merge>(seat, other);
    }

    fn compare(&self, seat: &mut Place<T>)
        requires own { seat.old.table_id ≡ self.now.table.shared.table_id }
        ensures own { seat.new.table_id ≡ seat.old.table_id }
        ensures compared { Compares seat.old.me seat.new.me }
    {
        self.table.shared.load::<Compare>(seat, TICKET);
    }

    /// Takes in another seat, with its numbers, and compares what the two have seen.
    pub fn join(&self, seat: &mut Place<T>, other: Place<T>)
        requires own { (seat.old.table_id ≡ self.now.table.shared.table_id) × (other.table_id ≡ self.now.table.shared.table_id) }
        requires rests { (other.me.0.stage ≡ Resting) × (other.me.1 ≡ []) }
        ensures own { seat.new.table_id ≡ seat.old.table_id }
        ensures joined { Compares (joining seat.old.me.0 other.me.0, seat.old.me.1) seat.new.me }
    {
        self.merge(seat, other);
        self.compare(seat);
    }

    /// The value, once the seat has every number. Then every turn stands at this seat, and its list has grown by what they put.
    pub fn close(self, seat: Place<T>) -> T
        requires own { seat.table_id ≡ self.table.shared.table_id }
        requires rests { seat.me.0.stage ≡ Resting }
        requires all { HasEvery self.table.shared.key.seats seat.me.0.numbers }
        ensures follows { Follows seat.me.0.seen (T.tells result) }
        ensures fits { T.fits self.table.shared.key.key.value result }
        ensures grown { length (T.tells result).list
            ≡ length (T.tells self.table.shared.key.start.value).list + put_in seat.me.0.turns }
    {
        let Board {
            table,
            served: _,
            room: _,
            sleepers: _,
        } = self;
        let mut closed = table.close_with(seat);
        let value = closed.take(0);
        closed.free();
        value
    }
}
