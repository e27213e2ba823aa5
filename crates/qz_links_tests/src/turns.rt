// One list that eight threads take turns at.
ghost use Rattle.std.specs.Prelude.{◌≡◌, ◌≢◌, ◌<◌, [], length, All, Some};
ghost use Rattle.qz_turn.specs.Callers.{KeepsRights, AreNumbered, KeepRights};

use qz_text::NoMemory;
use qz_turn::{Errand, Pass, Told, Turns};
use std::alloc::Global;
use std::sync::Wait;
use std::test::Fail;
use std::thread;
use std::thread::Threads;

#[derive(Drop)]
struct Words {
    items: Vec<u64>,
}

impl Told for Words {
    ghost use Rattle.std.specs.Prelude.{None};

    type Item = u64;

    type Key = ();

    ghost tells = { λ words. record { list = words.items.items; doubt = None; faults = 0 } };

    ghost fits = { λ _ _. Unit {0} };

    fn len(&self) -> u64 {
        self.items.len() as u64
    }
}

// Puts an item at the end, where there is memory.
#[derive(Drop)]
struct Append {
    item: u64,
}

impl Errand<Words> for Append {
    ghost can = { λ _ _ _. Unit {0} };

    ghost does = { λ _ _ _ _. Unit {0} };

    fn go(&mut self, words: &mut Words) {
        let _ = words.items.push(self.item);
    }
}

// Each thread's items begin at its own number times this.
const TURNS: u64 = 10_000;

// The turns of one thread.
fn put_all<R: Wait>(rt: &R, turns: &Turns<Words>, pass: &mut Pass<Words>, thread: u64)
    requires thread { thread < 8 }
    requires pass { (pass.old.lock ≡ turns.now.lock) × (pass.old.numbers ≢ []) }
    ensures { KeepsRights pass.old pass.new }
{
    for turn in 0..TURNS {
        let item = thread * TURNS + turn;
        turns.turn(rt, pass, &mut Append { item });
    }
}

// Eight threads at one list.
fn put_side_by_side<R: Threads + Wait + Sync>(
    rt: &R,
    turns: &Turns<Words>,
    passes: &mut [Pass<Words>],
)
    requires few { length passes.old ≡ 8 }
    requires passes { All (λ p. (p.lock ≡ turns.now.lock) × (p.numbers ≢ [])) passes.old }
    ensures { KeepRights passes.old passes.new }
{
    thread::for_each_mut(
        rt,
        passes,
        8,
        &|i, pass: &mut Pass<Words>|
            requires { (i < 8) × (pass.now.lock ≡ turns.now.lock) × (pass.now.numbers ≢ []) }
            ensures { KeepsRights pass.entry.now pass.exit.now }
        { put_all(rt, turns, pass, i as u64) },
    );
}

// Joins all passes, of which the one at place i has the number i, and closes the lock.
fn close_all(turns: Turns<Words>, mut passes: Vec<Pass<Words>>) -> Vec<u64>
    requires seats { (length passes.items ≡ turns.seats) × (0 < turns.seats) }
    requires numbers { AreNumbered turns.lock passes.items }
{
    let Some(mut pass) = passes.pop() else {
        unreachable!()
    };
    while let Some(other) = passes.pop() {
        turns.join(&mut pass, other);
    }
    let Words { items } = turns.close(pass);
    items
}

fn put_eight_fold<R: Threads + Wait + Sync>(rt: &R, alloc: Global) -> Result<Vec<u64>, NoMemory> {
    let items = Words {
        items: Vec::new(alloc),
    };
    let (turns, mut passes) = match Turns::new(alloc, items, &(), 8) {
        Ok(made) => made,
        Err((_, short)) => return Err(short),
    };
    put_side_by_side(rt, &turns, passes.as_mut_slice());
    Ok(close_all(turns, passes))
}

#[test]
fn each_item_once_and_each_threads_own_in_order(rt: HostRuntime) -> Result<(), Fail> {
    let items = put_eight_fold(&rt, rt.alloc())?;
    let mut next = [0u64; 8];
    for item in items.as_slice() {
        let thread = (*item / TURNS) as usize;
        assert!(rt; thread < 8 && next[thread] == *item % TURNS);
        next[thread] = next[thread].wrapping_add(1);
    }
    assert!(rt; next == [TURNS; 8]);
    Ok(())
}
