//! Calls at the elements of two lists, side by side.

ghost use denote.Param.Send.{IsSend, IsSync};
ghost use Rattle.std.specs.Fork.{AcceptsEach};
ghost use Rattle.qz_stations.specs.Sides.{LeaveEach};

use std::thread;
use std::thread::Threads;

/// Calls `each` at each element, each on a thread of its own, or one after the other where none can be started.
fn at_each<W: Threads + Sync, T: Send, F: Fn(usize, &mut T) + Sync>(
    rt: &W,
    items: &mut [T],
    each: &F,
)
    requires { AcceptsEach F.Fn each.now items.old }
    ensures { LeaveEach F.Fn each.now items.old items.new }
{
    let threads = items.len().max(1);
    thread::for_each_mut(rt, items, threads, each);
}

/// Calls `each` at each element of one list, and beside it `every` at each of another, which are called last where no thread can be started.
/// So the first may not wait for the others, and the others may wait for the first.
pub(crate) fn at_both<
    W: Threads + Sync,
    T: Send,
    U: Send,
    F: Fn(usize, &mut T) + Sync,
    G: Fn(usize, &mut U) + Sync,
>(rt: &W, items: &mut [T], each: &F, others: &mut [U], every: &G)
    requires items { AcceptsEach F.Fn each.now items.old }
    requires others { AcceptsEach G.Fn every.now others.old }
    ensures items { LeaveEach F.Fn each.now items.old items.new }
    ensures others { LeaveEach G.Fn every.now others.old others.new }
{
    let mut first = ||
        requires { IsSync W.row × IsSync F.row × IsSend T.row
            × AcceptsEach F.Fn each.now items.now }
        ensures { LeaveEach F.Fn each.entry.now items.entry.now items.exit.now }
    { at_each(rt, items, each) };
    let mut second = ||
        requires { IsSync W.row × IsSync G.row × IsSend U.row
            × AcceptsEach G.Fn every.now others.now }
        ensures { LeaveEach G.Fn every.entry.now others.entry.now others.exit.now }
    { at_each(rt, others, every) };
    thread::join_mut(rt, &mut second, &mut first);
}
