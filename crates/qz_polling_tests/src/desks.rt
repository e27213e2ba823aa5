//! Why no more links are taken, told at a desk that refuses all.

ghost use Rattle.std.specs.Prelude.{[], None};

use crate::lines::{add_ready, door_of};
use crate::schools::Still;
use qz_grading::Refusal;
use qz_ready_doors::{PollEnd, PollWhy, Unwatched, serve_ready};
use qz_terms::{Ask, Desk, Reply};
use qz_text::{Listed, NoMemory};
use std::alloc::{AllocGlobal, Global};
use std::random::RandomSource;
use std::sync::Wait;
use std::test::Fail;

#[derive(Drop)]
struct Refusing;

impl Desk for Refusing {
    ghost lists = { λ _. record { records = record { list = []; doubt = None }; parts = [] } };

    ghost faults = { λ _. 0 };

    ghost takes = { λ _ _. Unit {0} };

    ghost answers = { λ _ _ _ _ _. Unit {0} };

    fn ask(&mut self, _alloc: Global, _ask: &Ask, _moment: u64) -> Reply {
        Reply::Refused(Refusal::UnknownToken)
    }
}

/// How many of two links are taken, where so many are asked for and this call of the door fails; and why no more are.
fn taken<R: Wait + RandomSource + AllocGlobal>(
    rt: &R,
    alloc: Global,
    links: u64,
    failing: u64,
) -> Result<(u64, PollWhy), NoMemory> {
    let mut lines = Listed::empty(alloc);
    add_ready(alloc, &mut lines, "")?;
    add_ready(alloc, &mut lines, "")?;
    let mut door = door_of(alloc, lines, failing)?;
    let mut desks = Vec::new(alloc);
    desks.push((Refusing, Still { moment: 1000 }))?;
    let PollEnd { links, why, .. } = serve_ready(rt, &mut Unwatched, desks, &mut door, links);
    Ok((links, why))
}

#[test]
fn no_more_links_are_taken_for_a_cause(rt: HostRuntime) -> Result<(), Fail> {
    for (links, failing, told) in [
        (0, 9, (0, PollWhy::Enough)),
        (2, 9, (2, PollWhy::Enough)),
        (3, 9, (2, PollWhy::Over)),
        (3, 2, (1, PollWhy::DoorFault)),
        (2, 3, (2, PollWhy::Enough)),
    ] {
        let heard = taken(&rt, rt.alloc(), links, failing)?;
        assert_eq!(rt; heard, told);
    }
    Ok(())
}
