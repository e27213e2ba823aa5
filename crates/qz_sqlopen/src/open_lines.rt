//! The lines of the attempts that wait, read from a keeper's database.

ghost use Rattle.std.specs.Prelude.{◌≡◌, ◌++◌, string_bytes, IfOk, OnOk};
ghost use Rattle.sqlite.specs.Held.{state};
ghost use Rattle.sqlite.specs.State.{HasCleanDisk};
ghost use Rattle.qz_disks.specs.Keepers.{HasKeepCause};
ghost use Rattle.qz_sqlopen.specs.Open.{IsToldIn, lines_in, open_line, open_lines};
ghost use Rattle.qz_sqlkeep.specs.Keeping.{kept_in};

use qz_disks::KeepErr;
use qz_grading::AttemptId;
use qz_sqlkeep::{Base, SqlKeeper};
use qz_text::{NoMemory, Text};
use std::alloc::Global;

/// Adds the line of an attempt that waits and has so many steps.
fn line_onto(
    alloc: Global,
    lines: &mut String,
    attempt: AttemptId,
    steps: usize,
) -> Result<(), NoMemory>
    ensures { OnOk result
        (string_bytes lines.new ≡ string_bytes lines.old ++ open_line attempt steps) }
{
    let AttemptId { user, nth } = attempt;
    let line = format!(in alloc; "{user}.{nth} {steps}\n")?;
    lines.push_str(line.as_str())?;
    Ok(())
}

/// The lines of these attempts, with the number of each one's steps.
fn lines_of<S: Base>(
    alloc: Global,
    keeper: &mut SqlKeeper<S>,
    attempts: &[AttemptId],
) -> Result<Text, KeepErr>
    ensures found { IfOk result (λ lines. HasCleanDisk (state S.Store keeper.new.conn)
        → IsToldIn (lines_in attempts.now) (state S.Store keeper.old.conn).now lines) }
    ensures clean { HasCleanDisk (state S.Store keeper.new.conn)
        → HasCleanDisk (state S.Store keeper.old.conn) }
    ensures kept { kept_in S.Base.tells (state S.Store keeper.new.conn).now
        ≡ kept_in S.Base.tells (state S.Store keeper.old.conn).now }
    ensures doubt { keeper.new.doubt ≡ keeper.old.doubt }
    ensures cause { HasKeepCause keeper.old.faults keeper.new.faults result }
{
    let mut lines = String::new(alloc);
    for attempt in attempts {
        let steps = keeper.steps_of(alloc, *attempt)?;
        line_onto(alloc, &mut lines, *attempt, steps.as_slice().len())?;
    }
    Ok(Text { items: lines })
}

/// The lines of the attempts at a quiz that wait, in order of user and number.
///
/// After an error the keeper's list and its payload in doubt are as they were, as they are else.
pub(crate) fn open_lines<S: Base>(
    alloc: Global,
    keeper: &mut SqlKeeper<S>,
    quiz: u32,
) -> Result<Text, KeepErr>
    ensures found { IfOk result (λ lines. HasCleanDisk (state S.Store keeper.new.conn)
        → IsToldIn (open_lines quiz) (state S.Store keeper.old.conn).now lines) }
    ensures clean { HasCleanDisk (state S.Store keeper.new.conn)
        → HasCleanDisk (state S.Store keeper.old.conn) }
    ensures kept { kept_in S.Base.tells (state S.Store keeper.new.conn).now
        ≡ kept_in S.Base.tells (state S.Store keeper.old.conn).now }
    ensures doubt { keeper.new.doubt ≡ keeper.old.doubt }
    ensures cause { HasKeepCause keeper.old.faults keeper.new.faults result }
{
    let attempts = keeper.waiting(alloc, quiz)?;
    lines_of(alloc, keeper, attempts.as_slice())
}
