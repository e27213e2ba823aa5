//! Those who ask a school side by side, by lines.

ghost use Rattle.std.specs.Prelude.{◌≡◌, IfOk, length};
ghost use Rattle.qz_turn.specs.Rule.{below};
ghost use Rattle.qz_visit.specs.Holding.{Holds};

use qz_disks::Keeper;
use qz_replies::line_of;
use qz_terms::Desk;
use qz_text::{NoMemory, Text};
use qz_visit::{Last, Passes, School, Visit};
use qz_wire::ask_of_line;
use std::alloc::Global;
use std::sync::Wait;

/// So many ask.
pub(crate) const HANDS: usize = 8;

/// One who asks a school.
#[derive(Drop)]
pub(crate) struct Hand<'s, 'r, K: Keeper, W: Wait> {
    visit: Visit<'s, 'r, K, W>,
    /// How many replies were those that were looked for.
    heard: u64,
    /// How many slots it bound anew.
    bound: u64,
    /// The job that is worked next.
    job: u32,
}

/// A line in which a number stands for each `#`.
fn numbered(alloc: Global, line: &str, number: u32) -> Result<String, NoMemory> {
    let word = format!(in alloc; "{number}")?;
    Ok(line.replace(alloc, "#", &word)?)
}

impl<'s, 'r, K: Keeper, W: Wait> Hand<'s, 'r, K, W> {
    /// How many replies were those that were looked for.
    pub(crate) fn heard(&self) -> u64 {
        self.heard
    }

    /// How many slots it bound anew.
    pub(crate) fn bound(&self) -> u64 {
        self.bound
    }

    /// The job that is worked next.
    pub(crate) fn job(&self) -> u32 {
        self.job
    }

    /// What was seen of the lists.
    pub(crate) fn last(&self) -> &Last {
        self.visit.passes().last()
    }

    /// Asks a line, with this number for each `#`, and looks for these words in the reply. A line that asks nothing has no reply.
    pub(crate) fn ask(
        &mut self,
        alloc: Global,
        number: u32,
        line: &str,
        words: &str,
    ) -> Result<Text, NoMemory> {
        let line = numbered(alloc, line, number)?;
        let Ok((moment, ask)) = ask_of_line(alloc, line.as_bytes()) else {
            return Text::of(alloc, "");
        };
        let reply = line_of(alloc, &self.visit.ask(alloc, &ask, moment))?;
        if reply
            .as_str()
            .contains(numbered(alloc, words, number)?.as_str())
        {
            self.heard = self.heard.saturating_add(1);
        }
        Ok(reply)
    }

    /// Takes a step of the job that is worked next, if there is that job.
    pub(crate) fn work(&mut self, alloc: Global) -> Result<(), NoMemory> {
        let reply = self.ask(alloc, self.job, "110 root - work # 0", "done #\n")?;
        if reply.as_str().contains("done ") {
            self.job = self.job.saturating_add(1);
        }
        if reply.as_str().contains(" rebound ") {
            self.bound = self.bound.saturating_add(1);
        }
        Ok(())
    }
}

/// As many who ask a school as it has seats.
pub(crate) fn seated<'s, 'r, K: Keeper, W: Wait>(
    rt: &'r W,
    alloc: Global,
    school: &'s School<K>,
    mut passes: Passes<K>,
) -> Result<Vec<Hand<'s, 'r, K, W>>, NoMemory>
    requires { Holds school.now (below HANDS) passes.seats }
    ensures { IfOk result (λ hands. length hands.items ≡ HANDS) }
{
    let mut hands = Vec::new(alloc);
    for _ in 0..HANDS {
        let given = school.split(alloc, &mut passes)?;
        let visit = Visit::new(school, rt, given);
        hands.push(Hand {
            visit,
            heard: 0,
            bound: 0,
            job: 1,
        })?;
    }
    Ok(hands)
}
