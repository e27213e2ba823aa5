//! What is found while the records of a shard are looked at.

ghost use Rattle.std.specs.Prelude.{◌≡◌, None, OnOk, []};
ghost use Rattle.qz_agreement.specs.Findings.{asked_after, earlier, first_after};

use crate::look::Verdict;
use qz_text::NoMemory;
use std::alloc::Global;

/// What is asked of the catalogue's first records, as many as `at`, about the record at this index of its list, which is of an attempt
/// of this quiz: whether it fits them.
#[derive(Clone, Copy)]
pub(crate) struct Claim {
    pub(crate) at: u64,
    pub(crate) quiz: u32,
    pub(crate) index: usize,
}

/// The index of the first record that is known to disagree, and what is still to be asked.
#[derive(Drop)]
pub(crate) struct Findings {
    pub(crate) first: Option<usize>,
    pub(crate) claims: Vec<Claim>,
}

/// The earlier of what was found first and one more.
pub(crate) fn earlier(first: Option<usize>, index: usize) -> usize
    ensures { result ≡ earlier first index }
{
    match first {
        Some(first) if first <= index => first,
        _ => index,
    }
}

impl Findings {
    pub(crate) fn new(alloc: Global) -> Findings
        ensures first { result.first ≡ None }
        ensures claims { result.claims.items ≡ [] }
    {
        Findings {
            first: None,
            claims: Vec::new(alloc),
        }
    }

    /// Notes what is known of a record.
    pub(crate) fn note(&mut self, index: usize, verdict: Verdict) -> Result<(), NoMemory>
        ensures first { OnOk result (self.new.first ≡ first_after self.old.first index verdict) }
        ensures claims { OnOk result
            (self.new.claims.items ≡ asked_after self.old.claims.items index verdict) }
    {
        match verdict {
            Verdict::Agreed => {}
            Verdict::Denied => self.first = Some(earlier(self.first, index)),
            Verdict::Pending { at, quiz } => self.claims.push(Claim { at, quiz, index })?,
        }
        Ok(())
    }
}
