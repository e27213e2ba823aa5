//! What is read of a school of which no record is in doubt.

ghost use Rattle.std.specs.Prelude.{◌≡◌, ◌<◌, ◌++◌, ◌%◌, length, OnOk};
ghost use Rattle.qz_solo.specs.Marks.{marks_of};
ghost use Rattle.qz_solo.specs.Memory.{AreClear};
ghost use Rattle.qz_school.specs.Solos.{lists_in};
ghost use Rattle.qz_terms.specs.Serial.{part_list};

use crate::Solo;
use crate::marks::marks_onto;
use qz_decimal::Mark;
use qz_disks::Keeper;
use qz_grading::AttemptId;
use qz_text::{Listed, NoMemory};
use std::alloc::Global;

impl<K: Keeper> Solo<K> {
    /// How many records a shard has, without one in doubt.
    pub(crate) fn shard_len(&self, shard: u8) -> u64
        requires { shard < length self.now.parts }
        ensures { result ≡ length (part_list (lists_in self.now) shard) }
    {
        self.shards[usize::from(shard)].len()
    }

    /// Adds the marks of an attempt's slots to others, in order. An attempt that isn't there has none.
    pub(crate) fn marks_onto(
        &mut self,
        alloc: Global,
        attempt: AttemptId,
        marks: &mut Listed<Mark>,
    ) -> Result<(), NoMemory>
        requires clear { AreClear (lists_in self.old) }
        ensures marks { OnOk result (marks.new ≡ marks.old ++ marks_of
            (part_list (lists_in self.old) (attempt.user % length self.old.parts)) attempt) }
        ensures unchanged { lists_in self.new ≡ lists_in self.old }
    {
        let index = attempt.user as usize % self.shards.len();
        let shard = &mut self.shards[index];
        marks_onto(self.catalog.core(), shard, alloc, attempt, marks)
    }
}
