//! The parts that a record is made of, each with bytes of its own.

ghost use Rattle.std.specs.Prelude.{◌≡◌, ℕ, List, ◌++◌, ◌∷◌, [], OnOk, MatchResult};
ghost use Rattle.qz_terms.specs.Spelling.{four_bytes, option_bytes, list_bytes};
ghost use Rattle.qz_record.specs.declared.fault.RecordFault.TheVariants.{NotOne};
ghost use Rattle.qz_record.specs.Fields.{Field, Gives, IsFit, list_field, many, option_field};

use crate::RecordFault;
use crate::writing::write_two;
use qz_text::{Listed, NoMemory};
use std::alloc::Global;

/// What has bytes of its own in a record.
pub(crate) trait Part: Sized {
    /// Which values have bytes, and what is read of bytes.
    ghost field: { Field Self };

    /// The bytes of a value.
    ghost bytes: { Self → List ℕ };

    /// Reads one at the front of `rest`, which then stands behind it.
    fn read_from(alloc: Global, rest: &mut &[u8]) -> Result<Self, RecordFault>
        ensures { Gives field.read rest.old.now result rest.new.now };

    /// Puts its bytes behind `out`.
    fn write_to(&self, out: &mut Vec<u8>) -> Result<(), NoMemory>
        ensures appends { OnOk result (out.new.items ≡ out.old.items ++ bytes self.now) }
        // The Rust type keeps its numbers in their ranges.
        ensures fits { OnOk result (IsFit (bytes self.now) (field.fits self.now)) };
}

/// The first byte, which `rest` then stands behind.
pub(crate) fn number_at(rest: &mut &[u8]) -> Result<u8, RecordFault>
    ensures { MatchResult result (λ n. rest.old.now ≡ n ∷ rest.new.now)
        (λ e. (e ≡ NotOne) × (rest.old.now ≡ [])) }
{
    let (number, behind) = rest.split_first().ok_or(RecordFault::NotOne)?;
    *rest = behind;
    Ok(*number)
}

/// Puts the lowest four bytes of a length behind `out`.
pub(crate) fn write_len(len: usize, out: &mut Vec<u8>) -> Result<(), NoMemory>
    ensures { OnOk result (out.new.items ≡ out.old.items ++ four_bytes len) }
{
    let [first, second, third, fourth, ..] = len.to_le_bytes();
    Ok(out.extend_from_slice(&[first, second, third, fourth])?)
}

/// So many of a part, one behind the other. The list grows as they are read, whatever the count is.
fn many_from<T: Part + Drop>(
    alloc: Global,
    count: u32,
    rest: &mut &[u8],
) -> Result<Listed<T>, RecordFault>
    ensures { Gives (many T.field count) rest.old.now result rest.new.now }
{
    let mut items = Vec::new(alloc);
    for _ in 0..count {
        items.push(T::read_from(alloc, rest)?)?;
    }
    Ok(Listed { items })
}

impl<T: Part + Drop> Part for Option<T> {
    ghost field = { option_field T.field };

    ghost bytes = { option_bytes T.bytes };

    #[tactic(auto, unfolding(crate::specs::Fields::option_field))]
    fn read_from(alloc: Global, rest: &mut &[u8]) -> Result<Option<T>, RecordFault> {
        match number_at(rest)? {
            0 => Ok(None),
            1 => Ok(Some(T::read_from(alloc, rest)?)),
            _ => Err(RecordFault::NotOne),
        }
    }

    #[tactic(auto, using(crate::proofs::Fitting::one), unfolding(crate::specs::Fields::option_field, crate::specs::Fields::u8_field))]
    fn write_to(&self, out: &mut Vec<u8>) -> Result<(), NoMemory> {
        match self {
            None => Ok(out.push(0)?),
            Some(part) => write_two(&1u8, part, out),
        }
    }
}

impl<T: Part + Drop> Part for Listed<T> {
    ghost field = { list_field T.field };

    ghost bytes = { list_bytes T.bytes };

    #[tactic(auto, unfolding(crate::specs::Fields::list_field))]
    fn read_from(alloc: Global, rest: &mut &[u8]) -> Result<Listed<T>, RecordFault> {
        let count = u32::read_from(alloc, rest)?;
        many_from(alloc, count, rest)
    }

    fn write_to(&self, out: &mut Vec<u8>) -> Result<(), NoMemory> {
        write_len(self.as_slice().len(), out)?;
        for item in self.as_slice() {
            item.write_to(out)?;
        }
        Ok(())
    }
}
