//! Numbers, little endian, and truth.

ghost use Rattle.std.specs.Prelude.{◌≡◌, ◌++◌, OnOk};
ghost use Rattle.qz_terms.specs.Spelling.{one_byte, two_bytes, four_bytes, eight_bytes, signed_bytes, wide_bytes, bool_bytes};
ghost use Rattle.qz_record.specs.Fields.{Gives, IsFit, u8_field, u16_field, u32_field, u64_field, i64_field, i128_field, bool_field};

use crate::RecordFault;
use crate::part::{Part, number_at};
use qz_decimal::{Decimal, Fraction, Grade, Mark};
use qz_text::NoMemory;
use std::alloc::Global;

impl Part for u8 {
    ghost field = { u8_field };

    ghost bytes = { one_byte };

    #[tactic(auto, unfolding(crate::specs::Fields::u8_field))]
    fn read_from(_alloc: Global, rest: &mut &[u8]) -> Result<u8, RecordFault> {
        number_at(rest)
    }

    #[tactic(auto, using(crate::proofs::Fitting::byte), unfolding(crate::specs::Fields::u8_field))]
    fn write_to(&self, out: &mut Vec<u8>) -> Result<(), NoMemory> {
        Ok(out.push(*self)?)
    }
}

impl Part for u16 {
    ghost field = { u16_field };

    ghost bytes = { two_bytes };

    #[tactic(auto, unfolding(crate::specs::Fields::u16_field))]
    fn read_from(_alloc: Global, rest: &mut &[u8]) -> Result<u16, RecordFault> {
        let (front, behind) = rest.split_first_chunk::<2>().ok_or(RecordFault::NotOne)?;
        *rest = behind;
        Ok(u16::from_le_bytes(*front))
    }

    #[tactic(auto, using(crate::proofs::Fitting::two), unfolding(crate::specs::Fields::u16_field))]
    fn write_to(&self, out: &mut Vec<u8>) -> Result<(), NoMemory> {
        Ok(out.extend_from_slice(&self.to_le_bytes())?)
    }
}

impl Part for u32 {
    ghost field = { u32_field };

    ghost bytes = { four_bytes };

    #[tactic(auto, unfolding(crate::specs::Fields::u32_field))]
    fn read_from(_alloc: Global, rest: &mut &[u8]) -> Result<u32, RecordFault> {
        let (front, behind) = rest.split_first_chunk::<4>().ok_or(RecordFault::NotOne)?;
        *rest = behind;
        Ok(u32::from_le_bytes(*front))
    }

    #[tactic(auto, using(crate::proofs::Fitting::four), unfolding(crate::specs::Fields::u32_field))]
    fn write_to(&self, out: &mut Vec<u8>) -> Result<(), NoMemory> {
        Ok(out.extend_from_slice(&self.to_le_bytes())?)
    }
}

impl Part for u64 {
    ghost field = { u64_field };

    ghost bytes = { eight_bytes };

    #[tactic(auto, unfolding(crate::specs::Fields::u64_field))]
    fn read_from(_alloc: Global, rest: &mut &[u8]) -> Result<u64, RecordFault> {
        let (front, behind) = rest.split_first_chunk::<8>().ok_or(RecordFault::NotOne)?;
        *rest = behind;
        Ok(u64::from_le_bytes(*front))
    }

    #[tactic(auto, using(crate::proofs::Fitting::eight), unfolding(crate::specs::Fields::u64_field))]
    fn write_to(&self, out: &mut Vec<u8>) -> Result<(), NoMemory> {
        Ok(out.extend_from_slice(&self.to_le_bytes())?)
    }
}

#[tactic(auto, unfolding(crate::specs::Fields::i64_field))]
fn i64_from(rest: &mut &[u8]) -> Result<i64, RecordFault>
    ensures { Gives i64_field.read rest.old.now result rest.new.now }
{
    let (front, behind) = rest.split_first_chunk::<8>().ok_or(RecordFault::NotOne)?;
    *rest = behind;
    Ok(i64::from_le_bytes(*front))
}

#[tactic(auto, using(crate::proofs::Fitting::signed_eight))]
fn write_i64(number: i64, out: &mut Vec<u8>) -> Result<(), NoMemory>
    ensures appends { OnOk result (out.new.items ≡ out.old.items ++ signed_bytes number) }
    ensures fits { OnOk result (IsFit (signed_bytes number) (i64_field.fits number)) }
{
    Ok(out.extend_from_slice(&number.to_le_bytes())?)
}

#[tactic(auto, unfolding(crate::specs::Fields::i128_field))]
fn i128_from(rest: &mut &[u8]) -> Result<i128, RecordFault>
    ensures { Gives i128_field.read rest.old.now result rest.new.now }
{
    let (front, behind) = rest.split_first_chunk::<16>().ok_or(RecordFault::NotOne)?;
    *rest = behind;
    Ok(i128::from_le_bytes(*front))
}

#[tactic(auto, using(crate::proofs::Fitting::signed_sixteen))]
fn write_i128(number: i128, out: &mut Vec<u8>) -> Result<(), NoMemory>
    ensures appends { OnOk result (out.new.items ≡ out.old.items ++ wide_bytes number) }
    ensures fits { OnOk result (IsFit (wide_bytes number) (i128_field.fits number)) }
{
    Ok(out.extend_from_slice(&number.to_le_bytes())?)
}

impl Part for Mark {
    ghost field = { i64_field };

    ghost bytes = { signed_bytes };

    fn read_from(_alloc: Global, rest: &mut &[u8]) -> Result<Mark, RecordFault> {
        Ok(Mark(i64_from(rest)?))
    }

    fn write_to(&self, out: &mut Vec<u8>) -> Result<(), NoMemory> {
        write_i64(self.0, out)
    }
}

impl Part for Fraction {
    ghost field = { i64_field };

    ghost bytes = { signed_bytes };

    fn read_from(_alloc: Global, rest: &mut &[u8]) -> Result<Fraction, RecordFault> {
        Ok(Fraction(i64_from(rest)?))
    }

    fn write_to(&self, out: &mut Vec<u8>) -> Result<(), NoMemory> {
        write_i64(self.0, out)
    }
}

impl Part for Grade {
    ghost field = { i128_field };

    ghost bytes = { wide_bytes };

    fn read_from(_alloc: Global, rest: &mut &[u8]) -> Result<Grade, RecordFault> {
        Ok(Grade(i128_from(rest)?))
    }

    fn write_to(&self, out: &mut Vec<u8>) -> Result<(), NoMemory> {
        write_i128(self.0, out)
    }
}

impl Part for Decimal {
    ghost field = { i128_field };

    ghost bytes = { wide_bytes };

    fn read_from(_alloc: Global, rest: &mut &[u8]) -> Result<Decimal, RecordFault> {
        Ok(Decimal(i128_from(rest)?))
    }

    fn write_to(&self, out: &mut Vec<u8>) -> Result<(), NoMemory> {
        write_i128(self.0, out)
    }
}

impl Part for bool {
    ghost field = { bool_field };

    ghost bytes = { bool_bytes };

    #[tactic(auto, unfolding(crate::specs::Fields::bool_field))]
    fn read_from(_alloc: Global, rest: &mut &[u8]) -> Result<bool, RecordFault> {
        match number_at(rest)? {
            0 => Ok(false),
            1 => Ok(true),
            _ => Err(RecordFault::NotOne),
        }
    }

    #[tactic(auto, using(crate::proofs::Fitting::truth), unfolding(crate::specs::Fields::bool_field))]
    fn write_to(&self, out: &mut Vec<u8>) -> Result<(), NoMemory> {
        Ok(out.push(if *self { 1 } else { 0 })?)
    }
}
