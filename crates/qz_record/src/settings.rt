//! Settings, and what is bound to slots.

ghost use Rattle.std.specs.Prelude.{◌≡◌, ◌++◌, OnOk};
ghost use Rattle.qz_terms.specs.Spelling.{handling_bytes, review_bytes, method_bytes, settings_bytes, terms_bytes, bound_bytes, learned_bytes};
ghost use Rattle.qz_record.specs.Parts.{handling_field, review_field, method_field, settings_field, terms_field, bound_field, learned_field};

use crate::RecordFault;
use crate::part::{Part, number_at};
use crate::writing::{write_four, write_seven, write_three, write_two};
use qz_decimal::Mark;
use qz_grading::Question;
use qz_terms::{Bound, Handling, Learned, Method, Review, Settings, Terms};
use qz_text::NoMemory;
use std::alloc::Global;

impl Part for Handling {
    ghost field = { handling_field };

    ghost bytes = { handling_bytes };

    #[tactic(auto, unfolding(crate::specs::Parts::handling_field))]
    fn read_from(_alloc: Global, rest: &mut &[u8]) -> Result<Handling, RecordFault> {
        match number_at(rest)? {
            0 => Ok(Handling::AutoSubmit),
            1 => Ok(Handling::GracePeriod),
            2 => Ok(Handling::AutoAbandon),
            _ => Err(RecordFault::NotOne),
        }
    }

    #[tactic(auto, using(crate::proofs::Fitting::handling_one), unfolding(crate::specs::Parts::handling_field))]
    fn write_to(&self, out: &mut Vec<u8>) -> Result<(), NoMemory> {
        let number = match self {
            Handling::AutoSubmit => 0,
            Handling::GracePeriod => 1,
            Handling::AutoAbandon => 2,
        };
        Ok(out.push(number)?)
    }
}

impl Part for Review {
    ghost field = { review_field };

    ghost bytes = { review_bytes };

    #[tactic(auto, unfolding(crate::specs::Parts::review_field))]
    fn read_from(_alloc: Global, rest: &mut &[u8]) -> Result<Review, RecordFault> {
        match number_at(rest)? {
            0 => Ok(Review::Always),
            1 => Ok(Review::Finish),
            2 => Ok(Review::Close),
            _ => Err(RecordFault::NotOne),
        }
    }

    #[tactic(auto, using(crate::proofs::Fitting::review_one), unfolding(crate::specs::Parts::review_field))]
    fn write_to(&self, out: &mut Vec<u8>) -> Result<(), NoMemory> {
        let number = match self {
            Review::Always => 0,
            Review::Finish => 1,
            Review::Close => 2,
        };
        Ok(out.push(number)?)
    }
}

impl Part for Method {
    ghost field = { method_field };

    ghost bytes = { method_bytes };

    #[tactic(auto, unfolding(crate::specs::Parts::method_field))]
    fn read_from(_alloc: Global, rest: &mut &[u8]) -> Result<Method, RecordFault> {
        match number_at(rest)? {
            0 => Ok(Method::Highest),
            1 => Ok(Method::Average),
            2 => Ok(Method::First),
            3 => Ok(Method::Last),
            _ => Err(RecordFault::NotOne),
        }
    }

    #[tactic(auto, using(crate::proofs::Fitting::method_one), unfolding(crate::specs::Parts::method_field))]
    fn write_to(&self, out: &mut Vec<u8>) -> Result<(), NoMemory> {
        let number = match self {
            Method::Highest => 0,
            Method::Average => 1,
            Method::First => 2,
            Method::Last => 3,
        };
        Ok(out.push(number)?)
    }
}

impl Part for Settings {
    ghost field = { settings_field };

    ghost bytes = { settings_bytes };

    #[tactic(auto, unfolding(crate::specs::Parts::settings_field))]
    fn read_from(alloc: Global, rest: &mut &[u8]) -> Result<Settings, RecordFault> {
        Ok(Settings {
            opens: u64::read_from(alloc, rest)?,
            closes: u64::read_from(alloc, rest)?,
            limit: u32::read_from(alloc, rest)?,
            allowed: u32::read_from(alloc, rest)?,
            handling: Handling::read_from(alloc, rest)?,
            grace: u32::read_from(alloc, rest)?,
            review: Review::read_from(alloc, rest)?,
        })
    }

    #[tactic(auto, unfolding(crate::specs::Parts::settings_field))]
    fn write_to(&self, out: &mut Vec<u8>) -> Result<(), NoMemory> {
        write_seven(
            &self.opens,
            &self.closes,
            &self.limit,
            &self.allowed,
            &self.handling,
            &self.grace,
            &self.review,
            out,
        )
    }
}

impl Part for Terms {
    ghost field = { terms_field };

    ghost bytes = { terms_bytes };

    #[tactic(auto, unfolding(crate::specs::Parts::terms_field))]
    fn read_from(alloc: Global, rest: &mut &[u8]) -> Result<Terms, RecordFault> {
        Ok(Terms {
            at: u64::read_from(alloc, rest)?,
            settings: Settings::read_from(alloc, rest)?,
        })
    }

    #[tactic(auto, unfolding(crate::specs::Parts::terms_field))]
    fn write_to(&self, out: &mut Vec<u8>) -> Result<(), NoMemory> {
        write_two(&self.at, &self.settings, out)
    }
}

impl Part for Bound {
    ghost field = { bound_field };

    ghost bytes = { bound_bytes };

    #[tactic(auto, unfolding(crate::specs::Parts::bound_field))]
    fn read_from(alloc: Global, rest: &mut &[u8]) -> Result<Bound, RecordFault> {
        Ok(Bound {
            entry: u32::read_from(alloc, rest)?,
            version: u32::read_from(alloc, rest)?,
            max: Mark::read_from(alloc, rest)?,
            at: u64::read_from(alloc, rest)?,
        })
    }

    #[tactic(auto, unfolding(crate::specs::Parts::bound_field))]
    fn write_to(&self, out: &mut Vec<u8>) -> Result<(), NoMemory> {
        write_four(&self.entry, &self.version, &self.max, &self.at, out)
    }
}

impl Part for Learned {
    ghost field = { learned_field };

    ghost bytes = { learned_bytes };

    #[tactic(auto, unfolding(crate::specs::Parts::learned_field))]
    fn read_from(alloc: Global, rest: &mut &[u8]) -> Result<Learned, RecordFault> {
        Ok(Learned {
            entry: u32::read_from(alloc, rest)?,
            version: u32::read_from(alloc, rest)?,
            question: Question::read_from(alloc, rest)?,
        })
    }

    #[tactic(auto, unfolding(crate::specs::Parts::learned_field))]
    fn write_to(&self, out: &mut Vec<u8>) -> Result<(), NoMemory> {
        write_three(&self.entry, &self.version, &self.question, out)
    }
}
