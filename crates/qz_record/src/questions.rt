//! Questions and what they are made of.

ghost use Rattle.std.specs.Prelude.{◌≡◌, ◌++◌, OnOk};
ghost use Rattle.qz_terms.specs.Spelling.{format_bytes, rich_bytes, choice_bytes, pair_bytes, short_bytes, extent_bytes, num_bytes, kind_bytes, question_bytes, item_bytes, bank_bytes, shape_bytes};
ghost use Rattle.qz_record.specs.Parts.{format_field, rich_field, choice_field, pair_field, short_field, extent_field, num_field, kind_field, question_field, item_field, bank_field, shape_field};

use crate::RecordFault;
use crate::part::{Part, number_at};
use crate::writing::{write_four, write_six, write_three, write_two};
use qz_decimal::{Decimal, Fraction};
use qz_grading::{
    Bank, Choice, Extent, Format, Item, Kind, Num, Pair, Question, Rich, Shape, Short,
};
use qz_text::{Listed, NoMemory, Pattern, Text};
use std::alloc::Global;

impl Part for Format {
    ghost field = { format_field };

    ghost bytes = { format_bytes };

    #[tactic(auto, unfolding(crate::specs::Parts::format_field))]
    fn read_from(_alloc: Global, rest: &mut &[u8]) -> Result<Format, RecordFault> {
        match number_at(rest)? {
            0 => Ok(Format::Moodle),
            1 => Ok(Format::Html),
            2 => Ok(Format::Plain),
            3 => Ok(Format::Markdown),
            _ => Err(RecordFault::NotOne),
        }
    }

    #[tactic(auto, using(crate::proofs::Fitting::format_one), unfolding(crate::specs::Parts::format_field))]
    fn write_to(&self, out: &mut Vec<u8>) -> Result<(), NoMemory> {
        let number = match self {
            Format::Moodle => 0,
            Format::Html => 1,
            Format::Plain => 2,
            Format::Markdown => 3,
        };
        Ok(out.push(number)?)
    }
}

impl Part for Rich {
    ghost field = { rich_field };

    ghost bytes = { rich_bytes };

    #[tactic(auto, unfolding(crate::specs::Parts::rich_field))]
    fn read_from(alloc: Global, rest: &mut &[u8]) -> Result<Rich, RecordFault> {
        Ok(Rich {
            format: Format::read_from(alloc, rest)?,
            text: Text::read_from(alloc, rest)?,
        })
    }

    #[tactic(auto, unfolding(crate::specs::Parts::rich_field))]
    fn write_to(&self, out: &mut Vec<u8>) -> Result<(), NoMemory> {
        write_two(&self.format, &self.text, out)
    }
}

impl Part for Choice {
    ghost field = { choice_field };

    ghost bytes = { choice_bytes };

    #[tactic(auto, unfolding(crate::specs::Parts::choice_field))]
    fn read_from(alloc: Global, rest: &mut &[u8]) -> Result<Choice, RecordFault> {
        Ok(Choice {
            weight: Fraction::read_from(alloc, rest)?,
            text: Rich::read_from(alloc, rest)?,
            feedback: Rich::read_from(alloc, rest)?,
        })
    }

    #[tactic(auto, unfolding(crate::specs::Parts::choice_field))]
    fn write_to(&self, out: &mut Vec<u8>) -> Result<(), NoMemory> {
        write_three(&self.weight, &self.text, &self.feedback, out)
    }
}

impl Part for Pair {
    ghost field = { pair_field };

    ghost bytes = { pair_bytes };

    #[tactic(auto, unfolding(crate::specs::Parts::pair_field))]
    fn read_from(alloc: Global, rest: &mut &[u8]) -> Result<Pair, RecordFault> {
        Ok(Pair {
            stem: Rich::read_from(alloc, rest)?,
            answer: Text::read_from(alloc, rest)?,
        })
    }

    #[tactic(auto, unfolding(crate::specs::Parts::pair_field))]
    fn write_to(&self, out: &mut Vec<u8>) -> Result<(), NoMemory> {
        write_two(&self.stem, &self.answer, out)
    }
}

impl Part for Short {
    ghost field = { short_field };

    ghost bytes = { short_bytes };

    #[tactic(auto, unfolding(crate::specs::Parts::short_field))]
    fn read_from(alloc: Global, rest: &mut &[u8]) -> Result<Short, RecordFault> {
        Ok(Short {
            weight: Fraction::read_from(alloc, rest)?,
            pattern: Pattern::read_from(alloc, rest)?,
            feedback: Rich::read_from(alloc, rest)?,
        })
    }

    #[tactic(auto, unfolding(crate::specs::Parts::short_field))]
    fn write_to(&self, out: &mut Vec<u8>) -> Result<(), NoMemory> {
        write_three(&self.weight, &self.pattern, &self.feedback, out)
    }
}

impl Part for Extent {
    ghost field = { extent_field };

    ghost bytes = { extent_bytes };

    #[tactic(auto, unfolding(crate::specs::Parts::extent_field))]
    fn read_from(alloc: Global, rest: &mut &[u8]) -> Result<Extent, RecordFault> {
        match number_at(rest)? {
            0 => Ok(Extent::Any),
            1 => Ok(Extent::Near {
                centre: Decimal::read_from(alloc, rest)?,
                slack: Decimal::read_from(alloc, rest)?,
            }),
            2 => Ok(Extent::Between {
                low: Decimal::read_from(alloc, rest)?,
                high: Decimal::read_from(alloc, rest)?,
            }),
            _ => Err(RecordFault::NotOne),
        }
    }

    #[tactic(auto, using(crate::proofs::Fitting::one), unfolding(crate::specs::Parts::extent_field, crate::specs::Fields::u8_field))]
    fn write_to(&self, out: &mut Vec<u8>) -> Result<(), NoMemory> {
        match self {
            Extent::Any => Ok(out.push(0)?),
            Extent::Near { centre, slack } => write_three(&1u8, centre, slack, out),
            Extent::Between { low, high } => write_three(&2u8, low, high, out),
        }
    }
}

impl Part for Num {
    ghost field = { num_field };

    ghost bytes = { num_bytes };

    #[tactic(auto, unfolding(crate::specs::Parts::num_field))]
    fn read_from(alloc: Global, rest: &mut &[u8]) -> Result<Num, RecordFault> {
        Ok(Num {
            weight: Fraction::read_from(alloc, rest)?,
            extent: Extent::read_from(alloc, rest)?,
            feedback: Rich::read_from(alloc, rest)?,
        })
    }

    #[tactic(auto, unfolding(crate::specs::Parts::num_field))]
    fn write_to(&self, out: &mut Vec<u8>) -> Result<(), NoMemory> {
        write_three(&self.weight, &self.extent, &self.feedback, out)
    }
}

impl Part for Kind {
    ghost field = { kind_field };

    ghost bytes = { kind_bytes };

    #[tactic(auto, unfolding(crate::specs::Parts::kind_field))]
    fn read_from(alloc: Global, rest: &mut &[u8]) -> Result<Kind, RecordFault> {
        match number_at(rest)? {
            0 => Ok(Kind::Description),
            1 => Ok(Kind::Essay),
            2 => Ok(Kind::TrueFalse {
                right: bool::read_from(alloc, rest)?,
                on_wrong: Rich::read_from(alloc, rest)?,
                on_right: Rich::read_from(alloc, rest)?,
            }),
            3 => Ok(Kind::One(Listed::<Choice>::read_from(alloc, rest)?)),
            4 => Ok(Kind::Several(Listed::<Choice>::read_from(alloc, rest)?)),
            5 => Ok(Kind::Matching(Listed::<Pair>::read_from(alloc, rest)?)),
            6 => Ok(Kind::ShortAnswer(Listed::<Short>::read_from(alloc, rest)?)),
            7 => Ok(Kind::Numerical(Listed::<Num>::read_from(alloc, rest)?)),
            _ => Err(RecordFault::NotOne),
        }
    }

    #[tactic(auto, using(crate::proofs::Fitting::one), unfolding(crate::specs::Parts::kind_field, crate::specs::Fields::u8_field))]
    fn write_to(&self, out: &mut Vec<u8>) -> Result<(), NoMemory> {
        match self {
            Kind::Description => Ok(out.push(0)?),
            Kind::Essay => Ok(out.push(1)?),
            Kind::TrueFalse {
                right,
                on_wrong,
                on_right,
            } => write_four(&2u8, right, on_wrong, on_right, out),
            Kind::One(choices) => write_two(&3u8, choices, out),
            Kind::Several(choices) => write_two(&4u8, choices, out),
            Kind::Matching(pairs) => write_two(&5u8, pairs, out),
            Kind::ShortAnswer(answers) => write_two(&6u8, answers, out),
            Kind::Numerical(answers) => write_two(&7u8, answers, out),
        }
    }
}

impl Part for Question {
    ghost field = { question_field };

    ghost bytes = { question_bytes };

    #[tactic(auto, unfolding(crate::specs::Parts::question_field))]
    fn read_from(alloc: Global, rest: &mut &[u8]) -> Result<Question, RecordFault> {
        Ok(Question {
            name: Text::read_from(alloc, rest)?,
            text: Rich::read_from(alloc, rest)?,
            general: Rich::read_from(alloc, rest)?,
            kind: Kind::read_from(alloc, rest)?,
            penalty: Fraction::read_from(alloc, rest)?,
            hints: Listed::<Text>::read_from(alloc, rest)?,
        })
    }

    #[tactic(auto, unfolding(crate::specs::Parts::question_field))]
    fn write_to(&self, out: &mut Vec<u8>) -> Result<(), NoMemory> {
        write_six(
            &self.name,
            &self.text,
            &self.general,
            &self.kind,
            &self.penalty,
            &self.hints,
            out,
        )
    }
}

impl Part for Item {
    ghost field = { item_field };

    ghost bytes = { item_bytes };

    #[tactic(auto, unfolding(crate::specs::Parts::item_field))]
    fn read_from(alloc: Global, rest: &mut &[u8]) -> Result<Item, RecordFault> {
        Ok(Item {
            category: Listed::<Text>::read_from(alloc, rest)?,
            question: Question::read_from(alloc, rest)?,
        })
    }

    #[tactic(auto, unfolding(crate::specs::Parts::item_field))]
    fn write_to(&self, out: &mut Vec<u8>) -> Result<(), NoMemory> {
        write_two(&self.category, &self.question, out)
    }
}

impl Part for Bank {
    ghost field = { bank_field };

    ghost bytes = { bank_bytes };

    #[tactic(auto, unfolding(crate::specs::Parts::bank_field))]
    fn read_from(alloc: Global, rest: &mut &[u8]) -> Result<Bank, RecordFault> {
        Ok(Bank {
            items: Listed::<Item>::read_from(alloc, rest)?,
        })
    }

    #[tactic(auto, unfolding(crate::specs::Parts::bank_field))]
    fn write_to(&self, out: &mut Vec<u8>) -> Result<(), NoMemory> {
        self.items.write_to(out)
    }
}

impl Part for Shape {
    ghost field = { shape_field };

    ghost bytes = { shape_bytes };

    #[tactic(auto, unfolding(crate::specs::Parts::shape_field))]
    fn read_from(alloc: Global, rest: &mut &[u8]) -> Result<Shape, RecordFault> {
        Ok(Shape {
            kind: u8::read_from(alloc, rest)?,
            first: u8::read_from(alloc, rest)?,
            second: u8::read_from(alloc, rest)?,
        })
    }

    #[tactic(auto, unfolding(crate::specs::Parts::shape_field))]
    fn write_to(&self, out: &mut Vec<u8>) -> Result<(), NoMemory> {
        write_three(&self.kind, &self.first, &self.second, out)
    }
}
