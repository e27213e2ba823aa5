//! Answers, steps and attempts.

ghost use Rattle.std.specs.Prelude.{◌≡◌, ◌++◌, OnOk};
ghost use Rattle.qz_terms.specs.Spelling.{answer_bytes, response_bytes, step_bytes, behaviour_bytes, attempt_bytes};
ghost use Rattle.qz_record.specs.Parts.{answer_field, response_field, step_field, behaviour_field, attempt_field};

use crate::RecordFault;
use crate::part::{Part, number_at};
use crate::writing::{write_three, write_two};
use qz_decimal::Mark;
use qz_grading::{Answer, AttemptId, Behaviour, Response, Step};
use qz_text::{Listed, NoMemory, Typed};
use std::alloc::Global;

impl Part for Answer {
    ghost field = { answer_field };

    ghost bytes = { answer_bytes };

    #[tactic(auto, unfolding(crate::specs::Parts::answer_field))]
    fn read_from(alloc: Global, rest: &mut &[u8]) -> Result<Answer, RecordFault> {
        match number_at(rest)? {
            0 => Ok(Answer::Blank),
            1 => Ok(Answer::Pick(u8::read_from(alloc, rest)?)),
            2 => Ok(Answer::Picks(Listed::<u8>::read_from(alloc, rest)?)),
            3 => Ok(Answer::Match(Listed::<u8>::read_from(alloc, rest)?)),
            4 => Ok(Answer::Words(Typed::read_from(alloc, rest)?)),
            _ => Err(RecordFault::NotOne),
        }
    }

    #[tactic(auto, using(crate::proofs::Fitting::one), unfolding(crate::specs::Parts::answer_field, crate::specs::Fields::u8_field))]
    fn write_to(&self, out: &mut Vec<u8>) -> Result<(), NoMemory> {
        match self {
            Answer::Blank => Ok(out.push(0)?),
            Answer::Pick(choice) => write_two(&1u8, choice, out),
            Answer::Picks(choices) => write_two(&2u8, choices, out),
            Answer::Match(answers) => write_two(&3u8, answers, out),
            Answer::Words(typed) => write_two(&4u8, typed, out),
        }
    }
}

impl Part for Response {
    ghost field = { response_field };

    ghost bytes = { response_bytes };

    #[tactic(auto, unfolding(crate::specs::Parts::response_field))]
    fn read_from(alloc: Global, rest: &mut &[u8]) -> Result<Response, RecordFault> {
        Ok(Response {
            answer: Answer::read_from(alloc, rest)?,
            certainty: u8::read_from(alloc, rest)?,
        })
    }

    #[tactic(auto, unfolding(crate::specs::Parts::response_field))]
    fn write_to(&self, out: &mut Vec<u8>) -> Result<(), NoMemory> {
        write_two(&self.answer, &self.certainty, out)
    }
}

impl Part for Step {
    ghost field = { step_field };

    ghost bytes = { step_bytes };

    #[tactic(auto, unfolding(crate::specs::Parts::step_field))]
    fn read_from(alloc: Global, rest: &mut &[u8]) -> Result<Step, RecordFault> {
        match number_at(rest)? {
            0 => Ok(Step::Save(Response::read_from(alloc, rest)?)),
            1 => Ok(Step::Submit(Response::read_from(alloc, rest)?)),
            2 => Ok(Step::Again),
            3 => Ok(Step::Finish),
            4 => Ok(Step::Mark {
                mark: Mark::read_from(alloc, rest)?,
                max: Mark::read_from(alloc, rest)?,
            }),
            _ => Err(RecordFault::NotOne),
        }
    }

    #[tactic(auto, using(crate::proofs::Fitting::one), unfolding(crate::specs::Parts::step_field, crate::specs::Fields::u8_field))]
    fn write_to(&self, out: &mut Vec<u8>) -> Result<(), NoMemory> {
        match self {
            Step::Save(response) => write_two(&0u8, response, out),
            Step::Submit(response) => write_two(&1u8, response, out),
            Step::Again => Ok(out.push(2)?),
            Step::Finish => Ok(out.push(3)?),
            Step::Mark { mark, max } => write_three(&4u8, mark, max, out),
        }
    }
}

impl Part for Behaviour {
    ghost field = { behaviour_field };

    ghost bytes = { behaviour_bytes };

    #[tactic(auto, unfolding(crate::specs::Parts::behaviour_field))]
    fn read_from(_alloc: Global, rest: &mut &[u8]) -> Result<Behaviour, RecordFault> {
        match number_at(rest)? {
            0 => Ok(Behaviour::Deferred),
            1 => Ok(Behaviour::Immediate),
            2 => Ok(Behaviour::Interactive),
            3 => Ok(Behaviour::Adaptive),
            4 => Ok(Behaviour::AdaptiveNoPenalty),
            5 => Ok(Behaviour::DeferredCbm),
            6 => Ok(Behaviour::ImmediateCbm),
            7 => Ok(Behaviour::Manual),
            8 => Ok(Behaviour::Information),
            _ => Err(RecordFault::NotOne),
        }
    }

    #[tactic(auto, using(crate::proofs::Fitting::behaviour_one), unfolding(crate::specs::Parts::behaviour_field))]
    fn write_to(&self, out: &mut Vec<u8>) -> Result<(), NoMemory> {
        let number = match self {
            Behaviour::Deferred => 0,
            Behaviour::Immediate => 1,
            Behaviour::Interactive => 2,
            Behaviour::Adaptive => 3,
            Behaviour::AdaptiveNoPenalty => 4,
            Behaviour::DeferredCbm => 5,
            Behaviour::ImmediateCbm => 6,
            Behaviour::Manual => 7,
            Behaviour::Information => 8,
        };
        Ok(out.push(number)?)
    }
}

impl Part for AttemptId {
    ghost field = { attempt_field };

    ghost bytes = { attempt_bytes };

    #[tactic(auto, unfolding(crate::specs::Parts::attempt_field))]
    fn read_from(alloc: Global, rest: &mut &[u8]) -> Result<AttemptId, RecordFault> {
        Ok(AttemptId {
            user: u32::read_from(alloc, rest)?,
            nth: u32::read_from(alloc, rest)?,
        })
    }

    #[tactic(auto, unfolding(crate::specs::Parts::attempt_field))]
    fn write_to(&self, out: &mut Vec<u8>) -> Result<(), NoMemory> {
        write_two(&self.user, &self.nth, out)
    }
}
