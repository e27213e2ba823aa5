//! What a line of a script asks.

ghost use Rattle.std.specs.Prelude.{◌≤◌, IfOk, IfSome};
ghost use Rattle.qz_terms.specs.declared.limits.TheConstants.{GREATEST_MOMENT};
ghost use Rattle.qz_wire.specs.Asking.{verb_of, ask_of, CanBeAsked, IsOfVerb};
ghost use Rattle.qz_wire.specs.Brief.{IsBriefToken};
ghost use Rattle.qz_wire.specs.Faults.{ReadsOr};
ghost use Rattle.qz_wire.specs.Numbered.{line_at as word_at};
ghost use Rattle.qz_wire.specs.Requests.{request_of};
ghost use Rattle.qz_wire.specs.Words.{words_of, words_after, moment_of, key_of, Reads};

use crate::arguments::{malformed, token_at};
use crate::attempt_requests::{
    again, finish, grade, live, mark, page, report, save, settle, start, submit, total, view, work,
};
use crate::catalog_requests::{
    bank, edit, group, import, jobs, member, policy, quiz, ready, regrade, remax, set_otherwise,
    slot, times, tune, user,
};
use crate::verbs::{Verb, takes_key, verb_in};
use crate::words::{WordFault, first_word, key_in, moment_in, next_word};
use qz_grading::Refusal;
use qz_terms::{Ask, Caller, Request};
use qz_text::Text;
use std::alloc::Global;

/// The request that the words behind a command make of it; each word stands behind a space.
///
/// `Malformed` and `Memory` are as in `ask_of_line`, and no other refusal comes.
pub fn request(alloc: Global, verb: Verb, rest: &[u8]) -> Result<Request, Refusal>
    ensures value { ReadsOr (λ x. x) result (request_of verb (words_after rest.now)) }
    ensures verb { IfOk result (IsOfVerb verb) }
{
    match verb {
        Verb::User => Ok(user(alloc, rest)?),
        Verb::Group => Ok(group(alloc, rest)?),
        Verb::Member => Ok(member(rest)?),
        Verb::Import => import(alloc, rest),
        Verb::Edit => edit(alloc, rest),
        Verb::Tune => Ok(tune(alloc, rest)?),
        Verb::Quiz => Ok(quiz(alloc, rest)?),
        Verb::Slot => Ok(slot(rest)?),
        Verb::Ready => Ok(ready(rest)?),
        Verb::Remax => Ok(remax(rest)?),
        Verb::Policy => Ok(policy(rest)?),
        Verb::Times => Ok(times(rest)?),
        Verb::Override => Ok(set_otherwise(rest)?),
        Verb::Regrade => Ok(regrade(rest)?),
        Verb::Start => Ok(start(rest)?),
        Verb::Save => Ok(save(alloc, rest)?),
        Verb::Submit => Ok(submit(alloc, rest)?),
        Verb::Again => Ok(again(rest)?),
        Verb::Finish => Ok(finish(rest)?),
        Verb::Mark => Ok(mark(rest)?),
        Verb::Work => Ok(work(rest)?),
        Verb::Settle => Ok(settle(rest)?),
        Verb::Live => Ok(live(rest)?),
        Verb::Jobs => Ok(jobs(rest)?),
        Verb::View => Ok(view(rest)?),
        Verb::Total => Ok(total(rest)?),
        Verb::Page => Ok(page(rest)?),
        Verb::Grade => Ok(grade(rest)?),
        Verb::Report => Ok(report(rest)?),
        Verb::Bank => Ok(bank(rest)?),
    }
}

fn first_moment<'a>(line: &'a [u8]) -> Result<(u64, &'a [u8]), WordFault>
    ensures value { Reads (λ r. (r.0, words_after r.1.now)) result (word_at moment_of 1 (words_of line.now)) }
    ensures range { IfOk result (λ r. r.0 ≤ GREATEST_MOMENT) }
{
    let (word, rest) = first_word(line);
    match moment_in(word) {
        Some(moment) => Ok((moment, rest)),
        None => Err(malformed(1)),
    }
}

fn key_at(alloc: Global, rest: &mut &[u8]) -> Result<Option<Text>, WordFault>
    ensures value { Reads (λ x. (x, words_after rest.new.now)) result (word_at key_of 3 (words_after rest.old.now)) }
    ensures brief { IfOk result (λ key. IfSome key IsBriefToken) }
{
    match key_in(next_word(rest, 3)?) {
        Some(Some(key)) => Ok(Some(Text::of(alloc, key)?)),
        Some(None) => Ok(None),
        None => Err(malformed(3)),
    }
}

fn verb_at(rest: &mut &[u8]) -> Result<Verb, WordFault>
    ensures { Reads (λ x. (x, words_after rest.new.now)) result (word_at verb_of 4 (words_after rest.old.now)) }
{
    match verb_in(next_word(rest, 4)?) {
        Some(verb) => Ok(verb),
        None => Err(malformed(4)),
    }
}

/// The moment and the request of a line.
///
/// `Malformed` is the first fault in the order of the words: the number of a word that isn't of its form, is missing or is one
/// too many, with rule 0; or of a GIFT text its line and the rule that the line breaks. The text of an import or edit that is
/// too long breaks rule 2 at line 1, and that of an edit without exactly one question rule 12. Only want of memory may stand in
/// the place of an answer, as `Memory`; no other refusal comes.
#[tactic(auto, unfolding(crate::specs::Asking::ask_of))]
pub fn ask_of_line(alloc: Global, line: &[u8]) -> Result<(u64, Ask), Refusal>
    ensures value { ReadsOr (λ x. x) result (ask_of (words_of line.now)) }
    ensures asked { IfOk result (λ x. CanBeAsked x.1 x.0) }
{
    let (moment, mut rest) = first_moment(line)?;
    let token = token_at(alloc, &mut rest, 2)?;
    let key = key_at(alloc, &mut rest)?;
    let verb = verb_at(&mut rest)?;
    if !takes_key(verb, &key) {
        return Err(Refusal::Malformed { place: 3, rule: 0 });
    }
    Ok((
        moment,
        Ask {
            caller: Caller::Token(token),
            key,
            request: request(alloc, verb, rest)?,
        },
    ))
}
