//! The commands of lines.

ghost use Rattle.std.specs.Prelude.{◌≡◌};
ghost use Rattle.qz_wire.specs.Asking.{attempt_verb_of, verb_of, takes_key};

use qz_text::Text;

/// The commands of requests.
#[derive(Clone, Copy, PartialEq, Eq)]
pub enum Verb {
    User,
    Group,
    Member,
    Import,
    Edit,
    Tune,
    Quiz,
    Slot,
    Ready,
    Remax,
    Policy,
    Times,
    Override,
    Regrade,
    Start,
    Save,
    Submit,
    Again,
    Finish,
    Mark,
    Work,
    Settle,
    Live,
    Jobs,
    View,
    Total,
    Page,
    Grade,
    Report,
    Bank,
}

/// The command that a word is.
pub fn verb_in(word: &[u8]) -> Option<Verb>
    ensures { result ≡ verb_of word.now }
{
    if word == b"user".as_slice() {
        Some(Verb::User)
    } else if word == b"group".as_slice() {
        Some(Verb::Group)
    } else if word == b"member".as_slice() {
        Some(Verb::Member)
    } else if word == b"import".as_slice() {
        Some(Verb::Import)
    } else if word == b"edit".as_slice() {
        Some(Verb::Edit)
    } else if word == b"tune".as_slice() {
        Some(Verb::Tune)
    } else if word == b"quiz".as_slice() {
        Some(Verb::Quiz)
    } else if word == b"slot".as_slice() {
        Some(Verb::Slot)
    } else if word == b"ready".as_slice() {
        Some(Verb::Ready)
    } else if word == b"remax".as_slice() {
        Some(Verb::Remax)
    } else if word == b"policy".as_slice() {
        Some(Verb::Policy)
    } else if word == b"times".as_slice() {
        Some(Verb::Times)
    } else if word == b"override".as_slice() {
        Some(Verb::Override)
    } else if word == b"regrade".as_slice() {
        Some(Verb::Regrade)
    } else if word == b"jobs".as_slice() {
        Some(Verb::Jobs)
    } else if word == b"bank".as_slice() {
        Some(Verb::Bank)
    } else {
        attempt_verb_in(word)
    }
}

/// The command about an attempt or a grade that a word is.
fn attempt_verb_in(word: &[u8]) -> Option<Verb>
    ensures { result ≡ attempt_verb_of word.now }
{
    if word == b"start".as_slice() {
        Some(Verb::Start)
    } else if word == b"save".as_slice() {
        Some(Verb::Save)
    } else if word == b"submit".as_slice() {
        Some(Verb::Submit)
    } else if word == b"again".as_slice() {
        Some(Verb::Again)
    } else if word == b"finish".as_slice() {
        Some(Verb::Finish)
    } else if word == b"mark".as_slice() {
        Some(Verb::Mark)
    } else if word == b"work".as_slice() {
        Some(Verb::Work)
    } else if word == b"settle".as_slice() {
        Some(Verb::Settle)
    } else if word == b"live".as_slice() {
        Some(Verb::Live)
    } else if word == b"view".as_slice() {
        Some(Verb::View)
    } else if word == b"total".as_slice() {
        Some(Verb::Total)
    } else if word == b"page".as_slice() {
        Some(Verb::Page)
    } else if word == b"grade".as_slice() {
        Some(Verb::Grade)
    } else if word == b"report".as_slice() {
        Some(Verb::Report)
    } else {
        None
    }
}

/// Whether a request takes this key, or none.
pub fn takes_key(verb: Verb, key: &Option<Text>) -> bool
    ensures { result ≡ takes_key verb key.now }
{
    match verb {
        Verb::Work
        | Verb::Settle
        | Verb::Live
        | Verb::Jobs
        | Verb::View
        | Verb::Total
        | Verb::Page
        | Verb::Grade
        | Verb::Report
        | Verb::Bank => key.is_none(),
        Verb::User
        | Verb::Group
        | Verb::Member
        | Verb::Import
        | Verb::Edit
        | Verb::Tune
        | Verb::Quiz
        | Verb::Slot
        | Verb::Ready
        | Verb::Remax
        | Verb::Policy
        | Verb::Times
        | Verb::Override
        | Verb::Regrade
        | Verb::Start
        | Verb::Save
        | Verb::Submit
        | Verb::Again
        | Verb::Finish
        | Verb::Mark => key.is_some(),
    }
}
