//! The words that states, behaviours and kinds are told by.

ghost use Rattle.std.specs.Prelude.{◌≡◌};
ghost use Rattle.qz_grading.specs.Canonical.{format_mark};
ghost use Rattle.qz_grading.specs.Words.{state_word, behaviour_word, kind_word};

use crate::{Behaviour, Format, Shape, State};

impl State {
    /// The state's name in lower case without a break.
    pub fn word(self) -> &'static str
        ensures { result.now ≡ state_word self }
    {
        match self {
            State::Todo => "todo",
            State::Complete => "complete",
            State::Invalid => "invalid",
            State::NeedsGrading => "needsgrading",
            State::Finished => "finished",
            State::GaveUp => "gaveup",
            State::GradedWrong => "gradedwrong",
            State::GradedPartial => "gradedpartial",
            State::GradedRight => "gradedright",
            State::MangrWrong => "mangrwrong",
            State::MangrPartial => "mangrpartial",
            State::MangrRight => "mangrright",
        }
    }
}

impl Behaviour {
    /// The behaviour's name in lower case without a break, as Moodle names its plugin.
    pub fn word(self) -> &'static str
        ensures { result.now ≡ behaviour_word self }
    {
        match self {
            Behaviour::Deferred => "deferredfeedback",
            Behaviour::Immediate => "immediatefeedback",
            Behaviour::Interactive => "interactive",
            Behaviour::Adaptive => "adaptive",
            Behaviour::AdaptiveNoPenalty => "adaptivenopenalty",
            Behaviour::DeferredCbm => "deferredcbm",
            Behaviour::ImmediateCbm => "immediatecbm",
            Behaviour::Manual => "manualgraded",
            Behaviour::Information => "informationitem",
        }
    }
}

impl Shape {
    /// The word of the kind.
    pub fn kind_word(self) -> &'static str
        ensures { result.now ≡ kind_word self.kind }
    {
        match self.kind {
            0 => "description",
            1 => "essay",
            2 => "truefalse",
            3 => "choice",
            4 => "choices",
            5 => "match",
            6 => "shortanswer",
            _ => "numerical",
        }
    }
}

impl Format {
    /// The sign that stands before a text of this format in GIFT, as Moodle's manual page "GIFT format" gives it.
    pub fn sign(self) -> &'static str
        ensures { result.now ≡ format_mark self }
    {
        match self {
            Format::Moodle => "[moodle]",
            Format::Html => "[html]",
            Format::Plain => "[plain]",
            Format::Markdown => "[markdown]",
        }
    }
}
