//! How much of a room for bytes the record of an import takes up. No byte is written.
//!
//! Each function here is told the room and gives what is left of it behind one part of the record, where the part fits.

ghost use Rattle.std.specs.Prelude.{◌≡◌, ℕ, List, length, flat_map, nat_le};
ghost use Rattle.qz_grading.specs.Room.{LeftBehind};
ghost use Rattle.qz_terms.specs.declared.limits.TheConstants.{MOST_RECORD};
ghost use Rattle.qz_terms.specs.Spelling.{text_bytes, list_bytes, option_bytes, rich_bytes, choice_bytes, pair_bytes, short_bytes, extent_bytes, num_bytes, kind_bytes, question_bytes, item_bytes, bank_bytes, spelling};
ghost use Rattle.qz_terms.specs.declared.request.Request.TheVariants as request;
ghost use Rattle.qz_catalog.specs.Applying.{stand_in};

use qz_grading::{Bank, Choice, Extent, Item, Kind, Num, Pair, Question, Rich, Short};
use qz_terms::MOST_RECORD;
use qz_text::Text;
/// So many bytes a number of 32 bits takes up, and with it the length of a text and the count of a list.
const FOUR: usize = 4;

/// So many bytes a weight or a penalty takes up.
const EIGHT: usize = 8;

/// So many bytes a number with decimals takes up.
const SIXTEEN: usize = 16;

// ---- texts and lists

fn behind_text(room: usize, text: &[u8]) -> Option<usize>
    ensures { LeftBehind (length (text_bytes text.now)) room result }
{
    room.checked_sub(FOUR)?.checked_sub(text.len())
}

fn behind_rich(room: usize, rich: &Rich) -> Option<usize>
    ensures { LeftBehind (length (rich_bytes rich.now)) room result }
{
    behind_text(room.checked_sub(1)?, rich.text.as_bytes())
}

/// What a list holds that has bytes of its own.
trait Spelled {
    ghost bytes: { Self → List ℕ };

    /// Behind its bytes.
    fn behind(&self, room: usize) -> Option<usize>
        ensures { LeftBehind (length (bytes self.now)) room result };
}

/// Behind items, one after the other.
fn behind_items<I: Spelled>(room: usize, items: &[I]) -> Option<usize>
    ensures { LeftBehind (length (flat_map I.bytes items.now)) room result }
{
    let mut left = room;
    let mut rest = items;
    while let [item, after @ ..] = rest {
        left = item.behind(left)?;
        rest = after;
    }
    Some(left)
}

/// Behind the count of a list and its items.
fn behind_list<I: Spelled>(room: usize, items: &[I]) -> Option<usize>
    ensures { LeftBehind (length (list_bytes I.bytes items.now)) room result }
{
    behind_items(room.checked_sub(FOUR)?, items)
}

// ---- questions

impl Spelled for Text {
    ghost bytes = { text_bytes };

    fn behind(&self, room: usize) -> Option<usize> {
        behind_text(room, self.as_bytes())
    }
}

impl Spelled for Choice {
    ghost bytes = { choice_bytes };

    fn behind(&self, room: usize) -> Option<usize> {
        let left = behind_rich(room.checked_sub(EIGHT)?, &self.text)?;
        behind_rich(left, &self.feedback)
    }
}

impl Spelled for Pair {
    ghost bytes = { pair_bytes };

    fn behind(&self, room: usize) -> Option<usize> {
        let left = behind_rich(room, &self.stem)?;
        behind_text(left, self.answer.as_bytes())
    }
}

impl Spelled for Short {
    ghost bytes = { short_bytes };

    fn behind(&self, room: usize) -> Option<usize> {
        let left = room.checked_sub(EIGHT)?;
        let left = behind_text(left, self.pattern.text().as_bytes())?;
        behind_rich(left, &self.feedback)
    }
}

/// The length of a numerical answer's extent.
fn extent_len(extent: Extent) -> usize
    ensures { result ≡ length (extent_bytes extent) }
{
    match extent {
        Extent::Any => 1,
        Extent::Near { .. } | Extent::Between { .. } => 1 + 2 * SIXTEEN,
    }
}

impl Spelled for Num {
    ghost bytes = { num_bytes };

    fn behind(&self, room: usize) -> Option<usize> {
        let left = room
            .checked_sub(EIGHT)?
            .checked_sub(extent_len(self.extent))?;
        behind_rich(left, &self.feedback)
    }
}

fn behind_kind(room: usize, kind: &Kind) -> Option<usize>
    ensures { LeftBehind (length (kind_bytes kind.now)) room result }
{
    let left = room.checked_sub(1)?;
    match kind {
        Kind::Description | Kind::Essay => Some(left),
        Kind::TrueFalse {
            on_wrong,
            on_right,
            ..
        } => behind_rich(behind_rich(left.checked_sub(1)?, on_wrong)?, on_right),
        Kind::One(choices) | Kind::Several(choices) => behind_list(left, choices.as_slice()),
        Kind::Matching(pairs) => behind_list(left, pairs.as_slice()),
        Kind::ShortAnswer(answers) => behind_list(left, answers.as_slice()),
        Kind::Numerical(answers) => behind_list(left, answers.as_slice()),
    }
}

fn behind_question(room: usize, question: &Question) -> Option<usize>
    ensures { LeftBehind (length (question_bytes question.now)) room result }
{
    let left = behind_text(room, question.name.as_bytes())?;
    let left = behind_rich(left, &question.text)?;
    let left = behind_rich(left, &question.general)?;
    let left = behind_kind(left, &question.kind)?;
    behind_list(left.checked_sub(EIGHT)?, question.hints.as_slice())
}

impl Spelled for Item {
    ghost bytes = { item_bytes };

    fn behind(&self, room: usize) -> Option<usize> {
        let left = behind_list(room, self.category.as_slice())?;
        behind_question(left, &self.question)
    }
}

// ---- the record of an import

fn behind_key(room: usize, key: &Option<Text>) -> Option<usize>
    ensures { LeftBehind (length (option_bytes text_bytes key.now)) room result }
{
    let left = room.checked_sub(1)?;
    match key {
        Some(key) => behind_text(left, key.as_bytes()),
        None => Some(left),
    }
}

/// Behind the record of an import under this key. Its moment, its caller and its owner take up the same bytes whatever they
/// are, and terms that aren't there, the event and the request one each.
fn behind_import(room: usize, key: &Option<Text>, gift: &Bank) -> Option<usize>
    ensures { LeftBehind (length (spelling (stand_in key.now (request.Import gift.now)))) room result }
{
    let left = behind_key(room.checked_sub(EIGHT + 2 * FOUR)?, key)?;
    behind_list(left.checked_sub(3)?, gift.items.as_slice())
}

/// Whether the record of an import under this key isn't too long. It takes no memory, and reads no further than the greatest
/// length goes.
pub(crate) fn import_fits(key: &Option<Text>, gift: &Bank) -> bool
    ensures { result ≡ nat_le (length (spelling (stand_in key.now (request.Import gift.now)))) MOST_RECORD }
{
    behind_import(MOST_RECORD, key, gift).is_some()
}
