//! The words of a line: numbers, attempts, tokens and keys.

ghost use Rattle.std.specs.List.{list_all};
ghost use Rattle.std.specs.Prelude.{◌≡◌, ◌≤◌, ◌∷◌, [], Some, true, MatchOption, IfSome, option_copied, option_map};
ghost use Rattle.qz_terms.specs.declared.limits.TheConstants.{GREATEST_MOMENT};
ghost use Rattle.qz_wire.specs.Brief.{IsBriefToken};
ghost use Rattle.qz_wire.specs.Numbered.{line_at as word_at};
ghost use Rattle.qz_terms.specs.Kept.{is_moment, is_duration, is_allowed, if_there};
ghost use Rattle.qz_wire.specs.Words.{parts_at, words_of, words_after, moment_of, number_of, slot_of, shard_of, certainty_of, duration_of, allowed_of, attempt_of, is_dash, is_token_byte, is_token, token_of, or_dash, key_of, Reads, IsCutAt};

use crate::lines::{number, place_of};
use qz_grading::{AttemptId, Refusal};
use qz_terms::{GREATEST_MOMENT, LONGEST_DURATION, LONGEST_KEY, MOST_ALLOWED};
use qz_text::NoMemory;

/// Why words couldn't be read.
#[derive(Clone, Copy, Debug, PartialEq, Eq)]
pub enum WordFault {
    /// The word with this number, from 1, isn't of its form, is missing, or is one too many.
    Malformed { place: u32 },
    /// Memory was wanting.
    Memory,
}

impl From<NoMemory> for WordFault {
    ghost use Rattle.qz_wire.specs.declared.words.WordFault.TheVariants as fault;

    ghost from_gives = { λ _ given. given ≡ fault.Memory };

    fn from(_: NoMemory) -> Self {
        WordFault::Memory
    }
}

impl From<WordFault> for Refusal {
    ghost use Rattle.qz_wire.specs.Faults.{refusal_of};

    ghost from_gives = { λ fault given. given ≡ refusal_of fault };

    fn from(fault: WordFault) -> Self {
        match fault {
            WordFault::Malformed { place } => Refusal::Malformed { place, rule: 0 },
            WordFault::Memory => Refusal::Memory,
        }
    }
}

/// What stands before and behind the first of these bytes.
pub fn cut(text: &[u8], byte: u8) -> Option<(&[u8], &[u8])>
    ensures { MatchOption result (parts_at byte text.now ≡ text.now ∷ []) (λ r. IsCutAt byte text.now r.0.now r.1.now) }
{
    let place = place_of(text, byte)?;
    Some((text.split_at(place).0, text.split_at(place + 1).1))
}

/// The first word of a line, and what stands behind it, from its space on.
pub fn first_word(line: &[u8]) -> (&[u8], &[u8])
    ensures { words_of line.now ≡ result.0.now ∷ words_after result.1.now }
{
    match cut(line, b' ') {
        None => (line, &[]),
        Some((word, _)) => line.split_at(word.len()),
    }
}

/// The next word, behind which `rest` then stands. It has this number, and is missing where no word is left.
pub fn next_word<'a>(rest: &mut &'a [u8], place: u32) -> Result<&'a [u8], WordFault>
    ensures { Reads (λ r. (r.now, words_after rest.new.now)) result (word_at (λ w. Some w) place (words_after rest.old.now)) }
{
    let [_, line @ ..] = *rest else {
        return Err(WordFault::Malformed { place });
    };
    let (word, behind) = first_word(line);
    *rest = behind;
    Ok(word)
}

/// The moment that a word spells, in seconds since 1970.
pub fn moment_in(word: &[u8]) -> Option<u64>
    ensures value { result ≡ moment_of word.now }
    ensures range { IfSome result (λ moment. moment ≤ GREATEST_MOMENT) }
{
    Some(u64::from(number(word, 0, GREATEST_MOMENT as u32)?))
}

/// The number of a thing.
pub fn number_in(word: &[u8]) -> Option<u32>
    ensures { result ≡ number_of word.now }
{
    number(word, 0, u32::MAX)
}

/// The number of a slot.
pub fn slot_in(word: &[u8]) -> Option<u16>
    ensures { result ≡ slot_of word.now }
{
    Some(number(word, 0, 65_535)? as u16)
}

/// The number of a shard.
pub fn shard_in(word: &[u8]) -> Option<u8>
    ensures { result ≡ shard_of word.now }
{
    Some(number(word, 0, 255)? as u8)
}

/// How certain a student is, from 0 (not given) to 3.
pub fn certainty_in(word: &[u8]) -> Option<u8>
    ensures value { result ≡ certainty_of word.now }
    ensures range { IfSome result (λ certainty. certainty ≤ 3) }
{
    Some(number(word, 0, 3)? as u8)
}

/// The time that a word spells, in seconds, at most 365 days.
pub fn duration_in(word: &[u8]) -> Option<u32>
    ensures value { result ≡ duration_of word.now }
    ensures range { IfSome result (λ seconds. is_duration seconds ≡ true) }
{
    number(word, 0, LONGEST_DURATION)
}

/// How many attempts there may be, at most 1,000.
pub fn allowed_in(word: &[u8]) -> Option<u32>
    ensures value { result ≡ allowed_of word.now }
    ensures range { IfSome result (λ allowed. is_allowed allowed ≡ true) }
{
    number(word, 0, MOST_ALLOWED)
}

/// The attempt that `USER.NTH` names.
pub fn attempt_in(word: &[u8]) -> Option<AttemptId>
    ensures { result ≡ attempt_of word.now }
{
    let (user, nth) = cut(word, b'.')?;
    if let Some(_) = cut(nth, b'.') {
        return None;
    }
    Some(AttemptId {
        user: number_in(user)?,
        nth: number_in(nth)?,
    })
}

fn is_token_byte(byte: u8) -> bool
    ensures { result ≡ is_token_byte byte }
{
    byte.is_ascii_alphanumeric() || byte == b'-' || byte == b'_'
}

fn has_token_bytes(word: &[u8]) -> bool
    ensures { result ≡ list_all is_token_byte word.now }
{
    word.iter().all(|byte| is_token_byte(*byte))
}

fn is_dash(word: &[u8]) -> bool
    ensures { result ≡ is_dash word.now }
{
    word == b"-".as_slice()
}

fn is_token(word: &[u8]) -> bool
    ensures { result ≡ is_token word.now }
{
    1 <= word.len() && word.len() <= LONGEST_KEY && has_token_bytes(word) && !is_dash(word)
}

/// The token or key that a word is.
pub fn token_in(word: &[u8]) -> Option<&str>
    ensures value { option_copied result ≡ token_of word.now }
    ensures brief { IfSome (option_copied result) IsBriefToken }
{
    if is_token(word) {
        str::from_utf8(word).ok()
    } else {
        None
    }
}

/// The key that a word is, or none for a dash.
pub fn key_in(word: &[u8]) -> Option<Option<&str>>
    ensures value { option_map (λ key. option_copied key) result ≡ key_of word.now }
    ensures brief { IfSome result (λ key. IfSome (option_copied key) IsBriefToken) }
{
    if is_dash(word) {
        return Some(None);
    }
    Some(Some(token_in(word)?))
}

// ---- what is set otherwise, or nothing for a dash

pub fn own_moment_in(word: &[u8]) -> Option<Option<u64>>
    ensures value { result ≡ or_dash moment_of word.now }
    ensures range { IfSome result (λ own. if_there is_moment own ≡ true) }
{
    if is_dash(word) {
        return Some(None);
    }
    Some(Some(moment_in(word)?))
}

pub fn own_duration_in(word: &[u8]) -> Option<Option<u32>>
    ensures value { result ≡ or_dash duration_of word.now }
    ensures range { IfSome result (λ own. if_there is_duration own ≡ true) }
{
    if is_dash(word) {
        return Some(None);
    }
    Some(Some(duration_in(word)?))
}

pub fn own_allowed_in(word: &[u8]) -> Option<Option<u32>>
    ensures value { result ≡ or_dash allowed_of word.now }
    ensures range { IfSome result (λ own. if_there is_allowed own ≡ true) }
{
    if is_dash(word) {
        return Some(None);
    }
    Some(Some(allowed_in(word)?))
}
