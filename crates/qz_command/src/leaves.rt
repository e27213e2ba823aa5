//! Words that stand behind a first word, as many as the command takes, read by the parser of command lines.

ghost use Rattle.std.specs.Prelude.{◌≡◌, [], ◌∷◌, IfOk, true, false, Some, is_some};
ghost use Rattle.clap.specs.Words.{app_of, first_value, found_of, is_simple_and_free, rule_of};
ghost use Rattle.clap.specs.Walk.{texts};
ghost use Rattle.qz_command.specs.Flags.{has_flag};
ghost use Rattle.qz_command.specs.Readings.{Reads, so_many};
ghost use Rattle.qz_command.specs.Leaves.{Parses, words_app, word_rule};

use crate::WordsFault;
use clap::error::ErrorKind;
use clap::{Arg, ArgMatches, Command};
use std::alloc::{AllocError, Global};

/// A word that has to be there.
fn word<'a>(alloc: Global, id: &'a str) -> Arg<'a>
    ensures rule { rule_of result ≡ word_rule id.entry.now }
    ensures local { result.global ≡ false }
{
    Arg::new(alloc, id).required(true)
}

/// A command that takes words of these names, and no flag.
fn leaf<'a>(alloc: Global, name: &'a str, ids: &[&'a str]) -> Result<Command<'a>, AllocError>
    ensures { IfOk result (λ made. app_of made ≡ words_app name.entry.now (texts ids.now)) }
{
    let mut command = Command::new(alloc, name)
        .no_binary_name(true)
        .disable_help_flag(true);
    for id in ids {
        command = command.arg(word(alloc, id))?;
    }
    Ok(command)
}

/// What the parser finds in the words of such a command.
fn parsed<'a>(
    alloc: Global,
    name: &'a str,
    ids: &[&'a str],
    words: &'a [&'a str],
) -> Result<ArgMatches<'a>, WordsFault>
    requires { is_simple_and_free (words_app name.now (texts ids.now)) ≡ true }
    ensures { Parses (words_app name.entry.now (texts ids.now)) (texts words.entry.now) result }
{
    let command = leaf(alloc, name, ids)?;
    match command.try_get_matches_from(words) {
        Ok(matches) => Ok(matches),
        Err(error) => match error.kind() {
            ErrorKind::OutOfMemory => Err(WordsFault::Memory),
            _ => Err(WordsFault::BadWords),
        },
    }
}

/// The word of this name, which was found.
fn value<'a>(matches: &ArgMatches<'a>, id: &str) -> &'a str
    requires { is_some (first_value (found_of matches.now) id.now) ≡ true }
    ensures { Some result.now ≡ first_value (found_of matches.now) id.now }
{
    match matches.get_str(id) {
        Some(word) => word,
        None => unreachable!(),
    }
}

/// No word at all.
pub fn words_of_replay(alloc: Global, words: &[&str]) -> Result<(), WordsFault>
    requires { has_flag (texts words.now) ≡ false }
    ensures { Reads (λ _. []) result (so_many 0 (texts words.entry.now)) }
{
    match parsed(alloc, "replay", &[], words) {
        Ok(matches) => {
            drop(matches);
            Ok(())
        }
        Err(fault) => Err(fault),
    }
}

/// One word.
pub fn one_word<'a>(
    alloc: Global,
    name: &'static str,
    words: &'a [&'a str],
) -> Result<&'a str, WordsFault>
    requires { has_flag (texts words.now) ≡ false }
    ensures { Reads (λ r. r.now ∷ []) result (so_many 1 (texts words.entry.now)) }
{
    match parsed(alloc, name, &["word"], words) {
        Ok(matches) => Ok(value(&matches, "word")),
        Err(fault) => Err(fault),
    }
}

/// Two words.
pub fn two_words<'a>(
    alloc: Global,
    name: &'static str,
    words: &'a [&'a str],
) -> Result<(&'a str, &'a str), WordsFault>
    requires { has_flag (texts words.now) ≡ false }
    ensures { Reads (λ r. r.0.now ∷ r.1.now ∷ []) result (so_many 2 (texts words.entry.now)) }
{
    match parsed(alloc, name, &["first", "second"], words) {
        Ok(matches) => Ok((value(&matches, "first"), value(&matches, "second"))),
        Err(fault) => Err(fault),
    }
}

/// Three words.
pub fn three_words<'a>(
    alloc: Global,
    name: &'static str,
    words: &'a [&'a str],
) -> Result<(&'a str, &'a str, &'a str), WordsFault>
    requires { has_flag (texts words.now) ≡ false }
    ensures { Reads (λ r. r.0.now ∷ r.1.now ∷ r.2.now ∷ []) result
        (so_many 3 (texts words.entry.now)) }
{
    match parsed(alloc, name, &["first", "second", "third"], words) {
        Ok(matches) => Ok((
            value(&matches, "first"),
            value(&matches, "second"),
            value(&matches, "third"),
        )),
        Err(fault) => Err(fault),
    }
}

/// Four words.
pub fn four_words<'a>(
    alloc: Global,
    name: &'static str,
    words: &'a [&'a str],
) -> Result<(&'a str, &'a str, &'a str, &'a str), WordsFault>
    requires { has_flag (texts words.now) ≡ false }
    ensures { Reads (λ r. r.0.now ∷ r.1.now ∷ r.2.now ∷ r.3.now ∷ []) result
        (so_many 4 (texts words.entry.now)) }
{
    match parsed(alloc, name, &["first", "second", "third", "fourth"], words) {
        Ok(matches) => Ok((
            value(&matches, "first"),
            value(&matches, "second"),
            value(&matches, "third"),
            value(&matches, "fourth"),
        )),
        Err(fault) => Err(fault),
    }
}

/// Five words.
pub fn five_words<'a>(
    alloc: Global,
    name: &'static str,
    words: &'a [&'a str],
) -> Result<(&'a str, &'a str, &'a str, &'a str, &'a str), WordsFault>
    requires { has_flag (texts words.now) ≡ false }
    ensures { Reads (λ r. r.0.now ∷ r.1.now ∷ r.2.now ∷ r.3.now ∷ r.4.now ∷ []) result
        (so_many 5 (texts words.entry.now)) }
{
    match parsed(
        alloc,
        name,
        &["first", "second", "third", "fourth", "fifth"],
        words,
    ) {
        Ok(matches) => Ok((
            value(&matches, "first"),
            value(&matches, "second"),
            value(&matches, "third"),
            value(&matches, "fourth"),
            value(&matches, "fifth"),
        )),
        Err(fault) => Err(fault),
    }
}
