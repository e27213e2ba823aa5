//! The command that the words of the command line name.

ghost use Rattle.clap.specs.Walk.{texts};
ghost use Rattle.qz_command.specs.Commands.{IsInRange, IsServing, command_by, command_of};
ghost use Rattle.qz_command.specs.Commands.{audit_of, bulk_by, bulk_of, found_by, found_of};
ghost use Rattle.qz_command.specs.Commands.{gift_by, gift_of, poll_by, poll_of, replay_of};
ghost use Rattle.qz_command.specs.Commands.{script_by, script_of, serve_of, serving_by, serving_of};
ghost use Rattle.qz_command.specs.Commands.{sql_by, sql_of, sqlopen_by, sqlopen_of, stats_by, stats_of};
ghost use Rattle.qz_command.specs.Flags.{has_flag, is_flag};
ghost use Rattle.qz_command.specs.Readings.{Reads};
ghost use Rattle.std.specs.Prelude.{◌≡◌, IfOk, false};

use crate::WordsFault;
use crate::leaves::{five_words, four_words, one_word, three_words, two_words, words_of_replay};
use crate::values::{folder_in, number_in, token_text};
use qz_text::Text;
use std::alloc::{AllocError, Global};

/// Links are served over the school in a folder, at a port from 1 to 65,535, by 1 to 16 workers beside 0 to 8 regraders, until each
/// worker took so many, from 1 to 1,000,000,000.
#[derive(Drop)]
pub struct Serving {
    pub folder: Text,
    pub port: u16,
    pub workers: u8,
    pub regraders: u8,
    pub links: u32,
}

/// A command of the program.
#[derive(Drop)]
pub enum Command {
    /// The steps of one slot are replayed.
    Replay,
    /// A GIFT text is read, and its questions counted.
    GiftCheck,
    /// A GIFT text is laid out anew.
    GiftFormat,
    /// The requests of a script are answered over the school in a folder, whose name has 1 to 4,096 bytes.
    Script {
        folder: Text,
    },
    /// A school is founded in a folder, with 1 to 64 shards and a manager who has this token, of 1 to 64 bytes.
    Found {
        folder: Text,
        shards: u8,
        token: Text,
    },
    /// Links are served.
    Serve(Serving),
    /// A school of so many students is made in memory, from 1 to 2,000.
    Bulk {
        count: u32,
    },
    /// It is told how each slot of a quiz was answered, over the school in a folder, by 1 to 16 workers.
    Stats {
        folder: Text,
        quiz: u32,
        workers: u8,
    },
    /// Links are served, and what is asked is noted, so that each new record is found to be somebody's.
    Audit(Serving),
    /// Links are served by one thread over the school in a folder, at a port from 1 to 65,535, until so many were taken, from 1 to
    /// 1,000,000,000, and so many at once, from 1 to 1,000.
    Poll {
        folder: Text,
        port: u16,
        links: u32,
        visits: u16,
    },
    /// The requests of a script are answered over the school in a folder's two databases. Where they hold none it is founded, with one shard
    /// and a manager who has this token, of 1 to 64 bytes.
    Sql {
        folder: Text,
        token: Text,
    },
    /// The attempts at a quiz that wait are read from the shard's database in a folder.
    SqlOpen {
        folder: Text,
        quiz: u32,
    },
}

/// The command that these words are.
///
/// # Errors
///
/// `BadWords` for words that are no command, and `Memory` where memory was wanting, whatever the words are.
pub fn command_of(alloc: Global, words: &[Text]) -> Result<Command, WordsFault>
    ensures value { Reads (λ c. c) result (command_of words.now) }
    ensures range { IfOk result IsInRange }
{
    let [first, rest @ ..] = words else {
        return Err(WordsFault::BadWords);
    };
    if has_flag(words) {
        return Err(WordsFault::BadWords);
    }
    let rest = strs_of(alloc, rest)?;
    command_by(alloc, first.as_str(), rest.as_slice())
}

fn is_flag(word: &Text) -> bool
    ensures { result ≡ is_flag word.now }
{
    match word.as_bytes() {
        [first, ..] => *first == b'-',
        [] => false,
    }
}

fn has_flag(words: &[Text]) -> bool
    ensures { result ≡ has_flag words.now }
{
    words.iter().any(is_flag)
}

/// The words as the parser of command lines takes them.
fn strs_of(alloc: Global, words: &[Text]) -> Result<Vec<&str>, AllocError>
    ensures { IfOk result (λ strs. texts strs.items ≡ words.now) }
{
    let mut strs = Vec::new(alloc);
    for word in words {
        strs.push(word.as_str())?;
    }
    Ok(strs)
}

/// The command that begins with this word.
fn command_by(alloc: Global, first: &str, rest: &[&str]) -> Result<Command, WordsFault>
    requires { has_flag (texts rest.now) ≡ false }
    ensures value { Reads (λ c. c) result (command_by first.now (texts rest.now)) }
    ensures range { IfOk result IsInRange }
{
    match first {
        "replay" => replay(alloc, rest),
        "gift" => gift(alloc, rest),
        "script" => script(alloc, rest),
        "found" => found(alloc, rest),
        "serve" => serve(alloc, rest),
        "bulk" => bulk(alloc, rest),
        "stats" => stats(alloc, rest),
        "audit" => audit(alloc, rest),
        "poll" => poll(alloc, rest),
        "sql" => sql(alloc, rest),
        "sqlopen" => sqlopen(alloc, rest),
        _ => Err(WordsFault::BadWords),
    }
}

fn replay(alloc: Global, words: &[&str]) -> Result<Command, WordsFault>
    requires { has_flag (texts words.now) ≡ false }
    ensures value { Reads (λ c. c) result (replay_of (texts words.now)) }
    ensures range { IfOk result IsInRange }
{
    words_of_replay(alloc, words)?;
    Ok(Command::Replay)
}

fn gift(alloc: Global, words: &[&str]) -> Result<Command, WordsFault>
    requires { has_flag (texts words.now) ≡ false }
    ensures value { Reads (λ c. c) result (gift_of (texts words.now)) }
    ensures range { IfOk result IsInRange }
{
    let word = one_word(alloc, "gift", words)?;
    gift_by(word)
}

fn gift_by(word: &str) -> Result<Command, WordsFault>
    ensures value { Reads (λ c. c) result (gift_by word.now) }
    ensures range { IfOk result IsInRange }
{
    match word {
        "check" => Ok(Command::GiftCheck),
        "fmt" => Ok(Command::GiftFormat),
        _ => Err(WordsFault::BadWords),
    }
}

fn script(alloc: Global, words: &[&str]) -> Result<Command, WordsFault>
    requires { has_flag (texts words.now) ≡ false }
    ensures value { Reads (λ c. c) result (script_of (texts words.now)) }
    ensures range { IfOk result IsInRange }
{
    let word = one_word(alloc, "script", words)?;
    script_by(alloc, word)
}

fn script_by(alloc: Global, word: &str) -> Result<Command, WordsFault>
    ensures value { Reads (λ c. c) result (script_by word.now) }
    ensures range { IfOk result IsInRange }
{
    let folder = folder_in(alloc, word)?;
    Ok(Command::Script { folder })
}

fn found(alloc: Global, words: &[&str]) -> Result<Command, WordsFault>
    requires { has_flag (texts words.now) ≡ false }
    ensures value { Reads (λ c. c) result (found_of (texts words.now)) }
    ensures range { IfOk result IsInRange }
{
    let (folder, shards, token) = three_words(alloc, "found", words)?;
    found_by(alloc, folder, shards, token)
}

fn found_by(alloc: Global, folder: &str, shards: &str, token: &str) -> Result<Command, WordsFault>
    ensures value { Reads (λ c. c) result (found_by folder.now shards.now token.now) }
    ensures range { IfOk result IsInRange }
{
    let shards = number_in(shards, 1, 64)?;
    let folder = folder_in(alloc, folder)?;
    let token = token_text(alloc, token)?;
    Ok(Command::Found {
        folder,
        shards: shards as u8,
        token,
    })
}

/// What the words behind the name of a command that serves say.
fn read_serving(alloc: Global, name: &'static str, words: &[&str]) -> Result<Serving, WordsFault>
    requires { has_flag (texts words.now) ≡ false }
    ensures value { Reads (λ s. s) result (serving_of (texts words.now)) }
    ensures range { IfOk result IsServing }
{
    let (folder, port, workers, regraders, links) = five_words(alloc, name, words)?;
    serving_by(alloc, folder, port, workers, regraders, links)
}

fn serving_by(
    alloc: Global,
    folder: &str,
    port: &str,
    workers: &str,
    regraders: &str,
    links: &str,
) -> Result<Serving, WordsFault>
    ensures value { Reads (λ s. s) result
        (serving_by folder.now port.now workers.now regraders.now links.now) }
    ensures range { IfOk result IsServing }
{
    let port = number_in(port, 1, 65_535)?;
    let workers = number_in(workers, 1, 16)?;
    let regraders = number_in(regraders, 0, 8)?;
    let links = number_in(links, 1, 1_000_000_000)?;
    let folder = folder_in(alloc, folder)?;
    Ok(Serving {
        folder,
        port: port as u16,
        workers: workers as u8,
        regraders: regraders as u8,
        links,
    })
}

fn serve(alloc: Global, words: &[&str]) -> Result<Command, WordsFault>
    requires { has_flag (texts words.now) ≡ false }
    ensures value { Reads (λ c. c) result (serve_of (texts words.now)) }
    ensures range { IfOk result IsInRange }
{
    Ok(Command::Serve(read_serving(alloc, "serve", words)?))
}

fn bulk(alloc: Global, words: &[&str]) -> Result<Command, WordsFault>
    requires { has_flag (texts words.now) ≡ false }
    ensures value { Reads (λ c. c) result (bulk_of (texts words.now)) }
    ensures range { IfOk result IsInRange }
{
    let word = one_word(alloc, "bulk", words)?;
    bulk_by(word)
}

fn bulk_by(word: &str) -> Result<Command, WordsFault>
    ensures value { Reads (λ c. c) result (bulk_by word.now) }
    ensures range { IfOk result IsInRange }
{
    let count = number_in(word, 1, 2000)?;
    Ok(Command::Bulk { count })
}

fn stats(alloc: Global, words: &[&str]) -> Result<Command, WordsFault>
    requires { has_flag (texts words.now) ≡ false }
    ensures value { Reads (λ c. c) result (stats_of (texts words.now)) }
    ensures range { IfOk result IsInRange }
{
    let (folder, quiz, workers) = three_words(alloc, "stats", words)?;
    stats_by(alloc, folder, quiz, workers)
}

fn stats_by(alloc: Global, folder: &str, quiz: &str, workers: &str) -> Result<Command, WordsFault>
    ensures value { Reads (λ c. c) result (stats_by folder.now quiz.now workers.now) }
    ensures range { IfOk result IsInRange }
{
    let quiz = number_in(quiz, 0, u32::MAX)?;
    let workers = number_in(workers, 1, 16)?;
    let folder = folder_in(alloc, folder)?;
    Ok(Command::Stats {
        folder,
        quiz,
        workers: workers as u8,
    })
}

fn audit(alloc: Global, words: &[&str]) -> Result<Command, WordsFault>
    requires { has_flag (texts words.now) ≡ false }
    ensures value { Reads (λ c. c) result (audit_of (texts words.now)) }
    ensures range { IfOk result IsInRange }
{
    Ok(Command::Audit(read_serving(alloc, "audit", words)?))
}

fn poll(alloc: Global, words: &[&str]) -> Result<Command, WordsFault>
    requires { has_flag (texts words.now) ≡ false }
    ensures value { Reads (λ c. c) result (poll_of (texts words.now)) }
    ensures range { IfOk result IsInRange }
{
    let (folder, port, links, visits) = four_words(alloc, "poll", words)?;
    poll_by(alloc, folder, port, links, visits)
}

fn poll_by(
    alloc: Global,
    folder: &str,
    port: &str,
    links: &str,
    visits: &str,
) -> Result<Command, WordsFault>
    ensures value { Reads (λ c. c) result (poll_by folder.now port.now links.now visits.now) }
    ensures range { IfOk result IsInRange }
{
    let port = number_in(port, 1, 65_535)?;
    let links = number_in(links, 1, 1_000_000_000)?;
    let visits = number_in(visits, 1, 1000)?;
    let folder = folder_in(alloc, folder)?;
    Ok(Command::Poll {
        folder,
        port: port as u16,
        links,
        visits: visits as u16,
    })
}

fn sql(alloc: Global, words: &[&str]) -> Result<Command, WordsFault>
    requires { has_flag (texts words.now) ≡ false }
    ensures value { Reads (λ c. c) result (sql_of (texts words.now)) }
    ensures range { IfOk result IsInRange }
{
    let (folder, token) = two_words(alloc, "sql", words)?;
    sql_by(alloc, folder, token)
}

fn sql_by(alloc: Global, folder: &str, token: &str) -> Result<Command, WordsFault>
    ensures value { Reads (λ c. c) result (sql_by folder.now token.now) }
    ensures range { IfOk result IsInRange }
{
    let folder = folder_in(alloc, folder)?;
    let token = token_text(alloc, token)?;
    Ok(Command::Sql { folder, token })
}

fn sqlopen(alloc: Global, words: &[&str]) -> Result<Command, WordsFault>
    requires { has_flag (texts words.now) ≡ false }
    ensures value { Reads (λ c. c) result (sqlopen_of (texts words.now)) }
    ensures range { IfOk result IsInRange }
{
    let (folder, quiz) = two_words(alloc, "sqlopen", words)?;
    sqlopen_by(alloc, folder, quiz)
}

fn sqlopen_by(alloc: Global, folder: &str, quiz: &str) -> Result<Command, WordsFault>
    ensures value { Reads (λ c. c) result (sqlopen_by folder.now quiz.now) }
    ensures range { IfOk result IsInRange }
{
    let quiz = number_in(quiz, 0, u32::MAX)?;
    let folder = folder_in(alloc, folder)?;
    Ok(Command::SqlOpen { folder, quiz })
}
