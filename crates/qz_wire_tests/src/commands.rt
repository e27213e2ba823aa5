use qz_command::{Command, Serving, WordsFault, command_of};
use qz_text::{NoMemory, Text};
use std::alloc::Global;
use std::test::Fail;

/// What the words of a command that serves say.
fn told_of_serving(alloc: Global, how: &str, serving: &Serving) -> Result<String, NoMemory> {
    let Serving {
        folder,
        port,
        workers,
        regraders,
        links,
    } = serving;
    let folder = folder.as_str();
    Ok(format!(in alloc; "{folder} {how} at {port} by {workers} and {regraders} until {links}")?)
}

/// What a command says of itself.
fn told_of_command(alloc: Global, command: Command) -> Result<String, NoMemory> {
    Ok(match command {
        Command::Replay => String::from_str(alloc, "replay")?,
        Command::GiftCheck => String::from_str(alloc, "check")?,
        Command::GiftFormat => String::from_str(alloc, "format")?,
        Command::Script { folder } => format!(in alloc; "script in {}", folder.as_str())?,
        Command::Found {
            folder,
            shards,
            token,
        } => {
            let (folder, token) = (folder.as_str(), token.as_str());
            format!(in alloc; "{shards} shards in {folder} by {token}")?
        }
        Command::Serve(serving) => told_of_serving(alloc, "served", &serving)?,
        Command::Audit(serving) => told_of_serving(alloc, "audited", &serving)?,
        Command::Poll {
            folder,
            port,
            links,
            visits,
        } => {
            let folder = folder.as_str();
            format!(in alloc; "{folder} at {port} until {links}, {visits} at once")?
        }
        Command::Bulk { count } => format!(in alloc; "bulk of {count}")?,
        Command::Stats {
            folder,
            quiz,
            workers,
        } => format!(in alloc; "quiz {quiz} in {} by {workers}", folder.as_str())?,
        Command::Sql { folder, token } => {
            format!(in alloc;
                "{} asked, or founded by {}",
                folder.as_str(),
                token.as_str()
            )?
        }
        Command::SqlOpen { folder, quiz } => {
            format!(in alloc; "open at {quiz} in {}", folder.as_str())?
        }
    })
}

/// What the command that these words are says of itself, or that they are none.
fn told(alloc: Global, words: &[Text]) -> Result<String, NoMemory> {
    match command_of(alloc, words) {
        Ok(command) => told_of_command(alloc, command),
        Err(WordsFault::BadWords) => Ok(String::from_str(alloc, "none")?),
        Err(WordsFault::Memory) => Err(NoMemory),
    }
}

/// The same of the words of a line, which have one space between each two.
fn told_of_line(alloc: Global, line: &str) -> Result<String, NoMemory> {
    let mut words = Vec::new(alloc);
    for word in line.split(' ') {
        words.push(Text::of(alloc, word)?)?;
    }
    told(alloc, words.as_slice())
}

#[test]
fn each_command_is_told(rt: HostRuntime) -> Result<(), Fail> {
    let alloc = rt.alloc();
    for (line, want) in [
        ("replay", "replay"),
        ("gift check", "check"),
        ("gift fmt", "format"),
        ("script memory", "script in memory"),
        ("script a-b", "script in a-b"),
        ("found help 1 t", "1 shards in help by t"),
        ("found /x 64 Ann_B-7", "64 shards in /x by Ann_B-7"),
        (
            "serve memory 1 1 0 1",
            "memory served at 1 by 1 and 0 until 1",
        ),
        (
            "serve s 65535 16 8 1000000000",
            "s served at 65535 by 16 and 8 until 1000000000",
        ),
        ("audit s 1 1 0 1", "s audited at 1 by 1 and 0 until 1"),
        ("poll s 1 1 1000", "s at 1 until 1, 1000 at once"),
        ("bulk 1", "bulk of 1"),
        ("bulk 2000", "bulk of 2000"),
        ("stats s 0 1", "quiz 0 in s by 1"),
        ("stats s 4294967295 16", "quiz 4294967295 in s by 16"),
        ("sql memory Ann_B-7", "memory asked, or founded by Ann_B-7"),
        ("sqlopen s 0", "open at 0 in s"),
        ("sqlopen s 4294967295", "open at 4294967295 in s"),
    ] {
        let said = told_of_line(alloc, line)?;
        assert!(rt; said.as_str() == want, "{line}");
    }
    Ok(())
}

#[test]
fn other_words_are_no_command(rt: HostRuntime) -> Result<(), Fail> {
    let alloc = rt.alloc();
    assert!(rt; told(alloc, &[])?.as_str() == "none");
    for line in [
        "",
        "replay x",
        "gift Check",
        "script -x",
        "found a 65 t",
        "found a 01 t",
        "found a 1 t.t",
        "serve a 0 1 0 1",
        "serve a 1 17 0 1",
        "serve a 1 1 9 1",
        "serve a 1 1 0 1000000001",
        "audit a 1 1 0",
        "poll a 1 1 1001",
        "bulk 2001",
        "stats a 1",
        "stats a 1 0",
        "stats a 1 17",
        "stats a 4294967296 1",
        "sql a",
        "sql a t x",
        "sql  t",
        "sql a t.t",
        "sql a 12345678901234567890123456789012345678901234567890123456789012345",
        "sqlopen a",
        "sqlopen a 1 x",
        "sqlopen  1",
        "sqlopen a 01",
        "sqlopen a 4294967296",
    ] {
        let said = told_of_line(alloc, line)?;
        assert!(rt; said.as_str() == "none", "{line}");
    }
    Ok(())
}
