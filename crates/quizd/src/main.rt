//! The quiz server's program.
#![tactic(auto)]

ghost use Rattle.std.specs.Prelude.{◌≡◌, Some, length};
ghost use Rattle.quizd.specs.declared.outside.TheConstants.{DOORS};
ghost use Rattle.qz_command.specs.Commands.{command_of};
ghost use Rattle.quizd.specs.Commands.{clocks_for};

mod outside;
mod run;

use outside::{
    SystemClock, no_doors, no_ready, open_doors, open_ready, system_clocks, tell_folder,
};
use qz_command::{Command, Serving, WordsFault, command_of};
use qz_disks::FolderShelf;
use qz_ending::Stop;
use qz_links::Door;
use qz_outside::{StdSink, StdSource};
use qz_ready::ReadyDoor;
use qz_ready_doors::{Unwatched, Watch};
use qz_sqlbases::FolderBases;
use qz_text::{NoMemory, Text};
pub use run::run;
use std::alloc::{AllocGlobal, Global};
use std::process::ExitCode;
use std::random::RandomSource;
use std::rt::Env;
use std::sync::Wait;
use std::thread::Threads;
use std::{env, io};

/// The words of the command line behind the program's name. No words stand for arguments that the system doesn't give as text.
fn arguments(rt: &(impl Env + Alloc<A = Global>)) -> Result<Vec<Text>, NoMemory> {
    let mut words = Vec::new(rt.alloc());
    let args = match env::args(rt) {
        Ok(args) => args,
        Err(error) if error.kind() == io::ErrorKind::OutOfMemory => return Err(NoMemory),
        Err(_) => return Ok(words),
    };
    for items in args.skip(1) {
        words.push(Text { items })?;
    }
    Ok(words)
}

/// How many clocks a command uses beside those of the doors.
fn clocks_for(command: &Command) -> usize
    ensures { result ≡ clocks_for (Some command.now) }
{
    match command {
        Command::Serve(serving) | Command::Audit(serving) => usize::from(serving.regraders),
        Command::Poll { visits, .. } => usize::from(*visits),
        Command::Replay
        | Command::GiftCheck
        | Command::GiftFormat
        | Command::Script { .. }
        | Command::Found { .. }
        | Command::Bulk { .. }
        | Command::Stats { .. }
        | Command::Sql { .. }
        | Command::SqlOpen { .. } => 0,
    }
}

/// Runs the words over standard input and output, some doors and the folders of the system.
fn run_at<
    W: Threads + Wait + RandomSource + AllocGlobal + Sync,
    R: Door + Send,
    P: ReadyDoor<Link: Drop>,
    V: Watch,
>(
    host: HostRuntime,
    rt: &W,
    words: &[Text],
    doors: &mut Vec<(R, SystemClock)>,
    clocks: Vec<SystemClock>,
    ready: &mut P,
    watch: &mut V,
) -> u8
where
    R::Link: Send,
    requires doors { length doors.old.items ≡ DOORS }
    requires clocks { length clocks.items ≡ clocks_for (command_of words.now) }
{
    let alloc = host.alloc();
    let mut source = StdSource::new(host.reader());
    let mut sink = StdSink::new(io::writer(&host));
    let mut shelf = FolderShelf::new(alloc, &host);
    let mut bases = FolderBases::new(&host);
    run(
        rt,
        alloc,
        words,
        &mut source,
        &mut sink,
        doors,
        clocks,
        &mut shelf,
        ready,
        watch,
        &mut bases,
    )
}

/// The same where nobody comes to any door, and no clock is used but for doors.
fn run_alone<W: Threads + Wait + RandomSource + AllocGlobal + Sync>(
    host: HostRuntime,
    rt: &W,
    words: &[Text],
) -> u8
    requires { clocks_for (command_of words.now) ≡ 0 }
{
    let alloc = host.alloc();
    let (Ok(mut doors), Ok(mut ready)) = (no_doors(host), no_ready(alloc)) else {
        return Stop::Memory.status();
    };
    run_at(
        host,
        rt,
        words,
        &mut doors,
        Vec::new(alloc),
        &mut ready,
        &mut Unwatched,
    )
}

/// The same with doors at a port, and so many clocks.
fn run_at_port<W: Threads + Wait + RandomSource + AllocGlobal + Sync>(
    host: HostRuntime,
    rt: &W,
    words: &[Text],
    port: u16,
    count: usize,
) -> u8
    requires { clocks_for (command_of words.now) ≡ count }
{
    let mut doors = match open_doors(host, port) {
        Ok(doors) => doors,
        Err(why) => return why.tell(&host, port).status(),
    };
    let (Ok(clocks), Ok(mut ready)) = (system_clocks(host, count), no_ready(host.alloc())) else {
        return Stop::Memory.status();
    };
    run_at(
        host,
        rt,
        words,
        &mut doors,
        clocks,
        &mut ready,
        &mut Unwatched,
    )
}

/// The same with a door at a port whose links never wait, and so many clocks.
fn run_at_ready_port<W: Threads + Wait + RandomSource + AllocGlobal + Sync>(
    host: HostRuntime,
    rt: &W,
    words: &[Text],
    port: u16,
    count: usize,
) -> u8
    requires { clocks_for (command_of words.now) ≡ count }
{
    let (mut ready, mut watch) = match open_ready(host, port) {
        Ok(opened) => opened,
        Err(why) => return why.tell(&host, port).status(),
    };
    let (Ok(clocks), Ok(mut doors)) = (system_clocks(host, count), no_doors(host)) else {
        return Stop::Memory.status();
    };
    run_at(host, rt, words, &mut doors, clocks, &mut ready, &mut watch)
}

/// Runs a command, which the words name.
fn run_command<W: Threads + Wait + RandomSource + AllocGlobal + Sync>(
    host: HostRuntime,
    rt: &W,
    words: &[Text],
    command: &Command,
) -> u8
    requires { command_of words.now ≡ Some command.now }
{
    let count = clocks_for(command);
    match command {
        Command::Serve(Serving { folder, port, .. })
        | Command::Audit(Serving { folder, port, .. }) => {
            let status = run_at_port(host, rt, words, *port, count);
            tell_folder(&host, folder, status);
            status
        }
        Command::Poll { folder, port, .. } => {
            let status = run_at_ready_port(host, rt, words, *port, count);
            tell_folder(&host, folder, status);
            status
        }
        Command::Found { folder, .. }
        | Command::Script { folder }
        | Command::Stats { folder, .. }
        | Command::Sql { folder, .. }
        | Command::SqlOpen { folder, .. } => {
            let status = run_alone(host, rt, words);
            tell_folder(&host, folder, status);
            status
        }
        Command::Replay | Command::GiftCheck | Command::GiftFormat | Command::Bulk { .. } => {
            run_alone(host, rt, words)
        }
    }
}

fn main(rt: HostRuntime) -> ExitCode {
    let Ok(words) = arguments(&rt) else {
        return ExitCode::from(Stop::Memory.status());
    };
    let status = match command_of(rt.alloc(), &words) {
        Ok(command) => run_command(rt, &rt, &words, &command),
        Err(WordsFault::BadWords) => run_alone(rt, &rt, &words),
        Err(WordsFault::Memory) => Stop::Memory.status(),
    };
    ExitCode::from(status)
}
