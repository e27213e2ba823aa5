//! The command line.

ghost use Rattle.std.specs.Prelude.{◌≡◌, length};
ghost use Rattle.qz_command.specs.Commands.{command_of};
ghost use Rattle.qz_ending.specs.Endings.{Ended};
ghost use Rattle.qz_ready_doors.specs.Halls as halls;
ghost use Rattle.qz_ready_doors.specs.Kept.{peer_of};
ghost use Rattle.qz_serving.specs.Saying.{NoDoorFails};
ghost use Rattle.qz_stations.specs.Stations.{entrance_by, peer_by, serving_by};
ghost use Rattle.quizd.specs.Commands.{NoneOut, RunEnds, RunsAll, clocks_for};
ghost use Rattle.quizd.specs.Commands.{ScriptDoesAll, ScriptEndsIn, UsageWritten, is_memory};

use qz_audit::audit_folder;
use qz_bulk::bulk;
use qz_command::{Command, Serving, WordsFault, command_of};
use qz_disks::Shelf;
use qz_ending::Stop;
use qz_found::found_folder;
use qz_gift::gift;
use qz_links::{Clock, Door};
use qz_outside::{Sink, Source, write_all};
use qz_polling::poll_folder;
use qz_ready::ReadyDoor;
use qz_ready_doors::Watch;
use qz_replay::replay;
use qz_script_schools::{script, script_folder};
use qz_serving::serve_folder;
use qz_sqlbases::Bases;
use qz_sqlopen::sqlopen;
use qz_sqlscript::sql;
use qz_stations::Crew;
use qz_stats_school::stats;
use qz_text::Text;
use std::alloc::{AllocGlobal, Global};
use std::random::RandomSource;
use std::sync::Wait;
use std::thread::Threads;

const USAGE: &str =
    "usage: quizd replay | gift check | gift fmt | script FOLDER | found FOLDER SHARDS TOKEN | serve FOLDER PORT WORKERS REGRADERS LINKS | bulk N\n";

/// Runs the command that the words name, over a source, a sink, sixteen doors with a clock each, as many clocks more as it uses, a shelf of
/// which no file is out, a door whose links never wait, with a watch over it, and bases of which no database is out. Answers its exit status.
///
/// The commands are `replay`, `gift check`, `gift fmt`, `script FOLDER`, `found FOLDER SHARDS TOKEN`, `bulk N`,
/// `stats FOLDER QUIZ WORKERS`, which only reads; `serve FOLDER PORT WORKERS REGRADERS LINKS` and `audit` with the same words, which serve the
/// first doors, one a worker, while others regrade; `poll FOLDER PORT LINKS VISITS`, which serves the door whose links never wait; and, over
/// the databases of a folder, `sql FOLDER TOKEN`, a script, and `sqlopen FOLDER QUIZ`, which puts no record but makes a missing database, and
/// the tables anew. A folder's school is loaded, and given back with all that was accepted; for `script` `memory` stands for a school in memory,
/// just founded.
/// Words that are no command are status 2: nothing is read, and the usage line is written. Where the sink fails under the usage line the status
/// is 5. Where memory is wanting for the words it is 8, and nothing is done.
pub fn run<
    W: Threads + Wait + RandomSource + AllocGlobal + Sync,
    S: Source,
    O: Sink,
    R: Door + Send,
    C: Clock + Send + Drop,
    F: Shelf,
    P: ReadyDoor<Link: Drop>,
    V: Watch,
    B: Bases,
>(
    rt: &W,
    alloc: Global,
    words: &[Text],
    source: &mut S,
    sink: &mut O,
    doors: &mut Vec<(R, C)>,
    clocks: Vec<C>,
    shelf: &mut F,
    ready: &mut P,
    watch: &mut V,
    bases: &mut B,
) -> u8
where
    F::Disk: Send + Sync,
    R::Link: Send,
    requires doors { length doors.old.items ≡ 16 }
    requires clocks { length clocks.items ≡ clocks_for (command_of words.now) }
    requires none_out { NoneOut (F.files shelf.old).is_out }
    requires bases { NoneOut (B.lists bases.old).is_out }
    ensures ended { Ended
        (RunEnds (record { moment = F.Disk.moment; left_at = F.Disk.left_at; sound = F.Disk.sound; faults = F.Disk.faults })
        (record {
          tells = C.tells;
          serving = serving_by C.tells (peer_by R.Link.left R.Link.holds R.Link.faults)
              (entrance_by R.left R.returned R.returns R.out R.faults);
          peer = peer_of P.Link.ReadyLink;
          store_tells = B.Store.Base.tells;
          store = B.Store.Store;
        }) clocks.items
        (record {
          doors = doors.old.items;
          shelf = shelf.old;
          told = record { files = F.files shelf.old; faults = F.faults shelf.old };
          ready = record { door = ready.old; entrance = halls.entrance_by P.left P.returned P.returns P.out P.faults ready.old };
          bases = bases.old;
          based = record { lists = B.lists bases.old; faults = B.faults bases.old };
        })
        (record {
          doors = doors.new.items;
          shelf = shelf.new;
          told = record { files = F.files shelf.new; faults = F.faults shelf.new };
          ready = record { door = ready.new; entrance = halls.entrance_by P.left P.returned P.returns P.out P.faults ready.new };
          bases = bases.new;
          based = record { lists = B.lists bases.new; faults = B.faults bases.new };
        })
        words.now
        (record { left = S.left source.old; source_faults = S.faults source.old; holds = O.holds sink.old; sink_faults = O.faults sink.old })
        (record { left = S.left source.new; source_faults = S.faults source.new; holds = O.holds sink.new; sink_faults = O.faults sink.new }))
        result }
    ensures complete { RunsAll (NoDoorFails R.faults doors.old.items doors.new.items)
        (record {
          doors = doors.old.items;
          shelf = shelf.old;
          told = record { files = F.files shelf.old; faults = F.faults shelf.old };
          ready = record { door = ready.old; entrance = halls.entrance_by P.left P.returned P.returns P.out P.faults ready.old };
          bases = bases.old;
          based = record { lists = B.lists bases.old; faults = B.faults bases.old };
        })
        (record {
          doors = doors.new.items;
          shelf = shelf.new;
          told = record { files = F.files shelf.new; faults = F.faults shelf.new };
          ready = record { door = ready.new; entrance = halls.entrance_by P.left P.returned P.returns P.out P.faults ready.new };
          bases = bases.new;
          based = record { lists = B.lists bases.new; faults = B.faults bases.new };
        })
        words.now
        (record { left = S.left source.old; source_faults = S.faults source.old; holds = O.holds sink.old; sink_faults = O.faults sink.old })
        (record { left = S.left source.new; source_faults = S.faults source.new; holds = O.holds sink.new; sink_faults = O.faults sink.new })
        result }
    ensures doors { length doors.new.items ≡ 16 }
    ensures none_out { NoneOut (F.files shelf.new).is_out }
    ensures bases { NoneOut (B.lists bases.new).is_out }
{
    match command_of(alloc, words) {
        Ok(Command::Replay) => replay(alloc, source, sink),
        Ok(Command::GiftCheck) => gift(alloc, false, source, sink),
        Ok(Command::GiftFormat) => gift(alloc, true, source, sink),
        Ok(Command::Script { folder }) => run_script(alloc, &folder, source, sink, shelf),
        Ok(
            Command::Found {
                folder,
                shards,
                token,
            },
        ) => found_folder(alloc, folder.as_bytes(), shards, &token, sink, shelf),
        Ok(
            Command::Serve(
                Serving {
                    folder,
                    port: _port,
                    workers,
                    regraders,
                    links,
                },
            ),
        ) => {
            let crew = Crew {
                workers,
                links,
                regraders,
            };
            serve_folder(
                rt,
                alloc,
                folder.as_bytes(),
                crew,
                sink,
                doors,
                clocks,
                shelf,
            )
        }
        Ok(
            Command::Audit(
                Serving {
                    folder,
                    port: _port,
                    workers,
                    regraders,
                    links,
                },
            ),
        ) => {
            let crew = Crew {
                workers,
                links,
                regraders,
            };
            audit_folder(
                rt,
                alloc,
                folder.as_bytes(),
                crew,
                sink,
                doors,
                clocks,
                shelf,
            )
        }
        Ok(
            Command::Poll {
                folder,
                port: _port,
                links,
                visits: _visits,
            },
        ) => poll_folder(
            rt,
            watch,
            alloc,
            folder.as_bytes(),
            links,
            sink,
            shelf,
            ready,
            clocks,
        ),
        Ok(Command::Bulk { count }) => bulk(alloc, count, sink),
        Ok(
            Command::Stats {
                folder,
                quiz,
                workers,
            },
        ) => stats(rt, alloc, folder.as_bytes(), quiz, workers, sink, shelf),
        Ok(Command::Sql { folder, token }) => {
            sql(alloc, folder.as_bytes(), &token, source, sink, bases)
        }
        Ok(Command::SqlOpen { folder, quiz }) => {
            sqlopen(alloc, folder.as_bytes(), quiz, sink, bases)
        }
        Err(WordsFault::BadWords) => show_usage(sink).status(),
        Err(WordsFault::Memory) => Stop::Memory.status(),
    }
}

/// Answers a script over the school in memory, or over that of a folder.
fn run_script<S: Source, O: Sink, F: Shelf>(
    alloc: Global,
    folder: &Text,
    source: &mut S,
    sink: &mut O,
    shelf: &mut F,
) -> u8
    requires { NoneOut (F.files shelf.old).is_out }
    ensures ended { Ended
        (ScriptEndsIn (record { moment = F.Disk.moment; left_at = F.Disk.left_at; sound = F.Disk.sound; faults = F.Disk.faults })
        folder.now (shelf.new ≡ shelf.old)
        (record { files = F.files shelf.old; faults = F.faults shelf.old })
        (record { files = F.files shelf.new; faults = F.faults shelf.new })
        (record { left = S.left source.old; source_faults = S.faults source.old; holds = O.holds sink.old; sink_faults = O.faults sink.old })
        (record { left = S.left source.new; source_faults = S.faults source.new; holds = O.holds sink.new; sink_faults = O.faults sink.new }))
        result }
    ensures complete { ScriptDoesAll
        (record { files = F.files shelf.old; faults = F.faults shelf.old })
        (record { files = F.files shelf.new; faults = F.faults shelf.new }) folder.now
        (record { left = S.left source.old; source_faults = S.faults source.old; holds = O.holds sink.old; sink_faults = O.faults sink.old })
        (record { left = S.left source.new; source_faults = S.faults source.new; holds = O.holds sink.new; sink_faults = O.faults sink.new })
        result }
    ensures none_out { NoneOut (F.files shelf.new).is_out }
{
    if is_memory(folder) {
        script(alloc, source, sink)
    } else {
        script_folder(alloc, folder.as_bytes(), source, sink, shelf)
    }
}

/// Whether the folder's word of a script means the school in memory, which is no folder's.
fn is_memory(folder: &Text) -> bool
    ensures { result ≡ is_memory folder.now }
{
    folder.as_str() == "memory"
}

/// Writes the usage line.
fn show_usage<O: Sink>(sink: &mut O) -> Stop
    ensures { UsageWritten (O.holds sink.old) (O.holds sink.new) (O.faults sink.old) (O.faults sink.new) result }
{
    match write_all(sink, USAGE.as_bytes()) {
        Ok(()) => Stop::BadWords,
        Err(_) => Stop::SinkFault,
    }
}
