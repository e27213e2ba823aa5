//! A script over the school in a folder's two databases.

ghost use Rattle.std.specs.Prelude.{◌≤◌, false, length};
ghost use Rattle.qz_ending.specs.Endings.{Ended};
ghost use Rattle.qz_script.specs.Scripts.{script_limit};
ghost use Rattle.qz_sqlfolders.specs.Folders.{AreOut};
ghost use Rattle.qz_sqlscript.specs.SqlScripts.{AnswersDatabases, SqlEnds};
ghost use Rattle.qz_terms.specs.declared.limits.TheConstants.{LONGEST_KEY};

use qz_opening::tell;
use qz_outside::{Sink, Source};
use qz_script::{LIMIT, serve};
use qz_sqlbases::Bases;
use qz_sqlite::{close, load};
use qz_text::Text;
use std::alloc::Global;

/// Answers the lines of a script over the school in a folder's two databases, `catalog.db` and `part-00.db`, neither of which is out, and
/// answers the exit status. A database that is missing is made. A catalogue without a record is founded with one shard and the manager's
/// token; else the token isn't looked at.
///
/// Each reply is written before the next line is read, and what it says stands in the databases then: where a keeper of them failed the
/// reply says so. With status 7 the databases don't give a school, and one line says why; with status 6 the bases failed, or the keeper
/// that was to take the founding; nothing was read then. Afterwards both databases are given back with the lists of the school, also where
/// the script ended early.
pub fn sql<S: Source, O: Sink, B: Bases>(
    alloc: Global,
    folder: &[u8],
    token: &Text,
    source: &mut S,
    sink: &mut O,
    bases: &mut B,
) -> u8
    requires free { AreOut false folder.now (B.lists bases.old) }
    requires short { length token.now ≤ LONGEST_KEY }
    ensures ended { Ended
        (SqlEnds B.Store.Base.tells B.Store.Store token.now folder.now script_limit
        (record { lists = B.lists bases.old; faults = B.faults bases.old })
        (record { lists = B.lists bases.new; faults = B.faults bases.new })
        (record {
          left = S.left source.old;
          source_faults = S.faults source.old;
          holds = O.holds sink.old;
          sink_faults = O.faults sink.old;
        })
        (record {
          left = S.left source.new;
          source_faults = S.faults source.new;
          holds = O.holds sink.new;
          sink_faults = O.faults sink.new;
        }))
        result }
    ensures complete { AnswersDatabases script_limit
        (record { lists = B.lists bases.old; faults = B.faults bases.old })
        (record { lists = B.lists bases.new; faults = B.faults bases.new })
        (record {
          left = S.left source.old;
          source_faults = S.faults source.old;
          holds = O.holds sink.old;
          sink_faults = O.faults sink.old;
        })
        (record {
          left = S.left source.new;
          source_faults = S.faults source.new;
          holds = O.holds sink.new;
          sink_faults = O.faults sink.new;
        })
        result }
{
    match load(alloc, bases, folder, token) {
        Ok(mut desk) => {
            let status = serve(alloc, LIMIT, &mut desk, source, sink);
            close(bases, folder, desk);
            status
        }
        Err(fault) => tell(alloc, sink, &fault).status(),
    }
}
