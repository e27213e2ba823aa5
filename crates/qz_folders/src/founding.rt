//! The founding of a school.

ghost use Rattle.std.specs.Prelude.{◌≡◌, ◌≢◌, ◌+◌, ◌≤◌, [], length, None, IfSome, IfOk, OnOk, IsErrOf};
ghost use Rattle.qz_outside.specs.Causes.{HasRisen};
ghost use Rattle.qz_disks.specs.Shelves.{place, ChangesAt, NoneOutIn};
ghost use Rattle.qz_disks.specs.Sound.{StaysSound};
ghost use Rattle.qz_journal.specs.Journals.{IsSound};
ghost use Rattle.qz_record.specs.Records.{IsRecord};
ghost use Rattle.qz_terms.specs.declared.limits.TheConstants.{LONGEST_KEY, MOST_RECORD, MOST_SHARDS};
ghost use Rattle.qz_terms.specs.Spelling.{spelling};
ghost use Rattle.qz_folders.specs.declared.fault.FoundFault.TheVariants.{Fault};
ghost use Rattle.qz_folders.specs.Founding.{EndsFounding, PutsFirst, founding};
ghost use Rattle.qz_folders.specs.Names.{catalog_name};
ghost use Rattle.qz_folders.specs.Opening.{IsCaused};

use crate::{FoundFault, catalog_name, give_back, open};
use qz_disks::{Disk, Keeper, Shelf};
use qz_journal::Journal;
use qz_record::{laws, spell};
use qz_terms::{Event, Record};
use qz_text::{Bytes, NoMemory, Text, TryCopy};
use std::alloc::Global;

/// Founds a school in a folder, with so many shards, from 1 to 64, and its manager's token of 1 to 64 bytes: the catalogue's
/// list, which was empty, is the record of the founding from then on.
///
/// Each file is given back. `Already`: the list isn't empty, and stays. `Damaged`: the file is. `Fault`: the shelf failed, or the
/// disk; the list is as it was or, where it was empty, the founding may stand in it. `Memory`: memory was wanting, and the list is
/// as it was.
pub fn found<F: Shelf>(
    alloc: Global,
    shelf: &mut F,
    folder: &[u8],
    shards: u8,
    token: &Text,
) -> Result<(), FoundFault>
    requires free { NoneOutIn folder.now (F.files shelf.old) }
    requires some { 1 ≤ shards }
    requires few { shards ≤ MOST_SHARDS }
    requires not_empty { 1 ≤ length token.now }
    requires short { length token.now ≤ LONGEST_KEY }
    ensures ends { IfSome ((F.files shelf.old).file (place folder.now catalog_name)).reads
        (λ bytes. EndsFounding (spelling (founding shards token.now)) bytes
        ((F.files shelf.old).file (place folder.now catalog_name)).left
        ((F.files shelf.new).file (place folder.now catalog_name)).left result) }
    ensures none_out { NoneOutIn folder.now (F.files shelf.new) }
    ensures others { ChangesAt (place folder.now catalog_name) (F.files shelf.old) (F.files shelf.new) }
    ensures cause { IsCaused Fault (F.faults shelf.old) (F.faults shelf.new) result }
    ensures stays_sound { IfSome ((F.files shelf.old).file (place folder.now catalog_name)).reads
        (λ _. StaysSound (F.sound shelf.old) (F.sound shelf.new)
        (F.faults shelf.old) (F.faults shelf.new) (IsErrOf result Fault)) }

    // What was founded is read as its record.
    ensures read { OnOk result (IsRecord (founding shards token.now)) }
{
    let payload = founding_payload(alloc, shards, token)?;
    let name = catalog_name();
    let (mut journal, payloads) = open(alloc, shelf, folder, name)?;
    let done = put_first(alloc, &mut journal, payloads.as_slice(), payload.as_slice());
    give_back(shelf, folder, name, journal);
    done
}

// Appends a payload to a journal of these, if they are none.
fn put_first<D: Disk>(
    alloc: Global,
    journal: &mut Journal<D>,
    payloads: &[Bytes],
    payload: &[u8],
) -> Result<(), FoundFault>
    requires settled { journal.old.doubt ≡ None }
    requires size { length payload.now ≤ MOST_RECORD }
    requires kept { IfSome journal.old.kept (λ told. told ≡ payloads.now) }
    ensures list { IfSome journal.old.kept (λ _. PutsFirst payloads.now payload.now
        journal.new.kept journal.new.doubt result) }
    ensures cause { IsCaused Fault (D.faults journal.old.disk) (D.faults journal.new.disk) result }
    ensures stays_sound { StaysSound (IsSound D.sound journal.old) (IsSound D.sound journal.new)
        (D.faults journal.old.disk) (D.faults journal.new.disk) (IsErrOf result Fault) }
{
    if !payloads.is_empty() {
        return Err(FoundFault::Already);
    }
    journal.append(alloc, payload)?;
    Ok(())
}

// The record of a school that is founded.
fn founding(alloc: Global, shards: u8, token: &Text) -> Result<Record, NoMemory>
    ensures { IfOk result (λ made. made ≡ founding shards token.now) }
{
    Ok(Record {
        moment: 0,
        caller: 0,
        owner: 0,
        key: None,
        terms: None,
        event: Event::Founded {
            shards,
            token: token.try_copy(alloc)?,
        },
    })
}

/// The payload of a founding: the spelling of the record of a school that is founded with so many shards, from 1 to 64, and its
/// manager's token of at most 64 bytes.
pub fn founding_payload(alloc: Global, shards: u8, token: &Text) -> Result<Bytes, NoMemory>
    requires some { 1 ≤ shards }
    requires few { shards ≤ MOST_SHARDS }
    requires short { length token.now ≤ LONGEST_KEY }
    ensures spelled { IfOk result (λ payload. payload ≡ spelling (founding shards token.now)) }
    ensures size { IfOk result (λ payload. length payload ≤ MOST_RECORD) }
    ensures kept { OnOk result (IsRecord (founding shards token.now)) }
{
    laws::no_longer();
    let made = founding(alloc, shards, token)?;
    let payload = spell(alloc, &made);
    drop(made);
    payload
}
