//! The shards' files, in order: each is opened and read, and its list judged, before the next is opened.

ghost use Rattle.std.specs.Prelude.{◌≡◌, ◌<◌, ◌≤◌, [], true, false, length, vec_capacity, IfOk, IfErr, OnOk, OnErr, IsErrOf};
ghost use Rattle.qz_terms.specs.declared.limits.TheConstants.{MOST_SHARDS};
ghost use Rattle.qz_agreement.specs.Disagreements.{AreOfShard};
ghost use Rattle.qz_book.specs.Held.{is_shard};
ghost use Rattle.qz_disks.specs.Shelves.{ChangesAt};
ghost use Rattle.qz_disks.specs.Sound.{StaysSound};
ghost use Rattle.qz_folders.specs.Opening.{IsCaused, IsSoundOut};
ghost use Rattle.qz_loading.specs.declared.fault.LoadFault.TheVariants.{Fault};
ghost use Rattle.qz_loading.specs.Opening.{ArePartsOf, AreSoundOut, IsPartOf, ShardsAgree};
ghost use Rattle.qz_loading.specs.Places.{KeepsOthers, LeavesRest, LeavesUnreached, PartsAre, PartsStay, StaysLike, part_place};
ghost use Rattle.qz_loading.specs.Reading.{IsDisagreement, IsPartsFault, IsShardFault};
ghost use Rattle.qz_terms.specs.Legal.{AllAgree};

use crate::closing::{give_back_part, give_back_parts};
use crate::fault::LoadFault;
use crate::opening::open_part;
use qz_agreement::{Disagreement, first_disagreement};
use qz_catalog::CatalogCore;
use qz_disks::Shelf;
use qz_journal::Journal;
use qz_shard::Shard;
use qz_terms::Record;
use std::alloc::Global;

/// Asks for the first record of the shard with this index that doesn't agree with the catalogue.
fn agree(
    alloc: Global,
    catalog: &CatalogCore,
    index: u8,
    records: &[Record],
) -> Result<(), LoadFault>
    requires { AreOfShard records.now }
    ensures agree { OnOk result (AllAgree catalog.now records.now) }
    ensures why { IfErr result (IsDisagreement catalog.now index records.now) }
{
    match first_disagreement(alloc, catalog, records)? {
        Some(Disagreement::Behind { position }) => Err(LoadFault::Behind {
            shard: index,
            position,
            length: catalog.len(),
        }),
        Some(Disagreement::Altered { place }) => Err(LoadFault::Altered {
            shard: index,
            place,
        }),
        None => Ok(()),
    }
}

/// Opens the file of the shard with this index, of `count` shards, and reads its list, of which each record has to agree with the
/// catalogue. After an error the file is back.
fn open_agreeing<F: Shelf>(
    alloc: Global,
    shelf: &mut F,
    folder: &[u8],
    catalog: &CatalogCore,
    index: u8,
    count: u8,
) -> Result<Shard<Journal<F::Disk>>, LoadFault>
    requires shard { is_shard index count ≡ true }
    requires few { index < MOST_SHARDS }
    requires free { (F.files shelf.old).is_out (part_place folder.now index) ≡ false }
    ensures opened { IfOk result (IsPartOf F.Disk.moment F.Disk.left_at
        ((F.files shelf.old).file (part_place folder.now index)) index count) }
    ensures agrees { IfOk result (λ made. AllAgree catalog.now made.held.list) }
    ensures out { OnOk result ((F.files shelf.new).is_out (part_place folder.now index) ≡ true) }
    ensures back { OnErr result ((F.files shelf.new).is_out (part_place folder.now index) ≡ false) }
    ensures stays { OnErr result (StaysLike ((F.files shelf.old).file (part_place folder.now index))
        ((F.files shelf.new).file (part_place folder.now index))) }
    ensures others { ChangesAt (part_place folder.now index)
        (F.files shelf.old) (F.files shelf.new) }
    ensures why { IfErr result (IsShardFault
        ((F.files shelf.old).file (part_place folder.now index)) index count catalog.now) }
    ensures cause { IsCaused Fault (F.faults shelf.old) (F.faults shelf.new) result }
    ensures stays_sound { StaysSound (F.sound shelf.old) (F.sound shelf.new)
        (F.faults shelf.old) (F.faults shelf.new) (IsErrOf result Fault) }
    ensures sound { IfOk result (λ made. F.sound shelf.old → IsSoundOut F.Disk.sound F.Disk.faults
        ((F.files shelf.old).file (part_place folder.now index)) made.keeper) }
{
    let shard = open_part(alloc, shelf, folder, index, count)?;
    match agree(alloc, catalog, index, shard.records()) {
        Ok(()) => Ok(shard),
        Err(fault) => {
            give_back_part(shelf, folder, index, shard);
            Err(fault)
        }
    }
}

/// Opens the shards' files in order, up to the first that can't be or whose list doesn't agree, and puts those before it into `shards`,
/// which is empty and has room for `count`.
fn open_into<F: Shelf>(
    alloc: Global,
    shelf: &mut F,
    folder: &[u8],
    catalog: &CatalogCore,
    count: u8,
    shards: &mut Vec<Shard<Journal<F::Disk>>>,
) -> Result<(), LoadFault>
    requires few { count ≤ MOST_SHARDS }
    requires free { PartsAre false folder.now count (F.files shelf.old) }
    requires empty { shards.old.items ≡ [] }
    requires room { count ≤ vec_capacity shards.old }
    ensures opened { ArePartsOf F.Disk.moment F.Disk.left_at folder.now
        (F.files shelf.old) count shards.new.items }
    ensures agree { ShardsAgree catalog.now shards.new.items }
    ensures out { PartsAre true folder.now (length shards.new.items) (F.files shelf.new) }
    ensures all { OnOk result (length shards.new.items ≡ count) }
    ensures others { OnOk result (KeepsOthers folder.now count
        (F.files shelf.old) (F.files shelf.new)) }
    ensures fewer { OnErr result (length shards.new.items < count) }
    ensures rest { OnErr result (LeavesRest folder.now (length shards.new.items) count
        (F.files shelf.old) (F.files shelf.new)) }
    ensures why { IfErr result (IsShardFault
        ((F.files shelf.old).file (part_place folder.now (length shards.new.items)))
        (length shards.new.items) count catalog.now) }
    ensures cause { IsCaused Fault (F.faults shelf.old) (F.faults shelf.new) result }
    ensures sound { F.sound shelf.old → AreSoundOut F.Disk.sound F.Disk.faults folder.now
        (F.files shelf.old) shards.new.items }
    ensures stays_sound { StaysSound (F.sound shelf.old) (F.sound shelf.new)
        (F.faults shelf.old) (F.faults shelf.new) (IsErrOf result Fault) }
{
    for index in 0..count {
        let shard = open_agreeing(alloc, shelf, folder, catalog, index, count)?;
        shards.push_reserved(shard);
    }
    Ok(())
}

/// Opens the files of `count` shards, at most 64, in order, and reads their lists, of which each record has to agree with the catalogue.
/// After an error each is back, and those behind the one that it is told of are as they were.
pub(crate) fn open_parts<F: Shelf>(
    alloc: Global,
    shelf: &mut F,
    folder: &[u8],
    catalog: &CatalogCore,
    count: u8,
) -> Result<Vec<Shard<Journal<F::Disk>>>, LoadFault>
    requires few { count ≤ MOST_SHARDS }
    requires free { PartsAre false folder.now count (F.files shelf.old) }
    ensures opened { IfOk result (λ shards. ArePartsOf F.Disk.moment F.Disk.left_at folder.now
        (F.files shelf.old) count shards.items) }
    ensures agree { IfOk result (λ shards. ShardsAgree catalog.now shards.items) }
    ensures all { IfOk result (λ shards. length shards.items ≡ count) }
    ensures out { OnOk result (PartsAre true folder.now count (F.files shelf.new)) }
    ensures others { OnOk result (KeepsOthers folder.now count
        (F.files shelf.old) (F.files shelf.new)) }
    ensures stay { OnErr result (PartsStay folder.now count
        (F.files shelf.old) (F.files shelf.new)) }
    ensures unreached { IfErr result (LeavesUnreached folder.now
        (F.files shelf.old) (F.files shelf.new)) }
    ensures why { IfErr result (IsPartsFault folder.now (F.files shelf.old) catalog.now count) }
    ensures cause { IsCaused Fault (F.faults shelf.old) (F.faults shelf.new) result }
    ensures sound { IfOk result (λ shards. F.sound shelf.old
        → AreSoundOut F.Disk.sound F.Disk.faults folder.now (F.files shelf.old) shards.items) }
    ensures stays_sound { StaysSound (F.sound shelf.old) (F.sound shelf.new)
        (F.faults shelf.old) (F.faults shelf.new) (IsErrOf result Fault) }
{
    let mut shards = Vec::with_capacity(alloc, usize::from(count))?;
    match open_into(alloc, shelf, folder, catalog, count, &mut shards) {
        Ok(()) => Ok(shards),
        Err(fault) => {
            give_back_parts(shelf, folder, shards);
            Err(fault)
        }
    }
}
