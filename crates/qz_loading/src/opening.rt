//! The file of one list, opened and read.

ghost use Rattle.std.specs.Prelude.{◌≡◌, true, false, None, IfSome, IfOk, IfErr, OnOk, OnErr, IsErrOf};
ghost use Rattle.qz_catalog.specs.Keeping as catalog;
ghost use Rattle.qz_disks.specs.Shelves.{ChangesAt};
ghost use Rattle.qz_disks.specs.Sound.{StaysSound};
ghost use Rattle.qz_folders.specs.Opening.{IsCaused, IsSoundOut};
ghost use Rattle.qz_loading.specs.declared.fault.LoadFault.TheVariants.{Fault};
ghost use Rattle.qz_loading.specs.Opening.{IsCatalogOf, IsPartOf};
ghost use Rattle.qz_loading.specs.Places.{StaysLike, catalog_place, part_place};
ghost use Rattle.qz_loading.specs.Reading.{IsCatalogFault, IsCatalogRefused, IsPartFault, IsPartRefused};
ghost use Rattle.qz_book.specs.Held.{is_shard};
ghost use Rattle.qz_shard.specs.Keeping as part;
ghost use Rattle.qz_shard.specs.Loads.{IsListFault};

use crate::fault::LoadFault;
use crate::names::{ListFile, part_name};
use crate::telling::{unopened, unread};
use qz_catalog::Catalog;
use qz_disks::{Disk, Keeper, Shelf};
use qz_folders::{catalog_name, give_back, open};
use qz_journal::Journal;
use qz_record::ListFault;
use qz_shard::Shard;
use qz_text::Bytes;
use std::alloc::Global;

/// The lists of a school, each with its file's journal: the catalogue's, and those of its shards, in order.
#[derive(Drop)]
pub struct Loaded<D: Disk> {
    pub catalog: Catalog<Journal<D>>,
    pub shards: Vec<Shard<Journal<D>>>,
}

/// What is told of a catalogue's payloads that aren't read. There are none where no fault is given.
fn no_catalog(alloc: Global, payloads: &[Bytes], told: Option<ListFault>) -> LoadFault
    requires { catalog.IsUnopened payloads.now told }
    ensures { IsCatalogRefused payloads.now result }
{
    match told {
        Some(fault) => unread(alloc, ListFile::Catalog, payloads, fault),
        None => LoadFault::NotFounded,
    }
}

/// What is told of a shard's payloads that aren't read.
fn no_part(alloc: Global, index: u8, _count: u8, payloads: &[Bytes], fault: ListFault) -> LoadFault
    requires { IsListFault index _count payloads.now fault }
    ensures { IsPartRefused index _count payloads.now result }
{
    unread(alloc, ListFile::Part { index }, payloads, fault)
}

/// Reads the catalogue's list, which is what a keeper keeps. After an error the keeper is given back.
fn read_catalog<K: Keeper>(
    alloc: Global,
    keeper: K,
    payloads: &[Bytes],
) -> Result<Catalog<K>, (K, LoadFault)>
    requires settled { K.doubt keeper ≡ None }
    requires kept { IfSome (K.kept keeper) (λ told. told ≡ payloads.now) }
    ensures opened { IfOk result (catalog.IsOpened payloads.now keeper) }
    ensures refused { IfErr result (λ f. IsCatalogRefused payloads.now f.1) }
    ensures back { IfErr result (λ f. f.0 ≡ keeper) }
{
    match Catalog::load(alloc, keeper, payloads) {
        Ok(catalog) => Ok(catalog),
        Err((keeper, told)) => Err((keeper, no_catalog(alloc, payloads, told))),
    }
}

/// Reads the list of the shard with this index, of `count` shards, which are from 1 to 64. After an error the keeper is given back.
fn read_part<K: Keeper>(
    alloc: Global,
    index: u8,
    count: u8,
    keeper: K,
    payloads: &[Bytes],
) -> Result<Shard<K>, (K, LoadFault)>
    requires shard { is_shard index count ≡ true }
    requires settled { K.doubt keeper ≡ None }
    requires kept { IfSome (K.kept keeper) (λ told. told ≡ payloads.now) }
    ensures opened { IfOk result (part.IsOpened index count payloads.now keeper) }
    ensures refused { IfErr result (λ f. IsPartRefused index count payloads.now f.1) }
    ensures back { IfErr result (λ f. f.0 ≡ keeper) }
{
    match Shard::load(alloc, index, count, keeper, payloads) {
        Ok(shard) => Ok(shard),
        Err((keeper, fault)) => Err((keeper, no_part(alloc, index, count, payloads, fault))),
    }
}

/// Opens the catalogue's file of a folder, and reads its list.
///
/// After an error the file is back. `Damaged`: its bytes are, or a record of it is illegal. `NotFounded`: its list is empty.
/// `Fault`: the shelf failed, or the disk. `Memory`: memory was wanting.
pub fn open_catalog<F: Shelf>(
    alloc: Global,
    shelf: &mut F,
    folder: &[u8],
) -> Result<Catalog<Journal<F::Disk>>, LoadFault>
    requires { (F.files shelf.old).is_out (catalog_place folder.now) ≡ false }
    ensures opened { IfOk result (IsCatalogOf F.Disk.moment F.Disk.left_at
        ((F.files shelf.old).file (catalog_place folder.now))) }
    ensures out { OnOk result ((F.files shelf.new).is_out (catalog_place folder.now) ≡ true) }
    ensures back { OnErr result ((F.files shelf.new).is_out (catalog_place folder.now) ≡ false) }
    ensures stays { OnErr result (StaysLike ((F.files shelf.old).file (catalog_place folder.now))
        ((F.files shelf.new).file (catalog_place folder.now))) }
    ensures others { ChangesAt (catalog_place folder.now) (F.files shelf.old) (F.files shelf.new) }
    ensures why { IfErr result
        (IsCatalogFault ((F.files shelf.old).file (catalog_place folder.now))) }
    ensures cause { IsCaused Fault (F.faults shelf.old) (F.faults shelf.new) result }
    ensures stays_sound { StaysSound (F.sound shelf.old) (F.sound shelf.new)
        (F.faults shelf.old) (F.faults shelf.new) (IsErrOf result Fault) }
    ensures sound { IfOk result (λ made. F.sound shelf.old → IsSoundOut F.Disk.sound F.Disk.faults
        ((F.files shelf.old).file (catalog_place folder.now)) made.keeper) }
{
    let name = catalog_name();
    match open(alloc, shelf, folder, name) {
        Ok((journal, payloads)) => match read_catalog(alloc, journal, payloads.as_slice()) {
            Ok(catalog) => Ok(catalog),
            Err((journal, fault)) => {
                give_back(shelf, folder, name, journal);
                Err(fault)
            }
        },
        Err(fault) => Err(unopened(alloc, ListFile::Catalog, fault)),
    }
}

/// Opens the file of the shard with this index, of `count` shards, which are from 1 to 64, and reads its list.
///
/// After an error the file is back. `Damaged`: its bytes are, or a record of it is illegal. `Fault`: the shelf failed, or the
/// disk. `Memory`: memory was wanting.
pub fn open_part<F: Shelf>(
    alloc: Global,
    shelf: &mut F,
    folder: &[u8],
    index: u8,
    count: u8,
) -> Result<Shard<Journal<F::Disk>>, LoadFault>
    requires shard { is_shard index count ≡ true }
    requires free { (F.files shelf.old).is_out (part_place folder.now index) ≡ false }
    ensures opened { IfOk result (IsPartOf F.Disk.moment F.Disk.left_at
        ((F.files shelf.old).file (part_place folder.now index)) index count) }
    ensures out { OnOk result ((F.files shelf.new).is_out (part_place folder.now index) ≡ true) }
    ensures back { OnErr result ((F.files shelf.new).is_out (part_place folder.now index) ≡ false) }
    ensures stays { OnErr result (StaysLike ((F.files shelf.old).file (part_place folder.now index))
        ((F.files shelf.new).file (part_place folder.now index))) }
    ensures others { ChangesAt (part_place folder.now index)
        (F.files shelf.old) (F.files shelf.new) }
    ensures why { IfErr result
        (IsPartFault ((F.files shelf.old).file (part_place folder.now index)) index count) }
    ensures cause { IsCaused Fault (F.faults shelf.old) (F.faults shelf.new) result }
    ensures stays_sound { StaysSound (F.sound shelf.old) (F.sound shelf.new)
        (F.faults shelf.old) (F.faults shelf.new) (IsErrOf result Fault) }
    ensures sound { IfOk result (λ made. F.sound shelf.old → IsSoundOut F.Disk.sound F.Disk.faults
        ((F.files shelf.old).file (part_place folder.now index)) made.keeper) }
{
    let name = part_name(index);
    match open(alloc, shelf, folder, &name) {
        Ok((journal, payloads)) => {
            match read_part(alloc, index, count, journal, payloads.as_slice()) {
                Ok(shard) => Ok(shard),
                Err((journal, fault)) => {
                    give_back(shelf, folder, &name, journal);
                    Err(fault)
                }
            }
        }
        Err(fault) => Err(unopened(alloc, ListFile::Part { index }, fault)),
    }
}
