//! A mark for each new place of a school's lists: whether a note speaks for it.

ghost use Rattle.std.specs.Prelude.{◌≡◌, ◌≤◌, ◌&&◌, ◌||◌, [], ◌-◌, IfOk, MatchOption, length, not, position, replicate, slice_get, unwrap_or, false};
ghost use Rattle.qz_gathering.specs.Gathering.{count_before, is_owned, number_for};
ghost use Rattle.qz_gathering.specs.Marking.{AreMarked, HasMarks, HaveMarks, IsFirstMissing, MarksNote, NoneMissing, marked};
ghost use Rattle.qz_school.specs.Solos.{IsSolo, lists_in, school_of};
ghost use Rattle.qz_terms.specs.declared.limits.TheConstants.{MOST_SHARDS};

use crate::owners::owns;
use qz_catalog::Catalog;
use qz_disks::Keeper;
use qz_gather::Note;
use qz_shard::Shard;
use qz_solo::Solo;
use qz_text::{Listed, NoMemory};
use qz_visit::Last;
use std::alloc::Global;

/// A mark for each place of the catalogue's list and of each shard's, in order, behind those that were there before anything was asked.
#[derive(Drop)]
pub(crate) struct Marks {
    pub catalog: Listed<bool>,
    pub parts: Vec<Listed<bool>>,
}

/// A place without a mark: of this shard's list (`None`: of the catalogue's), and its number among those with a mark, from 0.
#[derive(Drop)]
pub(crate) struct Missing {
    pub list: Option<u8>,
    pub index: usize,
}

/// The number for the shard at this index, and 0 where there is no such shard.
fn number_at(parts: &[u64], index: usize) -> u64
    ensures { result ≡ unwrap_or (slice_get parts.now index) 0 }
{
    match parts.get(index) {
        Some(number) => *number,
        None => 0,
    }
}

/// Of numbers for the catalogue and for each shard, the one for this list, and 0 where there is no such shard.
fn number_for(catalog: u64, parts: &[u64], list: Option<u8>) -> u64
    ensures { result ≡ number_for catalog parts.now list }
{
    match list {
        None => catalog,
        Some(shard) => number_at(parts, usize::from(shard)),
    }
}

/// How many records of a list were there before anything was asked.
pub(crate) fn count_before(base: &Last, list: Option<u8>) -> u64
    ensures { result ≡ count_before base.now list }
{
    number_for(base.catalog, base.parts.as_slice(), list)
}

/// So many places without a mark, but for those that were there before.
fn unmarked(alloc: Global, count: u64, before: u64) -> Result<Listed<bool>, NoMemory>
    ensures { IfOk result (λ marks. marks ≡ replicate (count - before) false) }
{
    Ok(Listed {
        items: vec![in alloc; false; count.saturating_sub(before) as usize]?,
    })
}

/// No place of a school has a mark yet.
pub(crate) fn none_marked<K: Keeper>(
    alloc: Global,
    catalog: &Catalog<K>,
    shards: &[Shard<K>],
    base: &Last,
) -> Result<Marks, NoMemory>
    requires { IsSolo catalog.now shards.now }
    ensures marked { IfOk result (AreMarked (lists_in (school_of catalog.now shards.now)) base.now []) }
    ensures few { IfOk result (λ marks. length marks.parts.items ≤ MOST_SHARDS) }
{
    // There are 64 at most.
    let _first = shards[0].len();
    let mut parts = Vec::with_capacity(alloc, shards.len())?;
    for (index, shard) in shards.iter().enumerate() {
        let before = number_at(base.parts.as_slice(), index);
        parts.push(unmarked(alloc, shard.len(), before)?)?;
    }
    Ok(Marks {
        catalog: unmarked(alloc, catalog.len(), base.catalog)?,
        parts,
    })
}

/// Whether the record at a place of a note's list is one of its request.
fn is_owned<K: Keeper>(solo: &Solo<K>, note: &Note, place: u64) -> bool
    ensures { result ≡ is_owned (lists_in solo.now) note.now place }
{
    match solo.record_at(note.list, place) {
        Some(record) => owns(&note.ask, record),
        None => false,
    }
}

/// Marks the place for which a note speaks, if it is one of these.
fn mark_in<K: Keeper>(solo: &Solo<K>, marks: &mut Listed<bool>, note: &Note, base: &Last)
    requires { HasMarks (lists_in solo.now) base.now note.now.list marks.old }
    ensures { marks.new ≡ marked (lists_in solo.now) base.now note.now marks.old }
{
    let count = number_for(note.catalog, note.parts.as_slice(), note.list);
    let before = count_before(base, note.list);
    if count < before {
        return;
    }
    let index = count - before;
    if index >= marks.items.len() as u64 {
        return;
    }
    if note.put || (note.doubt && is_owned(solo, note, count + 1)) {
        marks.items[index as usize] = true;
    }
}

/// Marks the place for which a note speaks, if it is a new one.
fn mark<K: Keeper>(solo: &Solo<K>, marks: &mut Marks, note: &Note, base: &Last)
    requires { HaveMarks (lists_in solo.now) base.now marks.old }
    ensures { MarksNote (lists_in solo.now) base.now note.now marks.old marks.new }
{
    match note.list {
        None => mark_in(solo, &mut marks.catalog, note, base),
        Some(shard) => {
            let index = usize::from(shard);
            if index < marks.parts.len() {
                mark_in(solo, &mut marks.parts[index], note, base);
            }
        }
    }
}

/// Marks each place for which a note speaks.
pub(crate) fn mark_all<K: Keeper>(solo: &Solo<K>, marks: &mut Marks, notes: &[Note], base: &Last)
    requires { AreMarked (lists_in solo.now) base.now [] marks.old }
    ensures marked { AreMarked (lists_in solo.now) base.now notes.now marks.new }
    ensures count { length marks.new.parts.items ≡ length marks.old.parts.items }
{
    for note in notes {
        mark(solo, marks, note, base);
    }
}

fn first_unmarked(marks: &[bool]) -> Option<usize>
    ensures { result ≡ position not marks.now }
{
    marks.iter().position(|mark| !*mark)
}

/// The first place without a mark, the catalogue's list before those of the shards.
pub(crate) fn first_missing(marks: &Marks) -> Option<Missing>
    requires { length marks.now.parts.items ≤ MOST_SHARDS }
    ensures { MatchOption result (NoneMissing marks.now) (λ m. IsFirstMissing marks.now m.list m.index) }
{
    if let Some(index) = first_unmarked(marks.catalog.as_slice()) {
        return Some(Missing { list: None, index });
    }
    for (shard, part) in marks.parts.iter().enumerate() {
        if let Some(index) = first_unmarked(part.as_slice()) {
            return Some(Missing {
                list: Some(shard as u8),
                index,
            });
        }
    }
    None
}
