//! How a record is made and put at the end of the list.

ghost use Rattle.std.specs.Prelude.{◌≡◌, ◌+◌, ◌-◌, ◌^◌, ◌<◌, ◌++◌, ◌∷◌, [], ◌⊎◌, length, slice_get, None, Some, IfOk, IfErr, OnErr, OnOk, vec_len, vec_capacity};
ghost use Rattle.qz_disks.specs.declared.keeper.KeepErr.TheVariants as fault;
ghost use Rattle.qz_grading.specs.declared.refusal.Refusal.TheVariants as refusal;
ghost use Rattle.qz_terms.specs.declared.reply.Reply.TheVariants as reply;
ghost use Rattle.qz_terms.specs.CatalogAnswer.{catalog_after, moment_in, record_in};
ghost use Rattle.qz_terms.specs.declared.record.Record.{Record};
ghost use Rattle.qz_terms.specs.declared.request.Request.{Request};
ghost use Rattle.qz_terms.specs.Catalog.{asked};
ghost use Rattle.qz_roster.specs.Roster.{HasRoom, IsNext, IsRosterOf};
ghost use Rattle.qz_catalog.specs.Applying.{CanPut, IsPosed, IsReady, MayPut, bank_after, bank_cause, bank_with};
ghost use Rattle.qz_catalog.specs.Holdings.{IsBook, IsIndexed, IsPin, IsShownBy};
ghost use Rattle.qz_catalog.specs.Keeping.{IsReadyToPut, IsTold, MayFollow};
ghost use Rattle.qz_keeper.specs.Recording.{IsRecorded, Recorded, failure};

use crate::book::Book;
use crate::pins::{keep_pin, pin_of};
use crate::replies::{number_of, said};
use qz_bank::{Entries, Prepared};
use qz_disks::KeepErr;
use qz_grading::Refusal;
use qz_keeper::Recorder;
use qz_terms::{Ask, Event, Plan, Record, Reply, Request, User, copy_of_text, make_room};
use qz_text::{NoMemory, TryCopy};
use std::alloc::Global;

/// The moment of a request: the clock's, but not before that of the last record.
pub(crate) fn moment_of(records: &[Record], now: u64) -> u64
    ensures { result ≡ moment_in records.now now }
{
    match records.last() {
        Some(record) => now.max(record.moment),
        None => now,
    }
}

/// The record that a request makes.
fn record_of(
    alloc: Global,
    records: &[Record],
    now: u64,
    user: &User,
    ask: &Ask,
) -> Result<Record, NoMemory>
    ensures { IfOk result (λ r. r ≡ record_in records.now now user.now ask.now) }
{
    Ok(Record {
        moment: moment_of(records, now),
        caller: user.number,
        owner: 0,
        key: copy_of_text(&ask.key, alloc)?,
        terms: None,
        event: Event::Asked {
            request: ask.request.try_copy(alloc)?,
        },
    })
}

/// Prepares what a request changes of the bank, if it does.
pub(crate) fn prepare(
    alloc: Global,
    entries: &Entries,
    request: &Request,
) -> Result<Option<Prepared>, Refusal>
    ensures ready { IfOk result (MayPut entries.now) }
    ensures prepared { IfOk result (λ p. bank_with entries.now p ≡ bank_after entries.now request.now) }
    ensures free { OnOk result (bank_cause entries.now request.now ≡ None) }
    ensures refused { IfErr result (λ r. (r ≡ Refusal.Memory) ⊎ (bank_cause entries.now request.now ≡ Some r)) }
{
    let prepared = match request {
        Request::Import { gift } => entries.prepare_import(alloc, gift.try_copy(alloc)?)?,
        Request::Edit { entry, gift } => {
            entries.prepare_edit(alloc, *entry, gift.try_copy(alloc)?)?
        }
        Request::Tune {
            entry,
            penalty,
            hints,
        } => entries.prepare_tune(alloc, *entry, *penalty, hints.try_copy(alloc)?)?,
        _ => return Ok(None),
    };
    Ok(Some(prepared))
}

/// Makes room for a record that is to stand behind those of a book.
pub(crate) fn make_book_room(
    alloc: Global,
    book: &mut Book,
    record: &Record,
) -> Result<(), NoMemory>
    requires roster { IsRosterOf book.old.records.items book.old.roster }
    requires next { IsNext book.old.records.items «record».now }
    ensures few { OnOk result (length book.new.records.items + 1 < 2 ^ 32 - 1) }
    ensures place { OnOk result (vec_len book.new.records < vec_capacity book.new.records) }
    ensures number { OnOk result (vec_len book.new.shown < vec_capacity book.new.shown) }
    ensures pin { OnOk result (vec_len book.new.pinned < vec_capacity book.new.pinned) }
    ensures room { OnOk result (HasRoom book.new.roster «record».now) }
    ensures roster { IsRosterOf book.new.records.items book.new.roster }
    ensures records { book.new.records.items ≡ book.old.records.items }
    ensures shown { book.new.shown.items ≡ book.old.shown.items }
    ensures pinned { book.new.pinned.items ≡ book.old.pinned.items }
    ensures entries { book.new.entries ≡ book.old.entries }
{
    make_room(&mut book.records)?;
    book.shown.reserve(1)?;
    book.pinned.reserve(1)?;
    book.roster.make_room(alloc, &book.records, record)
}

/// The number that the reply shows for the record at the end, or 0 where it shows none.
fn last_number(book: &Book, at: usize) -> u32
    requires indexed { IsIndexed book.now }
    requires last { length book.now.records.items ≡ at + 1 }
    ensures { (x : Request) (r : Record) → slice_get book.now.records.items at ≡ Some r → asked r ≡ Some x → IsShownBy book.now.records.items x result }
{
    match &book.records[at].event {
        Event::Asked { request } => number_of(book, request),
        _ => 0,
    }
}

/// Changes the bank as was prepared. It takes no memory.
fn change(entries: &mut Entries, prepared: Option<Prepared>)
    requires { MayPut entries.old prepared }
    ensures { entries.new ≡ bank_with entries.old prepared }
{
    if let Some(prepared) = prepared {
        entries.put(prepared);
    }
}

/// Puts a record, for which there is room, behind those of a book, with the change of the bank that was prepared for it and the
/// plan that it pins. It takes no memory.
pub(crate) fn append(
    alloc: Global,
    book: &mut Book,
    record: Record,
    prepared: Option<Prepared>,
    pin: Option<Plan>,
)
    requires ready { IsReady book.old «record» prepared }
    requires pin { IsPin book.old.records.items «record» pin }
    ensures records { book.new.records.items ≡ book.old.records.items ++ «record» ∷ [] }
    ensures entries { book.new.entries ≡ bank_with book.old.entries prepared }
    ensures book { IsBook book.new }
{
    change(&mut book.entries, prepared);
    book.roster.keep(alloc, &book.records, &record);
    let at = book.records.len();
    book.records.push(record).unwrap();
    let number = last_number(book, at);
    book.shown.push(number).unwrap();
    keep_pin(&mut book.pinned, pin);
}

/// Puts a record at the end, once it is recorded, with the change of the bank that was prepared for it. All that takes memory is
/// made first: where it is wanting or the record can't be recorded, the list and the bank are as before.
pub(crate) fn put_record<R: Recorder>(
    alloc: Global,
    book: &mut Book,
    record: Record,
    prepared: Option<Prepared>,
    recorder: &mut R,
) -> Result<(), KeepErr>
    requires book { IsBook book.old }
    requires can { CanPut book.old «record» prepared }
    requires ready { R.ready recorder.old «record» }
    ensures list { OnOk result (book.new.records.items ≡ book.old.records.items ++ «record» ∷ []) }
    ensures recorded { IsRecorded R.records «record» recorder.old recorder.new (failure result) }
    ensures unchanged { OnErr result (book.new.records.items ≡ book.old.records.items) }
    ensures book { IsBook book.new }
{
    let pin = pin_of(alloc, book, &record)?;
    make_book_room(alloc, book, &record)?;
    let record = recorder.take(alloc, record)?;
    // What follows takes no memory, and none of it fails.
    append(alloc, book, record, prepared, pin);
    Ok(())
}

/// What is told of a refusal, unless memory was wanting: that isn't an answer.
fn refused(why: Refusal) -> Result<Reply, KeepErr>
    ensures told { IfOk result (λ told. (told ≡ reply.Refused why) × (why ≡ refusal.Memory → ⊥)) }
    ensures wanting { IfErr result (λ e. e ≡ fault.Memory) }
{
    match why {
        Refusal::Memory => Err(KeepErr::Memory),
        refusal => Ok(Reply::Refused(refusal)),
    }
}

/// Puts the record that a request makes at the end, once it is recorded, and changes the bank with it. What may still refuse it is
/// decided before anything is changed. Where memory is wanting or the record can't be recorded, the list and the bank are as before.
pub(crate) fn put<R: Recorder>(
    alloc: Global,
    book: &mut Book,
    now: u64,
    user: &User,
    ask: &Ask,
    recorder: &mut R,
) -> Result<Reply, KeepErr>
    requires book { IsBook book.old }
    requires posed { IsPosed book.old.records.items book.old.entries now user.now ask.now }
    requires ready { IsReadyToPut R.ready recorder.old book.old.records.items now user.now ask.now }
    ensures told { IfOk result (λ told. IsTold now user.now ask.now book.old.records.items told book.new.records.items) }
    ensures recorded { Recorded R.records (MayFollow book.old.records.items) book.old.records.items
        (catalog_after book.old.records.items now user.now ask.now)
        recorder.old recorder.new (failure result) }
    ensures unchanged { OnErr result (book.new.records.items ≡ book.old.records.items) }
    ensures book { IsBook book.new }
{
    let prepared = match prepare(alloc, &book.entries, &ask.request) {
        Ok(prepared) => prepared,
        Err(why) => return refused(why),
    };
    let record = record_of(alloc, &book.records, now, user, ask)?;
    let at = book.records.len();
    put_record(alloc, book, record, prepared, recorder)?;
    Ok(said(book, at))
}
