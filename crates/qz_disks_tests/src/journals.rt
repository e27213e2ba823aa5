ghost use Rattle.std.specs.Prelude.{◌≡◌, None, IfOk};

use qz_disks::{Fill, Keeper, MemoryDisk};
use qz_journal::{Journal, JournalFault};
use qz_text::{Bytes, Listed, NoMemory};
use std::alloc::Global;
use std::test::Fail;

fn listed(alloc: Global, numbers: &[u64]) -> Result<Listed<u64>, NoMemory> {
    Ok(Listed {
        items: Vec::from_slice(alloc, numbers)?,
    })
}

// A disk on which these bytes stand, whose calls of these numbers fail.
fn disk_of(alloc: Global, bytes: &[u8], failing: &[u64]) -> Result<MemoryDisk, NoMemory> {
    MemoryDisk::holding(alloc, bytes, listed(alloc, failing)?)
}

type Loaded = Result<(Journal<MemoryDisk>, Listed<Bytes>), JournalFault>;

// The journal of a file with these bytes, on a disk whose calls of these numbers fail.
fn loaded(alloc: Global, image: &[u8], failing: &[u64]) -> Loaded
    ensures { IfOk result (λ made. made.0.doubt ≡ None) }
{
    match Journal::load(alloc, disk_of(alloc, image, failing)?) {
        Ok(made) => Ok(made),
        Err((_, fault)) => Err(fault),
    }
}

#[test]
fn payloads_stand_in_frames(rt: HostRuntime) -> Result<(), Fail> {
    let alloc = rt.alloc();
    let (mut journal, payloads) = loaded(alloc, b"", &[])?;
    assert_eq!(rt; payloads.items.len(), 0);
    journal.append(alloc, &[7, 8])?;
    journal.append(alloc, b"")?;
    let disk = journal.into_disk();
    let image = b"QZJ1\x01\0\0\0\x01\x02\0\0\0\x07\x08\x01\0\0\0\0\0";
    let bytes = disk.bytes();
    assert!(rt; image.len() <= bytes.len());
    let (told, room) = bytes.split_at(image.len());
    assert_eq!(rt; told, image.as_slice());
    assert!(rt; room.iter().all(|byte| *byte == 0));
    let (_, payloads) = loaded(alloc, disk.bytes(), &[])?;
    assert_eq!(rt; payloads.items.len(), 2);
    assert_eq!(rt; payloads.items[0].as_slice(), [7u8, 8].as_slice());
    assert_eq!(rt; payloads.items[1].as_slice(), b"".as_slice());
    Ok(())
}

// Appends a payload of so many bytes.
fn with_one(
    alloc: Global,
    mut journal: Journal<MemoryDisk>,
    count: u16,
) -> Result<Journal<MemoryDisk>, Fail>
    requires { journal.doubt ≡ None }
    ensures { IfOk result (λ made. made.doubt ≡ None) }
{
    let payload = vec![in alloc; 1u8; usize::from(count)]?;
    journal.append(alloc, &payload)?;
    Ok(journal)
}

// How long a file is after appends of two payloads of so many bytes.
fn reach(alloc: Global, first: u16, second: u16) -> Result<usize, Fail> {
    let (journal, _) = loaded(alloc, b"", &[])?;
    let journal = with_one(alloc, journal, first)?;
    let journal = with_one(alloc, journal, second)?;
    Ok(journal.into_disk().bytes().len())
}

// A file grows by a frame and 4,096 zeros, and not again as long as a frame fits in them.
#[test]
fn room_is_made_ahead(rt: HostRuntime) -> Result<(), Fail> {
    let alloc = rt.alloc();
    for (first, second, told) in [
        (2, 0, 4_112),
        (2, 4_091, 4_112),
        (2, 4_092, 8_209),
        (5_000, 0, 9_110),
    ] {
        let found = reach(alloc, first, second)?;
        assert_eq!(rt; found, told);
    }
    Ok(())
}

// How many payloads the bytes of a file stand for and how many bytes are left of it, or the fault.
fn judged(alloc: Global, image: &[u8]) -> Result<(usize, usize), JournalFault> {
    let (journal, payloads) = loaded(alloc, image, &[])?;
    Ok((payloads.items.len(), journal.into_disk().bytes().len()))
}

#[test]
fn images_are_judged(rt: HostRuntime) -> Result<(), Fail> {
    let alloc = rt.alloc();
    let rows: [(&[u8], Result<(usize, usize), JournalFault>); 8] = [
        (b"\xff\xff\xff\xff\xff\xff\xff\xff\x01", Ok((0, 9))),
        (b"QZJ1\x01\0\0\0\xff\x01\x01", Ok((0, 9))),
        (b"QZJ1\x01\0\0\0\x01\x01\0\0\0\x09\0", Ok((1, 15))),
        (b"QZJ1\x01\0\0\0\x01\x01\0\0\0\x09\x02\x01\x01", Ok((1, 15))),
        (
            b"\0\0\0\0\0\0\0\0\0\0",
            Err(JournalFault::Damaged { place: 0 }),
        ),
        (
            b"QZJ1\x01\0\0\0\x01\x01\0\0\0\x09",
            Err(JournalFault::Damaged { place: 8 }),
        ),
        (
            b"QZJ1\x01\0\0\0\x01\x01\0",
            Err(JournalFault::Damaged { place: 8 }),
        ),
        (
            b"QZJ1\x01\0\0\0\x01\x01\0\0\0\x09\x01\x02\0\0\0\x09\0",
            Err(JournalFault::Damaged { place: 14 }),
        ),
    ];
    for (image, told) in rows {
        assert_eq!(rt; judged(alloc, image), told);
    }
    Ok(())
}

// Whether an append succeeds of which a call fails, and how many payloads a stop behind it leaves.
fn stopped(alloc: Global, failing: u64, fill: Fill) -> Result<(bool, usize), Fail> {
    let (mut journal, _) = loaded(alloc, b"", &[failing])?;
    let is_done = journal.append(alloc, b"one").is_ok();
    let left = journal.into_disk().stopped(alloc, fill)?;
    let (_, payloads) = loaded(alloc, left.bytes(), &[])?;
    Ok((is_done, payloads.items.len()))
}

#[test]
fn each_stop_leaves_the_payload_or_not(rt: HostRuntime) -> Result<(), Fail> {
    let alloc = rt.alloc();
    // The call of an append before which it stops, and how many payloads are left where what wasn't synced stands as before
    // it, as written, as bytes 1, and as bytes 255.
    for (number, counts) in [
        (6, [0, 0, 0, 0]),
        (7, [0, 0, 0, 0]),
        (8, [0, 0, 0, 0]),
        (9, [0, 1, 1, 0]),
        (10, [1, 1, 1, 1]),
    ] {
        let fills = [Fill::Old, Fill::New, Fill::Ones, Fill::Full];
        for (fill, count) in fills.into_iter().zip(counts) {
            let told = stopped(alloc, number, fill)?;
            assert_eq!(rt; told, (number == 10, count), "call {number}");
        }
    }
    Ok(())
}
