use qz_disks::{Disk, FileDisk, FolderShelf, Shelf, ShelfErr};
use qz_outside::Failed;
use std::alloc::Global;
use std::fs::{File, Files};
use std::process::Abort;
use std::test::Fail;
use std::{fs, io};

fn file_disk_at(rt: &impl Files<File = File>, path: &str) -> io::Result<FileDisk> {
    let file = File::options()
        .read(true)
        .write(true)
        .create(true)
        .truncate(true)
        .open(rt, path)?;
    Ok(FileDisk::new(file))
}

// Writes past the end, and cuts a part of that off.
fn write_twice(disk: &mut FileDisk) -> Result<(), Failed> {
    disk.write_at(0, b"abcd")?;
    disk.sync()?;
    disk.write_at(3, b"xyz")?;
    disk.cut(5)?;
    disk.sync()
}

// The bytes from the second on.
fn read_four(disk: &mut FileDisk) -> Result<[u8; 4], Failed> {
    let mut target = [0u8; 4];
    disk.read_at(1, &mut target)?;
    Ok(target)
}

#[test]
fn a_file_is_a_disk(rt: HostRuntime) -> Result<(), Fail> {
    let path = "qz_disks_test.tmp";
    let mut disk = file_disk_at(&rt, path)?;
    write_twice(&mut disk)?;
    assert_eq!(rt; disk.size(), Ok(5));
    assert_eq!(rt; read_four(&mut disk), Ok(*b"bcxy"));
    // Past the end there is nothing to read, and no file has so many bytes.
    assert_eq!(rt; disk.read_at(2, &mut [0u8; 4]), Err(Failed));
    assert_eq!(rt; disk.write_at(u64::MAX, b"x"), Err(Failed));
    fs::remove_file(&rt, path)?;
    Ok(())
}

// A device that is full, that has no size, and that the system doesn't sync.
#[test]
fn what_the_system_refuses_fails(rt: HostRuntime) -> Result<(), Fail> {
    let mut disk = file_disk_at(&rt, "/dev/full")?;
    assert_eq!(rt; disk.write_at(0, b"abcd"), Err(Failed));
    assert_eq!(rt; disk.cut(2), Err(Failed));
    assert_eq!(rt; disk.sync(), Err(Failed));
    assert_eq!(rt; disk.faults(), 3);
    Ok(())
}

fn can_be_sent<T: Send>(_sent: &T) {}

// Hands out a file that isn't out.
fn opened<R: Files<File = File>>(
    rt: &impl Abort,
    alloc: Global,
    shelf: &mut FolderShelf<R>,
    folder: &[u8],
) -> Result<FileDisk, ShelfErr> {
    assert!(rt; !shelf.is_out(folder, b"one"));
    shelf.disk(alloc, folder, b"one")
}

// Gives back a file that is out.
fn closed<R: Files<File = File>>(
    rt: &impl Abort,
    shelf: &mut FolderShelf<R>,
    folder: &[u8],
    disk: FileDisk,
) {
    assert!(rt; shelf.is_out(folder, b"one"));
    shelf.back(folder, b"one", disk);
}

// Writes four bytes to a file. While it is out: why another shelf doesn't get it, and what a read behind them answers.
fn written<R: Files<File = File>>(
    rt: &impl Abort,
    alloc: Global,
    shelf: &mut FolderShelf<R>,
    other: &mut FolderShelf<R>,
    folder: &[u8],
) -> Result<(Option<ShelfErr>, Result<(), Failed>), ShelfErr> {
    let mut disk = opened(rt, alloc, shelf, folder)?;
    can_be_sent(&disk);
    disk.write_at(0, b"abcd")?;
    disk.sync()?;
    let refused = opened(rt, alloc, other, folder).err();
    let behind = disk.read_at(4, &mut [0u8; 1]);
    closed(rt, shelf, folder, disk);
    Ok((refused, behind))
}

// The fourth byte of a file, and how many faults its disk had counted before.
fn read_fourth<R: Files<File = File>>(
    rt: &impl Abort,
    alloc: Global,
    shelf: &mut FolderShelf<R>,
    folder: &[u8],
) -> Result<([u8; 1], u64), ShelfErr> {
    let mut disk = opened(rt, alloc, shelf, folder)?;
    let faults = disk.faults();
    let mut target = [0u8; 1];
    disk.read_at(3, &mut target)?;
    closed(rt, shelf, folder, disk);
    Ok((target, faults))
}

fn length_of(rt: &impl Files<File = File>, path: &str) -> io::Result<u64> {
    Ok(File::open(rt, path)?.metadata()?.len())
}

// Spares all but the first bytes of a file, and writes to it or not. How long it is while it is out, and then.
fn lengths<R: Files<File = File>>(
    rt: &(impl Abort + Files<File = File>),
    alloc: Global,
    shelf: &mut FolderShelf<R>,
    folder: &[u8],
    path: &str,
    piece: Option<&[u8]>,
) -> Result<(u64, u64), Fail> {
    let mut disk = opened(rt, alloc, shelf, folder)?;
    disk.spare(3);
    if let Some(piece) = piece {
        disk.write_at(4, piece)?;
    }
    let out = length_of(rt, path)?;
    closed(rt, shelf, folder, disk);
    Ok((out, length_of(rt, path)?))
}

#[test]
fn a_folder_is_a_shelf(rt: HostRuntime) -> Result<(), Fail> {
    let alloc = rt.alloc();
    let folder = b"qz_disks_shelf.tmp";
    let mut shelf = FolderShelf::new(alloc, &rt);
    let mut other = FolderShelf::new(alloc, &rt);
    // No other shelf gets the file as long as it is out.
    let told = written(&rt, alloc, &mut shelf, &mut other, folder)?;
    assert_eq!(rt; told, (Some(ShelfErr::Failed), Err(Failed)));
    assert_eq!(rt; (shelf.faults(), other.faults()), (1, 1));
    let told = read_fourth(&rt, alloc, &mut other, folder)?;
    assert_eq!(rt; told, (*b"d", 0));
    // What is spared is cut off as the file is given back, unless it was written to since.
    let path = "qz_disks_shelf.tmp/one";
    for (piece, told) in [(Some(b"ef".as_slice()), (6, 6)), (None, (6, 3))] {
        let found = lengths(&rt, alloc, &mut shelf, folder, path, piece)?;
        assert_eq!(rt; found, told);
    }
    // One folder is made, and none above it; a name that is no text is no file's.
    for folder in [b"qz_disks_none.tmp/deep".as_slice(), b"\xff"] {
        let refused = opened(&rt, alloc, &mut shelf, folder).err();
        assert_eq!(rt; refused, Some(ShelfErr::Failed));
    }
    fs::remove_file(&rt, path)?;
    fs::remove_dir(&rt, "qz_disks_shelf.tmp")?;
    Ok(())
}
