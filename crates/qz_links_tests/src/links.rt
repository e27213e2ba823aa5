use qz_links::{
    BindFault, Clock, Door, Gate, Gates, Link, MemoryLink, StdClock, TcpDoor, TcpLink, send_all,
};
use qz_outside::{Failed, MemorySink, MemorySource};
use qz_text::{Bytes, Listed, NoMemory};
use std::alloc::Global;
use std::io::{ErrorKind, Read, Write};
use std::net::{Net, Shutdown, SocketAddr, TcpListener, TcpStream};
use std::sync::atomic::{AtomicU64, Ordering};
use std::test::Fail;
use std::thread::Threads;
use std::time::Duration;
use std::{io, thread, time};

fn listed(alloc: Global, numbers: &[u64]) -> Result<Listed<u64>, NoMemory> {
    Ok(Listed {
        items: Vec::from_slice(alloc, numbers)?,
    })
}

// A link whose peer sends these bytes, three by three, with room for six, which it takes two by two.
fn link_of(alloc: Global, bytes: &[u8], read: u64, write: u64) -> Result<MemoryLink, NoMemory> {
    let source = MemorySource::new(Bytes::of(alloc, bytes)?, listed(alloc, &[read])?, 3);
    let sink = MemorySink::new(alloc, 6, listed(alloc, &[write])?, 2)?;
    Ok(MemoryLink::new(source, sink))
}

// Reads once of the first link, and tells whether the gate is open then; meanwhile it writes once to the second.
fn read_beside<R: Threads>(
    rt: &R,
    mut first: MemoryLink,
    mut second: MemoryLink,
    gate: Gate,
) -> (MemoryLink, bool) {
    let (read, _) = thread::join(
        rt,
        move || -> (MemoryLink, bool) {
            let _ = first.read(&mut [0; 4]);
            let open = gate.is_open();
            (first, open)
        },
        move || -> MemoryLink {
            let _ = second.write(b"a");
            second
        },
    );
    read
}

// Two links: the first read of one waits for the first write to the other.
fn gated_links(alloc: Global, gate: &Gate) -> Result<(MemoryLink, MemoryLink), NoMemory> {
    let reads = Gates::none().waiting(1, gate.try_share()?);
    let first = link_of(alloc, b"abc", 9, 9)?.gated(reads, Gates::none());
    let writes = Gates::none().opening(1, gate.try_share()?);
    let second = link_of(alloc, b"", 9, 9)?.gated(Gates::none(), writes);
    Ok((first, second))
}

#[test]
fn a_thread_waits_for_another(rt: HostRuntime) -> Result<(), Fail> {
    let alloc = rt.alloc();
    let gate = Gate::new(alloc)?;
    let (first, second) = gated_links(alloc, &gate)?;
    let (link, open) = read_beside(&rt, first, second, gate);
    assert!(rt; open && !link.ran_out() && link.left().is_empty());
    Ok(())
}

// Takes a link and gives it back, where one comes.
fn pass_one<D: Door>(door: &mut D) -> Result<bool, Failed> {
    match door.next()? {
        Some(link) => {
            door.back(link);
            Ok(true)
        }
        None => Ok(false),
    }
}

// A clock that can't be read while it stands at 0.
#[derive(Drop)]
struct Watch {
    seconds: AtomicU64,
}

impl time::Clock for Watch {
    fn monotonic(&self) -> io::Result<Duration> {
        self.since_1970()
    }

    fn since_1970(&self) -> io::Result<Duration> {
        match self.seconds.load(Ordering::SeqCst) {
            0 => Err(io::Error::from(ErrorKind::Other)),
            seconds => Ok(Duration::from_secs(seconds)),
        }
    }
}

#[test]
fn the_systems_clock_tells_its_last_moment(rt: HostRuntime) -> Result<(), Fail> {
    let watch = Watch {
        seconds: AtomicU64::new(0),
    };
    let mut clock = StdClock::new(&watch);
    for (seconds, moment) in [
        (0, 0),
        (7, 7),
        (0, 7),
        (4_102_444_799, 4_102_444_799),
        (4_102_444_800, 4_102_444_799),
        (0, 4_102_444_799),
        (6, 6),
    ] {
        watch.seconds.store(seconds, Ordering::SeqCst);
        assert_eq!(rt; clock.now(), moment);
    }
    assert!(rt; StdClock::new(&rt).now() > 1_700_000_000);
    Ok(())
}

// What a worker is handed goes to its thread.
fn can_be_sent<T: Send>(_sent: &T) {}

// Asks and tells over one connection: whether each side reads what the other wrote.
fn talk_over<P: Read + Write>(peer: &mut P, link: &mut TcpLink) -> io::Result<bool> {
    let mut room = [0; 4];
    peer.write_all(b"ask")?;
    let is_asked = link.read(&mut room[..3]) == Ok(3) && room == *b"ask\0";
    let is_sent = send_all(link, b"told").is_ok();
    peer.read_exact(&mut room)?;
    Ok(is_asked && is_sent && room == *b"told")
}

// The same at a door, which gets the link back when the peer has left: whether all went well, without a fault of the link.
fn serve_one<R: Net<Listener = TcpListener, Stream = TcpStream>>(
    rt: &R,
    door: &mut TcpDoor,
    address: SocketAddr,
) -> io::Result<bool> {
    let mut peer = TcpStream::connect(rt, address)?;
    let Ok(Some(mut link)) = door.next() else {
        return Ok(false);
    };
    let is_well = talk_over(&mut peer, &mut link)?;
    drop(peer);
    let is_over = link.read(&mut [0; 1]) == Ok(0) && link.faults() == 0;
    door.back(link);
    Ok(is_well && is_over)
}

#[test]
fn sockets_are_links(rt: HostRuntime) -> Result<(), Fail> {
    let listener = TcpListener::bind(&rt, "127.0.0.1:0")?;
    let address = listener.local_addr()?;
    let mut door = TcpDoor::over(listener);
    let mut other = door.try_share()?;
    assert!(rt; serve_one(&rt, &mut door, address)?);
    assert!(rt; serve_one(&rt, &mut other, address)?);
    assert!(rt; serve_one(&rt, &mut door, address)?);
    assert!(rt; (door.faults(), other.faults()) == (0, 0));
    can_be_sent(&door);
    can_be_sent(&StdClock::new(rt));
    Ok(())
}

// A link that can't be read yet, nor written to any more.
fn broken<R: Net<Listener = TcpListener, Stream = TcpStream>>(
    rt: &R,
    address: SocketAddr,
) -> io::Result<TcpLink> {
    let peer = TcpStream::connect(rt, address)?;
    peer.set_nonblocking(true)?;
    peer.shutdown(Shutdown::Write)?;
    TcpLink::over(peer)
}

// What two calls answer at the door of a listener where one connection waits, and how many faults were counted.
fn passed_once(listener: TcpListener) -> io::Result<([Result<bool, Failed>; 2], u64)> {
    listener.set_nonblocking(true)?;
    let mut door = TcpDoor::over(listener);
    let first = pass_one(&mut door);
    let second = pass_one(&mut door);
    Ok(([first, second], door.faults()))
}

// Whether a door that is opened there is reached.
fn reached<R: Net<Listener = TcpListener, Stream = TcpStream>>(
    rt: &R,
    address: SocketAddr,
) -> io::Result<bool> {
    let Ok(mut door) = TcpDoor::bind(rt, address.port()) else {
        return Ok(false);
    };
    let _peer = TcpStream::connect(rt, address)?;
    Ok(pass_one(&mut door) == Ok(true))
}

#[test]
fn sockets_fail(rt: HostRuntime) -> Result<(), Fail> {
    let listener = TcpListener::bind(&rt, "127.0.0.1:0")?;
    let address = listener.local_addr()?;
    let fault = TcpDoor::bind(&rt, address.port()).err();
    assert!(rt; fault == Some(BindFault::InUse));
    let mut link = broken(&rt, address)?;
    assert!(rt; link.read(&mut [0; 4]) == Err(Failed));
    assert!(rt; link.write(b"a") == Err(Failed));
    assert!(rt; link.faults() == 2);
    let told = passed_once(listener)?;
    assert!(rt; told == ([Ok(true), Err(Failed)], 1));
    drop(link);
    // The port is free now.
    assert!(rt; reached(&rt, address)?);
    Ok(())
}
