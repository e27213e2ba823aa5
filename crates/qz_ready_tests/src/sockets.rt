ghost use Rattle.std.specs.Prelude.{◌<◌, OnSome};

use mio::Poll;
use mio::net::TcpListener;
use qz_outside::Failed;
use qz_ready::{Arrival, Look, ReadyDoor, ReadyLink, ReadyTcpDoor, ReadyTcpLink};
use std::io;
use std::io::{Read, Write};
use std::net::{Ipv4Addr, SocketAddr, SocketAddrV4, TcpStream};
use std::test::Fail;
use std::thread::yield_now;

// A call that finds nothing yet is made again so often at most.
const TRIES: u32 = 10_000_000;

fn next_of(door: &mut ReadyTcpDoor) -> Option<ReadyTcpLink>
    ensures { OnSome result (0 < door.new.out) }
{
    for _ in 0..TRIES {
        match door.try_next() {
            Ok(Arrival::Link(link)) => return Some(link),
            Ok(Arrival::NotYet) => yield_now(),
            Ok(Arrival::Over) | Err(Failed) => return None,
        }
    }
    None
}

fn read_of(link: &mut ReadyTcpLink, room: &mut [u8]) -> Option<usize> {
    for _ in 0..TRIES {
        match link.try_read(room) {
            Ok(Look::Moved(count)) => return Some(count),
            Ok(Look::NotYet) => yield_now(),
            Err(Failed) => return None,
        }
    }
    None
}

// Asks and tells over one connection: whether each side reads what the other wrote, and nothing is there before.
fn talk_over<P: Read + Write>(peer: &mut P, link: &mut ReadyTcpLink) -> io::Result<bool> {
    let mut room = [0; 4];
    let is_early = link.try_read(&mut room) == Ok(Look::NotYet);
    peer.write_all(b"ask")?;
    let is_asked = read_of(link, &mut room[..3]) == Some(3) && room == *b"ask\0";
    let is_sent = link.try_write(b"told") == Ok(Look::Moved(4));
    peer.read_exact(&mut room)?;
    Ok(is_early && is_asked && is_sent && room == *b"told")
}

#[test]
fn sockets_never_wait(rt: HostRuntime) -> Result<(), Fail> {
    let poll = Poll::new(&rt)?;
    let any = SocketAddr::V4(SocketAddrV4::new(Ipv4Addr::LOCALHOST, 0));
    let listener = TcpListener::bind(&rt, any)?;
    let address = listener.local_addr()?;
    let mut door = ReadyTcpDoor::over(listener, poll.registry().try_clone()?)?;
    assert!(rt; matches!(door.try_next(), Ok(Arrival::NotYet)));
    let mut peer = TcpStream::connect(&rt, address)?;
    let Some(mut link) = next_of(&mut door) else {
        panic!(rt; "no link came");
    };
    assert!(rt; talk_over(&mut peer, &mut link)?);
    drop(peer);
    assert_eq!(rt; read_of(&mut link, &mut [0; 1]), Some(0));
    assert_eq!(rt; (link.key(), link.faults(), door.faults()), (1, 0, 0));
    door.back(link);
    Ok(())
}
