//! What a run is given of the system: doors, clocks, and a door whose links never wait; or such at which nobody comes.

ghost use Rattle.std.specs.Prelude.{◌≡◌, length, IfOk};

use mio::Poll;
use qz_ending::Stop;
use qz_links::{BindFault, MemoryDoor, MemoryLink, StdClock, TcpDoor};
use qz_ready::{Pace, PacedDoor, PacedLink, ReadyTcpDoor};
use qz_ready_doors::SocketWatch;
use qz_text::{Listed, NoMemory, Text};
use std::alloc::Global;
use std::io;
use std::io::ErrorKind;
use std::net::{Ipv4Addr, SocketAddr, SocketAddrV4};

/// How many doors a run is given.
pub const DOORS: usize = 16;

/// A clock of the system.
pub type SystemClock = StdClock<HostRuntime>;

/// A door at which nobody comes.
pub type NoDoor = MemoryDoor<MemoryLink>;

/// The same, where links never wait.
pub type NoReadyDoor = PacedDoor<MemoryDoor<PacedLink<MemoryLink>>>;

/// Why there are no doors.
#[derive(Clone, Copy)]
pub enum Doorless {
    Bound(BindFault),
    Shared,
    Memory,
}

impl Doorless {
    /// Says on standard error why nothing is served at this port.
    pub fn tell(self, rt: &HostRuntime, port: u16) -> Stop {
        let told = match self {
            Doorless::Bound(BindFault::InUse) => eprintln!(rt;
                "quizd: port {port} is in use by another program"
            ),
            Doorless::Bound(BindFault::NotAllowed) => eprintln!(rt;
                "quizd: port {port} may not be opened by this user"
            ),
            Doorless::Bound(BindFault::Other) => {
                eprintln!(rt; "quizd: port {port} can't be opened")
            }
            Doorless::Shared => {
                eprintln!(rt; "quizd: the listener at port {port} can't be shared")
            }
            Doorless::Memory => return Stop::Memory,
        };
        // Where standard error fails too, the status tells it.
        let _ = told;
        Stop::DoorFault
    }
}

/// Says on standard error that a folder can't be used, where a run ended for that.
pub fn tell_folder(rt: &HostRuntime, folder: &Text, status: u8) {
    if status == Stop::ShelfFault.status() {
        let folder = folder.as_str();
        // Where standard error fails too, the status tells it.
        let _ = eprintln!(rt;
            "quizd: the folder {folder} can't be used: it or a file of it can't be opened, read or written, or another program holds it"
        );
    }
}

/// Sixteen doors at a port of this machine, which share one listener, each with the system's clock.
pub fn open_doors(rt: HostRuntime, port: u16) -> Result<Vec<(TcpDoor, SystemClock)>, Doorless>
    ensures { IfOk result (λ doors. length doors.items ≡ DOORS) }
{
    let mut first = match TcpDoor::bind(&rt, port) {
        Ok(door) => door,
        Err(fault) => return Err(Doorless::Bound(fault)),
    };
    let Ok(mut doors) = Vec::with_capacity(rt.alloc(), DOORS) else {
        return Err(Doorless::Memory);
    };
    for _ in 0..DOORS - 1 {
        let Ok(door) = first.try_share() else {
            return Err(Doorless::Shared);
        };
        doors.push_reserved((door, StdClock::new(rt)));
    }
    doors.push_reserved((first, StdClock::new(rt)));
    Ok(doors)
}

/// Sixteen doors at which nobody comes.
pub fn no_doors(rt: HostRuntime) -> Result<Vec<(NoDoor, SystemClock)>, NoMemory>
    ensures { IfOk result (λ doors. length doors.items ≡ DOORS) }
{
    let alloc = rt.alloc();
    let mut doors = Vec::with_capacity(alloc, DOORS)?;
    for _ in 0..DOORS {
        let door = MemoryDoor::new(alloc, Listed::empty(alloc), Listed::empty(alloc))?;
        doors.push_reserved((door, StdClock::new(rt)));
    }
    Ok(doors)
}

/// So many clocks, each the system's.
pub fn system_clocks(rt: HostRuntime, count: usize) -> Result<Vec<SystemClock>, NoMemory>
    ensures { IfOk result (λ clocks. length clocks.items ≡ count) }
{
    let mut clocks = Vec::with_capacity(rt.alloc(), count)?;
    for _ in 0..count {
        clocks.push_reserved(StdClock::new(rt));
    }
    Ok(clocks)
}

/// A door at a port of 127.0.0.1 whose links never wait, and the watch over it and them.
pub fn open_ready(rt: HostRuntime, port: u16) -> Result<(ReadyTcpDoor, SocketWatch), Doorless> {
    match bind_ready(rt, port) {
        Ok((door, poll)) => match SocketWatch::over(rt.alloc(), poll) {
            Ok(watch) => Ok((door, watch)),
            Err(NoMemory) => Err(Doorless::Memory),
        },
        Err(error) => Err(Doorless::Bound(match error.kind() {
            ErrorKind::AddrInUse => BindFault::InUse,
            ErrorKind::PermissionDenied => BindFault::NotAllowed,
            _ => BindFault::Other,
        })),
    }
}

fn bind_ready(rt: HostRuntime, port: u16) -> io::Result<(ReadyTcpDoor, Poll)> {
    let poll = Poll::new(&rt)?;
    let here = SocketAddr::V4(SocketAddrV4::new(Ipv4Addr::LOCALHOST, port));
    let listener = mio::net::TcpListener::bind(&rt, here)?;
    let door = ReadyTcpDoor::over(listener, poll.registry().try_clone()?)?;
    Ok((door, poll))
}

/// A door at which nobody comes, where links never wait.
pub fn no_ready(alloc: Global) -> Result<NoReadyDoor, NoMemory> {
    let door = MemoryDoor::new(alloc, Listed::empty(alloc), Listed::empty(alloc))?;
    Ok(PacedDoor::new(0, door, Pace::new(Listed::empty(alloc))))
}
