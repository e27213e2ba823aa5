//! The links of the outside, the doors at which they come, and the clock: as traits, in memory, and over std.
#![tactic(auto)]

mod clock;
mod door;
mod duplex;
mod gate;
mod link;
mod memory_clock;
mod memory_door;
mod memory_link;
mod send;
mod std_clock;
mod tcp;

pub use clock::Clock;
pub use door::Door;
pub use duplex::Duplex;
pub use gate::{Gate, Gates};
pub use link::Link;
pub use memory_clock::MemoryClock;
pub use memory_door::MemoryDoor;
pub use memory_link::MemoryLink;
pub use send::send_all;
pub use std_clock::StdClock;
pub use tcp::{BindFault, TcpDoor, TcpLink};
