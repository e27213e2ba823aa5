//! Links and doors that never wait: each call moves what there is, or finds nothing yet. As traits, in memory, and over
//! sockets whose readiness the system tells.
#![tactic(auto)]

mod arrival;
mod look;
mod pace;
mod paced_door;
mod paced_link;
mod ready_door;
mod ready_link;
mod tcp_door;
mod tcp_link;

pub use arrival::Arrival;
pub use look::Look;
pub use pace::{Pace, Turn};
pub use paced_door::PacedDoor;
pub use paced_link::PacedLink;
pub use ready_door::ReadyDoor;
pub use ready_link::ReadyLink;
pub use tcp_door::ReadyTcpDoor;
pub use tcp_link::ReadyTcpLink;
