//! Doors whose links never wait, served on one thread: each link is taken to a desk that is free, served there to its end, and given back.
#![tactic(auto)]

mod began;
mod bells;
mod desks;
mod end;
mod lead;
mod ringing;
mod round;
mod serve;
mod slot;
mod socket_watch;
mod watch;

pub use end::{PollEnd, PollWhy};
pub use serve::serve_ready;
pub use socket_watch::SocketWatch;
pub use watch::{Unwatched, Watch};
