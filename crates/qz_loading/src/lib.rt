//! The lists of a school: loaded from its folder, and given back to it.
#![tactic(auto)]

mod closing;
mod fault;
pub mod laws;
mod loading;
mod names;
mod opening;
mod parts;
mod places;
mod telling;

pub use closing::close;
pub use fault::LoadFault;
pub use loading::load;
pub use opening::{Loaded, open_catalog, open_part};
