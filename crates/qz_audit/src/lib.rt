//! The command that serves doors over the school of a folder by clerks, and tells whose each new record of its lists is.
#![tactic(auto)]

mod auditing;
mod counting;
mod folders;
mod saying;

pub use auditing::AuditEnd;
pub use folders::audit_folder;
