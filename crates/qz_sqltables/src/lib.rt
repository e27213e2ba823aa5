//! The four tables of a keeper in a SQLite database: their schema, and what is written to them and read from them.
#![tactic(auto)]

mod reads;
mod recognize;
mod remake;
mod schema;
mod writes;

pub use reads::{read_payloads, read_places, read_waiting};
pub use recognize::{is_blank, is_keepers};
pub use remake::remake_tables;
pub use schema::make_tables;
pub use writes::{put_attempt, put_payload, put_reply, put_step, set_status};
