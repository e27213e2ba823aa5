//! An attempt as a page of HTML, and the grades of a quiz as a text with columns and as a table of comma-separated values, made
//! from the answers that tell them.
#![tactic(auto)]

mod dates;
mod pages;
mod reports;
mod shown;
mod tables;

pub use dates::civil;
pub use pages::page;
pub use reports::report_text;
pub use shown::mark_onto;
pub use tables::report_csv;
