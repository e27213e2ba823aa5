//! The catalogue: the records of a school's users, bank and quizzes, and what they tell.
#![tactic(auto)]

mod absent;
mod adopting;
mod book;
mod catalog;
mod catalog_core;
mod causes;
mod decision;
mod jobs;
mod keys;
mod legal;
mod loading;
mod missing;
mod people;
mod pins;
mod planning;
mod putting;
mod quizzes;
mod replies;
mod settings;
mod sizes;

pub use catalog::Catalog;
pub use catalog_core::CatalogCore;
