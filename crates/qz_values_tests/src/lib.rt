//! Tests of numbers, texts, the outside and the ends of commands. In a crate of their own, so that they are proved
//! without proving what they test once more.
#![tactic(auto)]

#[cfg(test)]
mod decimal;
#[cfg(test)]
mod ending;
#[cfg(test)]
mod outside;
#[cfg(test)]
mod text;
