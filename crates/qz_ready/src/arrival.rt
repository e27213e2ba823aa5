//! What a try of a door found.

/// What a try of a door found.
#[derive(Drop)]
pub enum Arrival<L> {
    /// A link came.
    Link(L),
    /// None has come yet.
    NotYet,
    /// No more come.
    Over,
}
