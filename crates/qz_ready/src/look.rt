//! What a try of a link found.

/// What a try of a link found: some bytes that it moved, or none to move yet.
#[derive(Clone, Copy, Debug, PartialEq, Eq)]
pub enum Look {
    /// It moved so many bytes.
    Moved(usize),
    /// None could be moved yet.
    NotYet,
}
