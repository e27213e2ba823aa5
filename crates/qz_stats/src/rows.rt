//! What is told of a slot.

use qz_decimal::Fraction;
use qz_text::Listed;

/// How often a choice was picked: one of a version of a slot's question, counted from 1, or 0 where nothing was answered. An attempt
/// counts once, by its last response before the finish.
#[derive(Clone, Copy, Debug, PartialEq, Eq)]
pub struct PickRow {
    pub version: u32,
    pub pick: u8,
    pub count: u32,
}

/// How a slot was answered.
#[derive(Drop)]
pub struct SlotRow {
    /// The slot's number, from 1.
    pub slot: u16,
    /// How many attempts have a mark there.
    pub tried: u32,
    /// The sum of these marks over the sum of their max marks (in 10^-7): 0 where that is 0. Certainty may bring it below 0 or above 1.
    pub facility: Fraction,
    /// The choices of each version that is bound, in order of version and number. A question whose choices aren't picked has none.
    pub picks: Listed<PickRow>,
}
