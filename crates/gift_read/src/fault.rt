//! Why a text has no reading.

ghost use Rattle.std.specs.Prelude.{◌≡◌};
ghost use Rattle.gift_read.specs.declared.fault.GiftFault.TheVariants.{Memory};

use qz_text::NoMemory;

/// Why a text has no reading.
#[derive(Clone, Copy, Debug, PartialEq, Eq)]
pub enum GiftFault {
    /// The first block at fault breaks this rule, and none with a lesser number. Lines count from 1.
    ///
    /// 1: the text isn't UTF-8. 2: a text, a question or the number of its pieces is past its limit. 3: the path of a
    /// category. 4: a name without its end. 5: braces. 6: a blank piece, or too few. 7: a weight. 8: pairs. 9: a number.
    /// 10: feedback of a true-false or numerical question. 11: no right choice.
    Malformed { line: u32, rule: u8 },
    /// Memory was wanting.
    Memory,
}

impl From<NoMemory> for GiftFault {
    ghost from_gives = { λ _ e. e ≡ Memory };

    fn from(_: NoMemory) -> Self {
        GiftFault::Memory
    }
}
