//! What is wrong with a text.

ghost use Rattle.std.specs.Prelude.{◌≡◌};
ghost use Rattle.mat_files.specs.declared.faults.TextEnd.TheVariants.{Bad, Memory};

use std::alloc::{AllocError, AllocFailed};

/// The first fault of a text in reading order. A place is a number of bytes, counted from 0.
#[derive(Clone, Copy, Debug, PartialEq, Eq)]
pub enum TextFault {
    /// The word that begins here stands in a number's place and is none.
    NotNumber { at: u64 },
    /// The word that begins here stands in a relation's place and is none.
    NotRelation { at: u64 },
    /// The word that begins here stands in a cap's place and is none.
    NotCap { at: u64 },
    /// The number or cap that begins here has an absolute value above 2^63 - 1.
    OutOfRange { at: u64 },
    /// The text ends here, and a word is missing.
    Early { at: u64 },
    /// The word that begins here follows the last cell.
    Extra { at: u64 },
    /// The count of rows is above the limit.
    TooManyRows { found: u64 },
    /// The count of columns is above the limit.
    TooManyCols { found: u64 },
    /// The count of columns is 0.
    NoCols,
}

/// Why a text was not read.
#[derive(Clone, Copy, Debug, PartialEq, Eq)]
pub enum TextEnd {
    /// The text has this fault.
    Bad(TextFault),
    /// Memory ran out.
    Memory,
}

impl From<AllocError> for TextEnd {
    ghost from_gives = { λ _ e. e ≡ Memory };

    fn from(_: AllocError) -> TextEnd {
        TextEnd::Memory
    }
}

impl<T: Drop> From<AllocFailed<T>> for TextEnd {
    ghost from_gives = { λ _ e. e ≡ Memory };

    fn from(_: AllocFailed<T>) -> TextEnd {
        TextEnd::Memory
    }
}

impl From<TextFault> for TextEnd {
    ghost from_gives = { λ fault e. e ≡ Bad fault };

    fn from(fault: TextFault) -> TextEnd {
        TextEnd::Bad(fault)
    }
}
