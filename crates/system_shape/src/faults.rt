//! What is wrong with the user's matrices.

ghost use Rattle.std.specs.Prelude.{◌≡◌};
ghost use Rattle.system_shape.specs.declared.faults.ShapeEnd.TheVariants.{Bad, Memory};

use std::alloc::{AllocError, AllocFailed};

/// The first fault of the files that go with a matrix of m rows and n columns. The faults of the signs come first,
/// those of the columns by column, then that of the relations, then those of the right sides, then that of the caps.
#[derive(Clone, Copy, Debug, PartialEq, Eq)]
pub enum ShapeFault {
    /// The tool is `zsolve`, and there are no signs.
    SignNeeded,
    /// The signs are not 1 x n.
    SignShape { rows: u32, cols: u32 },
    /// The sign of this column, counted from 1, is none of 0, 1, -1 and 2.
    BadSign { at: u32, value: i64 },
    /// The sign of this column, counted from 1, is 0: a free variable of 4ti2, with which the minimal solutions are
    /// not unique. It is not supported.
    Free { at: u32 },
    /// The relations are not 1 x m.
    RelShape { rows: u32, cols: u32 },
    /// There are right sides, and the tool is not `zsolve`.
    RhsNotHere,
    /// The right sides are not 1 x m.
    RhsShape { rows: u32, cols: u32 },
    /// The caps are not 1 x n.
    CapShape { rows: u32, cols: u32 },
}

/// Why no system was made.
#[derive(Clone, Copy, Debug, PartialEq, Eq)]
pub enum ShapeEnd {
    /// The files have this fault.
    Bad(ShapeFault),
    /// Memory ran out.
    Memory,
}

impl From<AllocError> for ShapeEnd {
    ghost from_gives = { λ _ e. e ≡ Memory };

    fn from(_: AllocError) -> ShapeEnd {
        ShapeEnd::Memory
    }
}
