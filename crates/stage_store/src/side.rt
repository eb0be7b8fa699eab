//! The two sides of t, the last entry of a row.

/// The sign of a last entry that is not 0.
#[derive(Clone, Copy, Drop)]
pub enum Side {
    /// Above 0.
    Plus,
    /// Below 0.
    Minus,
}
