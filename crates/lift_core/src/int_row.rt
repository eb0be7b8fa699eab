//! A vector that is kept.

ghost use Rattle.std.specs.Prelude.{◌≡◌};

use std::marker::Model;

/// A vector of whole numbers of its own, seen as the list of its entries.
#[derive(Debug, Drop)]
pub struct IntRow {
    cells: Vec<i64>,
}

impl Model for IntRow {
    ghost use Rattle.std.specs.Prelude.{List, ℤ};

    ghost Value = { List ℤ };

    ghost view = { λ r. r.cells.items };
}

impl IntRow {
    /// The vector with these entries, whose memory it takes over.
    pub fn new(cells: Vec<i64>) -> IntRow
        ensures { result ≡ cells.items }
    {
        IntRow { cells }
    }

    /// Its entries.
    pub fn cells(&self) -> &[i64]
        ensures { result.now ≡ self.now }
    {
        &self.cells
    }
}
