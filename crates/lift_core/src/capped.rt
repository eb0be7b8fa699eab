//! Which columns of a system have a cap.

ghost use Rattle.std.specs.Prelude.{◌≡◌, ◌≤◌, length};
ghost use Rattle.lift_core.specs.Inside.Capped.{capped_from};

use std::marker::Model;

/// The places of the columns that have a cap, in ascending order. Most systems have one such column or none, so a test of
/// the caps goes over these alone. They need no memory of their own, since a system has at most 129 columns.
#[derive(Drop)]
pub(crate) struct CappedColumns {
    places: [u8; 129],
    count: usize,
}

impl Model for CappedColumns {
    ghost use Rattle.std.specs.Prelude.{List, ℕ, ◌≤◌, take};

    ghost Value = { List ℕ };

    ghost view = { λ c. take c.count c.places };

    ghost invariant = { λ c. c.count ≤ 129 };
}

impl CappedColumns {
    /// Those of the columns with these caps.
    pub fn of(caps: &[Option<u64>]) -> CappedColumns
        requires { length caps.now ≤ 129 }
        ensures { result ≡ capped_from 0 caps.now }
    {
        let mut places = [0; 129];
        let mut count = 0;
        for (place, cap) in caps.iter().enumerate() {
            if cap.is_some() {
                places[count] = place as u8;
                count += 1;
            }
        }
        CappedColumns { places, count }
    }

    /// Their places, counted from 0.
    pub fn places(&self) -> &[u8]
        ensures { result.now ≡ self.now }
    {
        &self.places[..self.count]
    }
}
