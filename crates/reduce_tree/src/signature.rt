//! Signatures: sets of 128 bits, such that the signature of a row below another is part of the other's.
//!
//! A mark is a bit that says that the entry of an item reaches a threshold. Each item has marks for the first `levels`
//! thresholds, and a threshold's number among them is its level. Where 128 bits are too few, marks share them in turn.

ghost use Rattle.std.specs.Prelude.{◌≡◌, ◌+◌, ◌*◌, ◌<◌, ◌≤◌, length};
ghost use Rattle.reduce_tree.specs.Signatures.{marks_of, entry_marks, signature_of};

use crate::items::item_at;

/// The absolute values that an entry has to reach for its marks, in ascending order.
pub const THRESHOLDS: [u64; 16] = [1, 2, 3, 4, 6, 8, 11, 16, 23, 32, 45, 64, 90, 128, 181, 256];

/// The signature of a row: the marks of all its entries.
pub fn signature(row: &[i64], levels: usize) -> u128
    requires levels { levels ≤ 16 }
    requires narrow { length row.now ≤ 130 }
    ensures { result ≡ signature_of levels row.now }
{
    let mut signature = 0;
    for column in 0..row.len() {
        signature |= entry_marks(row[column], column, levels);
    }
    signature
}

/// The marks of an entry of a column: those of its item for the thresholds up to its absolute value.
fn entry_marks(entry: i64, column: usize, levels: usize) -> u128
    requires levels { levels ≤ 16 }
    requires column { column < 130 }
    ensures { result ≡ entry_marks levels column entry }
{
    // Most entries are 0.
    if entry == 0 {
        return 0;
    }
    marks(
        item_at(column, entry) * levels,
        &THRESHOLDS[..levels],
        entry.unsigned_abs(),
    )
}

/// A bit for each threshold up to the first that `size` does not reach, from bit number `first` on.
fn marks(first: usize, thresholds: &[u64], size: u64) -> u128
    requires { first + length thresholds.now < 65536 }
    ensures { result ≡ marks_of first thresholds.now size }
{
    let mut marks = 0;
    for level in 0..thresholds.len() {
        if size < thresholds[level] {
            return marks;
        }
        marks |= 1_u128 << ((first + level) % 128);
    }
    marks
}
