//! What the definitions say of rows of three columns and a last entry, by a look at each.

use row_pool::{Pool, RowId};
use stage_store::Stage;

// An entry of a row, and 0 where there is none.
fn entry(row: &[i64], column: usize) -> i64 {
    match row.get(column) {
        Some(entry) => *entry,
        None => 0,
    }
}

// An entry of the sum of two rows.
fn entry_of_sum(f: &[i64], g: &[i64], column: usize) -> i64 {
    entry(f, column).saturating_add(entry(g, column))
}

// The norm, without the last entry.
fn norm_of(row: &[i64]) -> u64 {
    let mut norm: u64 = 0;
    for column in 0..3 {
        norm = norm.saturating_add(entry(row, column).unsigned_abs());
    }
    norm
}

/// The norm of a pair: f has a last entry above 0, and g has one below 0.
pub fn pair_norm(f: &[i64], g: &[i64]) -> Option<u64> {
    if entry(f, 3) > 0 && entry(g, 3) < 0 {
        Some(norm_of(f).saturating_add(norm_of(g)))
    } else {
        None
    }
}

// Whether two entries have no opposite signs, and their sum stays within the cap.
fn entries_add(a: i64, b: i64, cap: u64) -> bool {
    let is_opposite = (a < 0 && 0 < b) || (b < 0 && 0 < a);
    !is_opposite && a.saturating_add(b).unsigned_abs() <= cap
}

// Whether the entries of the three columns add.
fn rows_add(f: &[i64], g: &[i64], cap: u64) -> bool {
    entries_add(entry(f, 0), entry(g, 0), cap)
        && entries_add(entry(f, 1), entry(g, 1), cap)
        && entries_add(entry(f, 2), entry(g, 2), cap)
}

// Whether h is below the sum of f and g, the last entries included.
fn is_below_sum(h: &[i64], f: &[i64], g: &[i64]) -> bool {
    for column in 0..4 {
        let (a, z) = (entry(h, column), entry_of_sum(f, g, column));
        if !((0 <= a && a <= z) || (z <= a && a <= 0)) {
            return false;
        }
    }
    true
}

// Whether no listed row is below the sum of f and g.
fn is_irreducible(stage: &Stage, f: &[i64], g: &[i64]) -> bool {
    for place in 0..stage.len() {
        if is_below_sum(stage.row(RowId(place)), f, g) {
            return false;
        }
    }
    true
}

/// Whether f and g are a pair of this norm that has an irreducible sum.
pub fn has_new_sum(stage: &Stage, f: &[i64], g: &[i64], norm: u64, cap: u64) -> bool {
    pair_norm(f, g) == Some(norm) && rows_add(f, g, cap) && is_irreducible(stage, f, g)
}

/// Whether z is the sum of f and g.
pub fn is_sum(z: &[i64], f: &[i64], g: &[i64]) -> bool {
    for column in 0..4 {
        if entry(z, column) != entry_of_sum(f, g, column) {
            return false;
        }
    }
    true
}

/// Whether the sum of f and g is among the rows.
pub fn is_among(rows: &Pool, f: &[i64], g: &[i64]) -> bool {
    for place in 0..rows.len() {
        if is_sum(rows.row(RowId(place)), f, g) {
            return true;
        }
    }
    false
}

// How many rows g there are with which f is a pair of this norm that has an irreducible sum.
fn count_with(stage: &Stage, f: &[i64], norm: u64, cap: u64) -> u32 {
    let mut count: u32 = 0;
    for place in 0..stage.len() {
        if has_new_sum(stage, f, stage.row(RowId(place)), norm, cap) {
            count = count.saturating_add(1);
        }
    }
    count
}

/// The number of pairs of this norm that have an irreducible sum.
pub fn count_new_sums(stage: &Stage, norm: u64, cap: u64) -> u32 {
    let mut count: u32 = 0;
    for place in 0..stage.len() {
        count = count.saturating_add(count_with(stage, stage.row(RowId(place)), norm, cap));
    }
    count
}
