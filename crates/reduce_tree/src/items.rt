//! Where a row is filed: in a part by the sign of its last entry, and there by the classes of its first items, from one
//! side or the other.
//!
//! An item is a column with a sign: number 2 c for entries of column c that are not below 0, and 2 c + 1 for those below.
//! The class of an item is the number of its first mark in a signature. In rows of more than 64 entries some items share
//! one, and a search looks at more rows than it need.

ghost use Rattle.std.specs.Prelude.{◌≡◌, ◌+◌, ◌*◌, ◌<◌, ◌≤◌, length, IfSome};
ghost use Rattle.reduce_tree.specs.Items.{item_at, part_at, part_of, size_of, IsRowClass, IsKeyOf};

/// From which side the columns are looked at that a row is filed by. The last entry of a row is none of them.
#[derive(Clone, Copy, Drop)]
pub enum FiledBy {
    /// From the first column on.
    FirstColumns,
    /// From the last column on: where few rows agree in these, as in a column of x0.
    LastColumns,
}

/// A row's part, and the classes of its first three items: 127 for each that it does not have.
#[derive(Clone, Copy)]
pub struct Key {
    pub part: u8,
    pub first: u8,
    pub second: u8,
    pub third: u8,
}

/// The item of an entry of a column.
pub fn item_at(column: usize, entry: i64) -> usize
    requires { column < 130 }
    ensures value { result ≡ item_at column entry }
    ensures most { result ≤ 2 * column + 1 }
{
    2 * column + usize::from(entry < 0)
}

/// The key of a row with this signature, for which each item has marks for `levels` thresholds.
pub fn key_of(row: &[i64], by: FiledBy, levels: usize, bits: u128) -> Key
    requires narrow { length row.now ≤ 130 }
    requires levels { levels ≤ 16 }
    ensures key { IsKeyOf row.now bits result }
    ensures first { result.first < 128 }
    ensures second { result.second < 128 }
    ensures third { result.third < 128 }
{
    let first = place_from(row, by, 0);
    let second = place_from(row, by, first + 1);
    let third = place_from(row, by, second + 1);
    Key {
        part: part_of(row),
        first: class_at(row, by, first, levels, bits),
        second: class_at(row, by, second, levels, bits),
        third: class_at(row, by, third, levels, bits),
    }
}

/// The column that is looked at as number `place`, if there is one.
fn column_at(row: &[i64], by: FiledBy, place: usize) -> Option<usize>
    ensures { IfSome result (λ column. column < length row.now) }
{
    let columns = row.len().checked_sub(1)?;
    if place >= columns {
        return None;
    }
    match by {
        FiledBy::FirstColumns => Some(place),
        FiledBy::LastColumns => Some(columns - 1 - place),
    }
}

/// The first place from one on whose column has an entry that is not 0, or the number of entries where there is none.
fn place_from(row: &[i64], by: FiledBy, from: usize) -> usize
    ensures { result ≤ length row.now }
{
    for place in from..row.len() {
        if let Some(column) = column_at(row, by, place) {
            if row[column] != 0 {
                return place;
            }
        }
    }
    row.len()
}

/// The class of the item of a row's entry at a place, and 127 where there is none.
fn class_at(row: &[i64], by: FiledBy, place: usize, levels: usize, bits: u128) -> u8
    requires narrow { length row.now ≤ 130 }
    requires levels { levels ≤ 16 }
    ensures class { IsRowClass bits result }
    ensures most { result < 128 }
{
    if let Some(column) = column_at(row, by, place) {
        let class = item_at(column, row[column]) * levels % 128;
        if (bits >> class) & 1 == 1 {
            return class as u8;
        }
    }
    127
}

/// The part of a row: 0, 1 or 2, where its last entry is 0, above 0 or below 0.
pub fn part_of(row: &[i64]) -> u8
    ensures { result ≡ part_of row.now }
{
    if row.is_empty() {
        return 0;
    }
    part_at(row[row.len() - 1])
}

/// The part of the rows with this last entry.
fn part_at(last: i64) -> u8
    ensures { result ≡ part_at last }
{
    if last == 0 {
        0
    } else if last > 0 {
        1
    } else {
        2
    }
}

/// The absolute value of a row's last entry, or the greatest number of 32 bits where it is above that.
pub fn size_of(row: &[i64]) -> u32
    ensures { result ≡ size_of row.now }
{
    if row.is_empty() {
        return 0;
    }
    let size = row[row.len() - 1].unsigned_abs();
    if size < u64::from(u32::MAX) {
        size as u32
    } else {
        u32::MAX
    }
}
