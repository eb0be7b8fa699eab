//! Negatives of rows. Where each listed row has its negative listed too, a pair and that of the negatives of its rows have
//! an irreducible sum together or not at all, so one of both is sifted.

ghost use Rattle.std.specs.Prelude.{◌≡◌, ◌+◌, ◌%◌, ◌<◌, ◌≤◌, ◌^◌, length, IsTrue, OnOk, neg_ℤ};
ghost use Rattle.int_vector.specs.Vectors.{negated};
ghost use Rattle.stage_store.specs.Mirror.{AreNegatives, AreCouples, AddsTurned, IsTurnedLevels, place_in};
ghost use Rattle.stage_store.specs.Mirror.{turned_item, turned_place};

use row_pool::{Pool, RowId};
use std::alloc::AllocError;

/// Whether a number is the negative of another.
fn are_opposite(x: i64, y: i64) -> bool
    ensures { IsTrue result → x ≡ neg_ℤ y }
{
    match x.checked_add(y) {
        Some(sum) => sum == 0,
        None => false,
    }
}

/// Whether a vector is the negative of another.
fn is_negative(u: &[i64], v: &[i64]) -> bool
    ensures { IsTrue result → u.now ≡ negated v.now }
{
    if u.len() != v.len() {
        return false;
    }
    for k in 0..u.len() {
        if !are_opposite(u[k], v[k]) {
            return false;
        }
    }
    true
}

/// The place that a place has when those from `from` up to `to` are taken in the other order.
fn place_turned(from: u32, to: u32, k: u32) -> u32
    requires from { from ≤ k }
    requires to { k < to }
    ensures place { result ≡ turned_place from to k }
    ensures inside { result < to }
{
    to - 1 - (k - from)
}

/// Whether the rows from a place on are the negatives of themselves in the other order.
pub fn are_turned(listed: &Pool, from: u32) -> bool
    ensures { IsTrue result → AreNegatives listed.now.rows from }
{
    let to = listed.len();
    for k in from..to {
        let other = place_turned(from, to, k);
        if !is_negative(listed.row(RowId(other)), listed.row(RowId(k))) {
            return false;
        }
    }
    true
}

/// Adds the places from `from` up to `to`, in the other order.
pub fn add_turned(mirror: &mut Vec<u32>, from: u32, to: u32) -> Result<(), AllocError>
    requires count { length mirror.old.items ≡ from }
    requires ordered { from ≤ to }
    ensures { OnOk result (AddsTurned from to mirror.old.items mirror.new.items) }
{
    for k in from..to {
        mirror.push(place_turned(from, to, k))?;
    }
    Ok(())
}

/// Whether the mirror gives a place for another.
fn is_mirrored(mirror: &[u32], i: u32, j: u32) -> bool
    ensures { IsTrue result → (i < length mirror.now) × (place_in mirror.now i ≡ j) }
{
    match mirror.get(i as usize) {
        Some(place) => *place == j,
        None => false,
    }
}

/// Whether the mirror gives places for others, one by one.
pub fn are_couples(mirror: &[u32], plus: &[u32], minus: &[u32]) -> bool
    ensures { IsTrue result → AreCouples mirror.now plus.now minus.now }
{
    if plus.len() != minus.len() {
        return false;
    }
    for k in 0..plus.len() {
        if !is_mirrored(mirror, plus[k], minus[k]) {
            return false;
        }
    }
    true
}

/// The item of the same column and the other sign, of so many items.
fn item_turned(item: usize, count: usize) -> usize
    requires item { item < count }
    requires even { count % 2 ≡ 0 }
    ensures item { result ≡ turned_item item }
    ensures inside { result < count }
{
    if item % 2 == 0 { item + 1 } else { item - 1 }
}

/// Writes the levels of a row's negative: those of each item of the other sign.
pub fn fill_turned(levels: &[u8], turned: &mut [u8])
    requires lengths { length levels.now ≡ length turned.old }
    requires even { length levels.now % 2 ≡ 0 }
    ensures { IsTurnedLevels levels.now turned.new }
{
    for k in 0..turned.len() {
        turned[k] = levels[item_turned(k, levels.len())];
    }
}
