//! The number of pairs up to a norm, of rows in ascending order. It takes no memory.

ghost use Rattle.std.specs.Prelude.{◌≡◌, ◌<◌, ◌≤◌, ◌^◌, ℕ, [], length, slice_index_or};
ghost use Rattle.std.specs.List.{AllByRecursion};
ghost use Rattle.std.specs.List.Sorted.{IsStrictlySortedBy};
ghost use Rattle.lift_core.specs.Stages.{stage_norm, norm_cmp, pairs_within};
ghost use Rattle.stage_store.specs.CountedPairs.{IsWithinReach, IsBeyondReach};

use crate::growing::has_sign;
use crate::side::Side;
use int_vector::norm;
use row_pool::{Pool, RowId};

/// How far a first row reaches: the rows before place `end`, `seconds` of them with a last entry
/// below 0.
#[derive(Clone, Copy)]
struct Reach {
    end: u32,
    seconds: u64,
}

/// The number of pairs of norm at most `norm`.
pub fn pairs_within(listed: &Pool, norm: u64) -> u64
    requires width { 0 < listed.now.width }
    requires ascending { IsStrictlySortedBy norm_cmp listed.now.rows }
    requires small { AllByRecursion (λ z. stage_norm z ≤ 9223372036854775807) listed.now.rows }
    requires few { length listed.now.rows ≤ 2 ^ 21 }
    ensures { result ≡ pairs_within listed.now.rows norm }
{
    let width = listed.width() as usize - 1;
    let mut pairs = 0;
    let mut reach = Reach { end: 0, seconds: 0 };
    // From the last first row to the first, as a row of less norm reaches further.
    for i in (0..listed.len()).rev() {
        if has_sign(listed.row(RowId(i)), width, Side::Plus) {
            reach = extended_reach(listed, norm_at(listed, i), norm, reach);
            pairs += reach.seconds;
        }
    }
    pairs
}

/// How far a first row of norm `first` reaches, from the reach of a row of no less norm.
fn extended_reach(listed: &Pool, first: u64, norm: u64, reach: Reach) -> Reach
    requires width { 0 < listed.now.width }
    requires ascending { IsStrictlySortedBy norm_cmp listed.now.rows }
    requires small { AllByRecursion (λ z. stage_norm z ≤ 9223372036854775807) listed.now.rows }
    requires few { length listed.now.rows ≤ 2 ^ 21 }
    requires first { first ≤ 9223372036854775807 }
    requires within { IsWithinReach listed.now.rows first norm reach.end reach.seconds }
    ensures within { IsWithinReach listed.now.rows first norm result.end result.seconds }
    ensures beyond { IsBeyondReach listed.now.rows first norm result.end }
{
    let width = listed.width() as usize - 1;
    let mut seconds = reach.seconds;
    for end in reach.end..listed.len() {
        if first + norm_at(listed, end) > norm {
            return Reach { end, seconds };
        }
        if has_sign(listed.row(RowId(end)), width, Side::Minus) {
            seconds += 1;
        }
    }
    Reach {
        end: listed.len(),
        seconds,
    }
}

/// How many of the rows, the first ones, have at most a norm.
pub fn rows_within(listed: &Pool, most: u64) -> u32
    requires width { 0 < listed.now.width }
    requires ascending { IsStrictlySortedBy norm_cmp listed.now.rows }
    requires small { AllByRecursion (λ z. stage_norm z ≤ 9223372036854775807) listed.now.rows }
    ensures within { result ≤ length listed.now.rows }
    ensures behind { (k : ℕ) → result ≤ k → k < length listed.now.rows
        → most < stage_norm (slice_index_or listed.now.rows k []) }
{
    let mut low = 0;
    let mut high = listed.len();
    while low < high {
        let middle = low + (high - low) / 2;
        if norm_at(listed, middle) <= most {
            low = middle + 1;
        } else {
            high = middle;
        }
    }
    high
}

/// The norm of the row at a place.
#[tactic(auto, using(crate::proofs::Signs::front_laws))]
pub fn norm_at(listed: &Pool, place: u32) -> u64
    requires width { 0 < listed.now.width }
    requires small { AllByRecursion (λ z. stage_norm z ≤ 9223372036854775807) listed.now.rows }
    requires place { place < length listed.now.rows }
    ensures norm { result ≡ stage_norm (slice_index_or listed.now.rows place []) }
    ensures most { result ≤ 9223372036854775807 }
{
    let row = listed.row(RowId(place));
    match norm(&row[..row.len() - 1]) {
        Some(n) => n,
        None => unreachable!(),
    }
}
