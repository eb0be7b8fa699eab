//! The number of pairs up to a norm, beside a look at each pair.

ghost use Rattle.std.specs.Prelude.{◌≤◌, nat_abs};

use crate::plain::pair_norm;
use crate::rebuilds::listed_rows;
use crate::stages::{close_some, first};
use row_pool::{Pool, RowId};
use stage_store::{Stage, pairs_within};
use std::alloc::{AllocError, Global};
use std::test::Fail;

// How many rows make with f a pair of norm at most `most`.
fn partners(rows: &Pool, f: &[i64], most: u64) -> u64 {
    let mut count: u64 = 0;
    for place in 0..rows.len() {
        if pair_norm(f, rows.row(RowId(place))).is_some_and(|norm| norm <= most) {
            count = count.saturating_add(1);
        }
    }
    count
}

// The number of pairs of norm at most `most`.
fn plain_count(rows: &Pool, most: u64) -> u64 {
    let mut count: u64 = 0;
    for place in 0..rows.len() {
        count = count.saturating_add(partners(rows, rows.row(RowId(place)), most));
    }
    count
}

// The least norm up to 30 for which the two counts of a stage differ, once so many norms are closed.
fn first_difference(
    alloc: Global,
    stage: &mut Stage,
    norms: u32,
) -> Result<Option<u64>, AllocError> {
    close_some(alloc, stage, norms)?;
    stage.keeps();
    let rows = listed_rows(alloc, stage)?;
    for most in 0..30 {
        if pairs_within(&rows, most) != plain_count(&rows, most) {
            return Ok(Some(most));
        }
    }
    Ok(None)
}

// The next number of a linear congruential generator (Knuth's MMIX).
fn next(number: u64) -> u64 {
    number
        .wrapping_mul(6364136223846793005)
        .wrapping_add(1442695040888963407)
}

// A number from -9 to 9 of a generated number.
fn entry(number: u64) -> i64
    ensures { nat_abs result ≤ 9 }
{
    (number % 19) as i64 - 9
}

// The same of the stage of a generated equation.
fn generated_difference(alloc: Global, number: u64, norms: u32) -> Result<Option<u64>, AllocError> {
    let row = [
        entry(number >> 52),
        entry(number >> 40),
        entry(number >> 28),
    ];
    let mut stage = first(alloc, row, 2, None)?;
    first_difference(alloc, &mut stage, norms)
}

// The first number of norms after which the two counts differ, each time of another equation.
fn first_miscount(alloc: Global) -> Result<Option<u32>, AllocError> {
    let mut number = 3;
    for norms in 1..12 {
        number = next(number);
        if generated_difference(alloc, number, norms)?.is_some() {
            return Ok(Some(norms));
        }
    }
    Ok(None)
}

#[test]
fn pairs_within_counts_each_pair(rt: HostRuntime) -> Result<(), Fail> {
    assert_eq!(rt; first_miscount(rt.alloc())?, None);
    Ok(())
}
