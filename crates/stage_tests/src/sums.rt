//! The sums that `gather` gives for the pairs of a norm, range by range, beside the plain definition: all pairs of listed rows
//! with that norm whose sum has no opposite signs, stays within the caps and has no listed row below it.

ghost use Rattle.std.specs.Prelude.{◌≡◌, ◌+◌, ◌≤◌, length, OnOk};
ghost use Rattle.lift_core.specs.ToolSystems.{width};

use crate::plain::{has_new_sum, is_among, is_sum};
use crate::stages::{close_next, first};
use row_pool::{Pool, RowId};
use stage_store::{Hints, Next, Stage};
use std::alloc::{AllocError, Global};
use std::test::Fail;

// More norms than a stage of these tests has.
const NORMS: u32 = 100;
// More than any entry of these tests.
const NO_CAP: u64 = 1_000_000;

// Makes room for so many rows more.
fn make_room(rows: &mut Pool, count: u32) -> Result<(), AllocError>
    ensures width { rows.new.width ≡ rows.old.width }
    ensures room { OnOk result (count ≤ rows.new.spare) }
{
    match rows.len().checked_add(count) {
        Some(_) => rows.reserve(count),
        None => Err(AllocError),
    }
}

// Takes in the sums of `size` pairs from number `first` on, or of those that are left.
fn take_range(
    stage: &Stage,
    norm: u64,
    first: u64,
    size: u32,
    hints: &mut Hints,
    sum: &mut [i64],
    rows: &mut Pool,
) -> Result<(), AllocError>
    requires small { norm ≤ 9223372036854775807 }
    requires sum { length sum.old ≡ width stage.now.system.equations + 1 }
    requires width { rows.old.width ≡ width stage.now.system.equations + 1 }
    ensures sum { length sum.new ≡ length sum.old }
    ensures width { rows.new.width ≡ rows.old.width }
{
    let left = stage.pairs_at(norm).saturating_sub(first);
    let count = left.min(u64::from(size));
    if count == 0 {
        return Ok(());
    }
    make_room(rows, size)?;
    stage.gather(norm, first, count, hints, sum, rows);
    Ok(())
}

// The sums of all pairs of a norm, in ranges of this size, as a worker gathers them.
fn gathered(alloc: Global, stage: &Stage, norm: u64, size: u32) -> Result<Pool, AllocError>
    requires { norm ≤ 9223372036854775807 }
{
    stage.keeps();
    let width = stage.system().width() + 1;
    let mut rows = Pool::new(alloc, width);
    let mut hints = Hints::new(alloc)?;
    let mut sum = vec![in alloc; 0; width as usize]?;
    // There are no more ranges than pairs.
    for k in 0..stage.pairs_at(norm) {
        take_range(
            stage,
            norm,
            k.saturating_mul(u64::from(size)),
            size,
            &mut hints,
            &mut sum,
            &mut rows,
        )?;
    }
    Ok(rows)
}

// Whether the row f has a partner with which it has a new sum that is not among the rows.
fn misses_with(stage: &Stage, rows: &Pool, f: &[i64], norm: u64, cap: u64) -> bool {
    for place in 0..stage.len() {
        let g = stage.row(RowId(place));
        if has_new_sum(stage, f, g, norm, cap) && !is_among(rows, f, g) {
            return true;
        }
    }
    false
}

// Whether the row f has a partner with which it has the new sum z.
fn gives_with(stage: &Stage, z: &[i64], f: &[i64], norm: u64, cap: u64) -> bool {
    for place in 0..stage.len() {
        let g = stage.row(RowId(place));
        if is_sum(z, f, g) && has_new_sum(stage, f, g, norm, cap) {
            return true;
        }
    }
    false
}

// Whether a pair has a new sum that is not among the rows.
fn misses(stage: &Stage, rows: &Pool, norm: u64, cap: u64) -> bool {
    for place in 0..stage.len() {
        if misses_with(stage, rows, stage.row(RowId(place)), norm, cap) {
            return true;
        }
    }
    false
}

// Whether z is the new sum of a pair.
fn is_given(stage: &Stage, z: &[i64], norm: u64, cap: u64) -> bool {
    for place in 0..stage.len() {
        if gives_with(stage, z, stage.row(RowId(place)), norm, cap) {
            return true;
        }
    }
    false
}

// Whether each row is the new sum of a pair.
fn are_given(stage: &Stage, rows: &Pool, norm: u64, cap: u64) -> bool {
    for place in 0..rows.len() {
        if !is_given(stage, rows.row(RowId(place)), norm, cap) {
            return false;
        }
    }
    true
}

// Whether the sums of a norm, in ranges of this size, are the new sums and no others.
fn agrees(alloc: Global, stage: &Stage, norm: u64, cap: u64, size: u32) -> Result<bool, AllocError>
    requires { norm ≤ 9223372036854775807 }
{
    let rows = gathered(alloc, stage, norm, size)?;
    Ok(!misses(stage, &rows, norm, cap) && are_given(stage, &rows, norm, cap))
}

/// The same for ranges of one pair, of seven pairs, and for all pairs at once.
pub fn agrees_in_ranges(
    alloc: Global,
    stage: &Stage,
    norm: u64,
    cap: u64,
) -> Result<bool, AllocError>
    requires { norm ≤ 9223372036854775807 }
{
    Ok(
        agrees(alloc, stage, norm, cap, 1)?
            && agrees(alloc, stage, norm, cap, 7)?
            && agrees(alloc, stage, norm, cap, 256)?,
    )
}

// Closes all norms. How many agree before the first that does not, or all.
fn agreeing(alloc: Global, stage: &mut Stage, cap: u64) -> Result<(u32, bool), AllocError> {
    for norms in 0..NORMS {
        let Some(Next::Norm(norm)) = stage.next_norm() else {
            return Ok((norms, true));
        };
        if !agrees_in_ranges(alloc, stage, norm, cap)? {
            return Ok((norms, false));
        }
        close_next(alloc, stage)?;
    }
    Ok((NORMS, false))
}

// The same of a stage over the integers. Each way out at which a stage is alive is dear to prove, so there is one.
fn integers(alloc: Global) -> Result<(u32, bool), AllocError> {
    let mut stage = first(alloc, [3, 5, -7], 2, None)?;
    agreeing(alloc, &mut stage, NO_CAP)
}

// Over the natural numbers.
fn naturals(alloc: Global) -> Result<(u32, bool), AllocError> {
    let mut stage = first(alloc, [7, 4, -9], 1, None)?;
    agreeing(alloc, &mut stage, NO_CAP)
}

// Over the integers from -4 to 4.
fn capped(alloc: Global) -> Result<(u32, bool), AllocError> {
    let mut stage = first(alloc, [-8, 6, 5], 2, Some(4))?;
    agreeing(alloc, &mut stage, 4)
}

#[test]
fn gathered_sums_agree(rt: HostRuntime) -> Result<(), Fail> {
    let alloc = rt.alloc();
    assert_eq!(rt;
        (integers(alloc)?, naturals(alloc)?, capped(alloc)?),
        ((13, true), (17, true), (13, true))
    );
    Ok(())
}
