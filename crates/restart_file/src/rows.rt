//! The rows of a stage in a text.

ghost use Rattle.std.specs.Prelude.{◌≡◌, ◌↔◌, ◌≤◌, ◌<◌, ◌+◌, ◌++◌, ◌∷◌, ◌^◌, [], IsTrue, IfOk, OnOk, length, All};
ghost use Rattle.std.specs.List.{AllByRecursion};
ghost use Rattle.std.specs.List.Sorted.{IsStrictlySortedBy};
ghost use Rattle.int_vector.specs.Range.{InRange};
ghost use Rattle.int_vector.specs.Vectors.{dot, largest, norm};
ghost use Rattle.lift_core.specs.ToolSystems.{width};
ghost use Rattle.lift_core.specs.Systems.{row};
ghost use Rattle.lift_core.specs.Stages.{norm_cmp, stage_norm};
ghost use Rattle.stage_store.specs.Stage.{IsStageRow};
ghost use Rattle.restart_file.specs.Inside.Drafts.{IsFound};

use crate::numbers::cells_in;
use int_vector::{dot, lex, norm};
use lift_core::System;
use row_pool::{Pool, RowId};
use std::alloc::AllocError;
use std::cmp::Ordering;

// The most rows that room is made for at once, so that a count alone takes little memory.
const ROOM: u32 = 4_096;

/// What stands in a line in place of a row.
#[derive(Clone, Copy, Debug, PartialEq, Eq)]
pub(crate) enum Found {
    NoRow,
    NoSolution,
    StageRow,
}

// Whether the norm is above 0 and in range.
fn has_norm(x: &[i64]) -> bool
    ensures { IsTrue result ↔ ((0 < norm x.now) × (norm x.now ≤ largest)) }
{
    match norm(x) {
        None => false,
        Some(n) => n > 0,
    }
}

// Whether t is the product of row k and x.
fn has_product(system: &System, k: u32, x: &[i64], t: i64) -> bool
    requires from { 1 ≤ k }
    requires to { k ≤ length system.now.equations.rows }
    requires width { length x.now ≡ width system.now.equations }
    requires small { norm x.now ≤ largest }
    requires range { InRange t }
    ensures { IsTrue result ↔ (dot (row system.now.equations k) x.now ≡ t) }
{
    dot(system.row(k), x) == Some(t)
}

// Whether z is a vector of stage k that is not zero and whose norm is in range.
fn is_stage_row(system: &System, k: u32, z: &[i64]) -> bool
    requires from { 1 ≤ k }
    requires to { k ≤ length system.now.equations.rows }
    requires width { length z.now ≡ width system.now.equations + 1 }
    requires range { All InRange z.now }
    ensures { IsTrue result ↔ IsStageRow system.now.equations k z.now }
{
    let width = system.width() as usize;
    let x = &z[..width];
    if !has_norm(x) {
        return false;
    }
    if !system.obeys(x) {
        return false;
    }
    if !system.solves(k - 1, x) {
        return false;
    }
    has_product(system, k, x, z[width])
}

// What stands in the line; where it is a row of numbers, these are the entries.
pub(crate) fn row_in(
    line: &[u8],
    system: &System,
    k: u32,
    row: &mut [i64],
    text: &mut Vec<u8>,
) -> Result<Found, AllocError>
    requires from { 1 ≤ k }
    requires to { k ≤ length system.now.equations.rows }
    requires width { length row.old ≡ width system.now.equations + 1 }
    ensures found { IfOk result (λ found. IsFound system.now k line.now row.new found) }
    ensures width { length row.new ≡ length row.old }
    ensures range { All InRange row.new }
{
    if !cells_in(line, b"", row, text)? {
        Ok(Found::NoRow)
    } else if is_stage_row(system, k, row) {
        Ok(Found::StageRow)
    } else {
        Ok(Found::NoSolution)
    }
}

// The norm of a row of a stage.
pub(crate) fn norm_of(z: &[i64]) -> u64
    requires some { 0 < length z.now }
    requires small { stage_norm z.now ≤ largest }
    ensures { result ≡ stage_norm z.now }
{
    match norm(&z[..z.len() - 1]) {
        Some(n) => n,
        None => unreachable!(),
    }
}

// The order of two rows of a stage, by norm and then entry by entry.
fn compare(y: &[i64], z: &[i64]) -> Ordering
    requires first { (0 < length y.now) × (stage_norm y.now ≤ largest) }
    requires second { (0 < length z.now) × (stage_norm z.now ≤ largest) }
    ensures { result ≡ norm_cmp y.now z.now }
{
    match norm_of(y).cmp(&norm_of(z)) {
        Ordering::Equal => lex(y, z),
        other => other,
    }
}

// Whether the rows ascend with z behind them.
pub(crate) fn is_behind(rows: &Pool, z: &[i64]) -> bool
    requires ascending { IsStrictlySortedBy norm_cmp rows.now.rows }
    requires width { 0 < rows.now.width }
    requires small { AllByRecursion (λ y. stage_norm y ≤ largest) rows.now.rows }
    requires row { (0 < length z.now) × (stage_norm z.now ≤ largest) }
    ensures { IsTrue result ↔ IsStrictlySortedBy norm_cmp (rows.now.rows ++ z.now ∷ []) }
{
    let len = rows.len();
    if len == 0 {
        return true;
    }
    match compare(rows.row(RowId(len - 1)), z) {
        Ordering::Less => true,
        Ordering::Equal => false,
        Ordering::Greater => false,
    }
}

// Adds the row, where at most so many rows are to come.
pub(crate) fn add_row(rows: &mut Pool, z: &[i64], left: u32) -> Result<(), AllocError>
    requires room { length rows.old.rows ≤ 2 ^ 21 }
    requires width { length z.now ≡ rows.old.width }
    requires range { All InRange z.now }
    ensures rows { OnOk result (rows.new.rows ≡ rows.old.rows ++ z.now ∷ []) }
    ensures width { rows.new.width ≡ rows.old.width }
{
    if rows.spare() == 0 {
        rows.reserve(left.min(ROOM).max(1))?;
    }
    rows.push(z);
    Ok(())
}
