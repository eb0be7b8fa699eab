//! Which rows are taken: solutions whose full vectors are in range.
ghost use Rattle.std.specs.Prelude.{◌≡◌, ◌↔◌, ◌≤◌, ◌<◌, ◌≤ℤ◌, [], pos, nat_abs, length, take, IsTrue, IfOk, IfSome, MatchOption};
ghost use Rattle.std.specs.List.{AllZip};
ghost use Rattle.int_vector.specs.Range.{InRange};
ghost use Rattle.int_vector.specs.Vectors.{norm, largest};
ghost use Rattle.lift_core.specs.Columns.{HasSign, IsCapped};
ghost use Rattle.lift_core.specs.ToolSystems.{width};
ghost use Rattle.system_shape.specs.Problem.{IsX0, differences, full_vector, SolvesUser};
ghost use Rattle.system_files.specs.Kernel.{rows_in};
ghost use Rattle.decompose_tool.specs.Rows.{times_of, second_part, all_parts};
ghost use Rattle.decompose_tool.specs.Sets.{first_file};
ghost use Rattle.decompose_tool.specs.Inside.Steps.{user_of, IsRead, IsTimes, RowsStand, in_front, Fills, FillsRows, Checks, ChecksPart, ChecksAll, AreInShape};

use crate::DecFile;
use crate::ends::{RowFault, Stop};
use crate::reading::{Sets, first_file};
use crate::rows::standing_at;
use int_vector::{LARGEST, norm};
use lift_core::{System, Tool};
use mat_files::Grid;
use std::alloc::{AllocError, Global};
use system_files::{Shaped, row, row_count};

// The multiple of the right sides for which the rows of the first file, and the point, are solutions.
pub(crate) fn times(tool: Tool) -> i64
    ensures value { result ≡ times_of tool }
    ensures known { IsTimes result }
{
    match tool {
        Tool::Graver | Tool::Hilbert => 0,
        Tool::Zsolve => 1,
    }
}

// Whether the entry has the sign, and its absolute value is at most the cap, where there is one.
fn fits_column(sign: i8, cap: Option<u64>, x: i64) -> bool
    ensures { IsTrue result ↔ (HasSign sign x × IsCapped cap x) }
{
    is_signed(sign, x) && is_capped(cap, x)
}

// Whether the entry has the sign.
fn is_signed(sign: i8, x: i64) -> bool
    ensures { IsTrue result ↔ HasSign sign x }
{
    match sign {
        1 => x >= 0,
        -1 => x <= 0,
        _ => true,
    }
}

// Whether the absolute value is at most the cap, where there is one.
fn is_capped(cap: Option<u64>, x: i64) -> bool
    ensures { IsTrue result ↔ IsCapped cap x }
{
    match cap {
        Some(most) => x.unsigned_abs() <= most,
        None => true,
    }
}

// Whether x obeys the signs and the caps of the user's columns.
fn obeys(system: &System, x: &[i64]) -> bool
    requires few { length x.now ≤ 64 }
    requires width { length x.now ≤ width system.now.equations }
    ensures { IsTrue result ↔ (AllZip HasSign (take (length x.now) system.now.equations.signs) x.now
        × AllZip IsCapped (take (length x.now) system.now.equations.caps) x.now) }
{
    system.keeps();
    for j in 0..x.len() {
        let column = j as u32 + 1;
        if !fits_column(system.sign(column), system.cap(column), x[j]) {
            return false;
        }
    }
    true
}

// Whether each row stands at x as its relation says.
fn rows_stand(shaped: &Shaped, times: i64, x: &[i64]) -> bool
    requires read { IsRead shaped.now }
    requires times { IsTimes times }
    requires width { length x.now ≡ shaped.now.input.mat.cols }
    requires small { norm x.now ≤ largest }
    ensures { IsTrue result ↔ RowsStand (user_of shaped.now).rows times x.now }
{
    for i in 0..row_count(&shaped.input.mat) {
        if !standing_at(shaped, times, x, i).holds() {
            return false;
        }
    }
    true
}

// Whether x is a solution.
fn is_solution(shaped: &Shaped, times: i64, x: &[i64]) -> bool
    requires read { IsRead shaped.now }
    requires times { IsTimes times }
    requires width { length x.now ≡ shaped.now.input.mat.cols }
    requires small { norm x.now ≤ largest }
    ensures { IsTrue result ↔ SolvesUser (user_of shaped.now) times x.now }
{
    obeys(&shaped.system, x) && rows_stand(shaped, times, x)
}

// The number as an entry, where it is in range.
fn narrow(difference: i128) -> Option<i64>
    requires { pos 0 ≤ℤ difference }
    ensures { MatchOption result (largest < nat_abs difference) (λ entry. entry ≡ difference) }
{
    if difference > i128::from(LARGEST) {
        None
    } else {
        Some(difference as i64)
    }
}

// Appends a difference, where there is one. False where it is out of range.
fn push_difference(difference: Option<i128>, full: &mut Vec<i64>) -> Result<bool, AllocError>
    requires { IfSome difference (λ d. pos 0 ≤ℤ d) }
    ensures { IfOk result (FillsRows full.old.items (in_front difference []) full.new.items) }
{
    let Some(difference) = difference else {
        return Ok(true);
    };
    match narrow(difference) {
        Some(entry) => {
            full.push(entry)?;
            Ok(true)
        }
        None => Ok(false),
    }
}

// Appends the differences of the inequalities. False where one is out of range.
fn push_differences(
    shaped: &Shaped,
    times: i64,
    x: &[i64],
    full: &mut Vec<i64>,
) -> Result<bool, AllocError>
    requires read { IsRead shaped.now }
    requires times { IsTimes times }
    requires width { length x.now ≡ shaped.now.input.mat.cols }
    requires small { norm x.now ≤ largest }
    requires stand { RowsStand (user_of shaped.now).rows times x.now }
    ensures { IfOk result
        (FillsRows full.old.items
        (differences (user_of shaped.now).rows times x.now) full.new.items) }
{
    for i in 0..row_count(&shaped.input.mat) {
        if !push_difference(standing_at(shaped, times, x, i).difference(), full)? {
            return Ok(false);
        }
    }
    Ok(true)
}

// Fills the buffer with the full vector of a solution. False where its norm is out of range.
pub(crate) fn fill(
    shaped: &Shaped,
    times: i64,
    x: &[i64],
    full: &mut Vec<i64>,
) -> Result<bool, AllocError>
    requires read { IsRead shaped.now }
    requires times { IsTimes times }
    requires width { length x.now ≡ shaped.now.input.mat.cols }
    requires small { norm x.now ≤ largest }
    requires stand { RowsStand (user_of shaped.now).rows times x.now }
    ensures { IfOk result (Fills (full_vector (user_of shaped.now) times x.now) full.new.items) }
{
    full.clear();
    full.extend_from_slice(x)?;
    if !push_differences(shaped, times, x, full)? {
        return Ok(false);
    }
    if matches!(shaped.system.tool(), Tool::Zsolve) {
        full.push(times)?;
    }
    Ok(norm(full).is_some())
}

// What is wrong with a row, if anything.
fn row_fault(
    shaped: &Shaped,
    times: i64,
    x: &[i64],
    full: &mut Vec<i64>,
) -> Result<Option<RowFault>, AllocError>
    requires read { IsRead shaped.now }
    requires times { IsTimes times }
    requires kind { IsX0 (user_of shaped.now).has_x0 times }
    requires width { length x.now ≡ shaped.now.input.mat.cols }
    ensures { IfOk result (Checks (user_of shaped.now) times x.now) }
{
    if norm(x).is_none() {
        return Ok(Some(RowFault::Range));
    }
    if !is_solution(shaped, times, x) {
        return Ok(Some(RowFault::NotSolution));
    }
    if fill(shaped, times, x, full)? {
        Ok(None)
    } else {
        Ok(Some(RowFault::Range))
    }
}

// Checks the rows of a file.
fn check(alloc: Global, shaped: &Shaped, file: DecFile, times: i64, grid: &Grid) -> Result<(), Stop>
    requires read { IsRead shaped.now }
    requires times { IsTimes times }
    requires kind { IsX0 (user_of shaped.now).has_x0 times }
    requires width { grid.now.cols ≡ shaped.now.input.mat.cols }
    ensures { ChecksPart (user_of shaped.now)
        (record { file = file; times = times; rows = rows_in grid.now }) result }
{
    let mut full = Vec::new(alloc);
    for i in 0..grid.rows {
        if let Some(fault) = row_fault(shaped, times, row(grid, i as usize), &mut full)? {
            return Err(Stop::Row(file, i + 1, fault));
        }
    }
    Ok(())
}

// Checks the rows of the second file, where there is one.
fn check_second(alloc: Global, shaped: &Shaped, second: &Option<Grid>) -> Result<(), Stop>
    requires read { IsRead shaped.now }
    requires kind { IsX0 (user_of shaped.now).has_x0 (pos 0) }
    requires width { IfSome second.now (λ grid. grid.cols ≡ shaped.now.input.mat.cols) }
    ensures { ChecksAll (user_of shaped.now) (second_part second.now) result }
{
    match second {
        Some(grid) => check(alloc, shaped, DecFile::Zhom, 0, grid),
        None => Ok(()),
    }
}

// Checks the rows of all files, in their order.
pub(crate) fn check_all(alloc: Global, shaped: &Shaped, sets: &Sets) -> Result<(), Stop>
    requires read { IsRead shaped.now }
    requires shape { AreInShape shaped.now.input.mat.cols sets.now }
    ensures { ChecksAll (user_of shaped.now) (all_parts shaped.now.system.tool sets.now) result }
{
    let tool = shaped.system.tool();
    let times = times(tool);
    check(alloc, shaped, first_file(tool), times, &sets.first)?;
    check_second(alloc, shaped, &sets.second)?;
    check(alloc, shaped, DecFile::Sol, times, &sets.point)
}
