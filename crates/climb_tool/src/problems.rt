//! A problem: the matrix, the set of vectors, the costs, the bounds and the start.
ghost use Rattle.std.specs.Prelude.{◌≡◌, ◌≤◌, ◌*◌, length, map, nat_abs, OnOk};
ghost use Rattle.climb_tool.specs.Problems.{has_columns, is_row, unless, shapes, is_large, is_negative, is_outside, outside_bounds};
ghost use Rattle.climb_tool.specs.Problems.{first_true, unless_column, numbers, accepted, HasShapes, IsProblem};
ghost use Rattle.std.specs.List.{AllByRecursion};
ghost use Rattle.int_vector.specs.Range.{InRange};
ghost use Rattle.climb_tool.specs.Paths.{IsWithinBounds};

use crate::ClimbFile;
use crate::ends::Stop;
use mat_files::Grid;

// The largest cost, in absolute value.
const LARGEST_COST: u64 = 1 << 56;

// The matrix, a set of vectors with as many columns, and the costs, the bounds and the start, each with one row of as
// many columns.
#[derive(Drop)]
pub(crate) struct Problem {
    pub(crate) mat: Grid,
    pub(crate) set: Grid,
    pub(crate) cost: Grid,
    pub(crate) upper: Grid,
    pub(crate) start: Grid,
}

// The cells of a matrix, row by row.
pub(crate) fn cells(grid: &Grid) -> &[i64]
    ensures { result.now ≡ grid.now.cells }
{
    &grid.cells
}

// The number of its columns.
pub(crate) fn columns(grid: &Grid) -> u32
    ensures { result ≡ grid.now.cols }
{
    grid.cols
}

// The shape of a file, where it is not as it has to be.
fn unless(fits: bool, file: ClimbFile, grid: &Grid) -> Result<(), Stop>
    ensures { result ≡ unless fits file grid.now }
{
    if fits {
        Ok(())
    } else {
        Err(Stop::Shape {
            file,
            rows: grid.rows,
            cols: grid.cols,
        })
    }
}

// Whether the matrix has so many columns.
fn has_columns(grid: &Grid, columns: u32) -> bool
    ensures fits { result ≡ has_columns grid.now columns }
    ensures count { length grid.now.cells ≡ grid.now.rows * grid.now.cols }
{
    grid.cols == columns
}

// Whether it is one row of so many columns.
fn is_row(grid: &Grid, columns: u32) -> bool
    ensures fits { result ≡ is_row grid.now columns }
    ensures count { length grid.now.cells ≡ grid.now.rows * grid.now.cols }
    ensures range { AllByRecursion InRange grid.now.cells }
    ensures wide { 1 ≤ grid.now.cols }
{
    grid.rows == 1 && grid.cols == columns
}

// The first file whose shape does not fit the matrix.
fn check_shapes(problem: &Problem) -> Result<(), Stop>
    ensures is { result ≡ shapes problem.now }
    ensures stands { OnOk result (HasShapes problem.now) }
{
    let columns = problem.mat.cols;
    unless(
        has_columns(&problem.set, columns),
        ClimbFile::Gra,
        &problem.set,
    )?;
    unless(
        is_row(&problem.cost, columns),
        ClimbFile::Cost,
        &problem.cost,
    )?;
    unless(
        is_row(&problem.upper, columns),
        ClimbFile::Upper,
        &problem.upper,
    )?;
    unless(
        is_row(&problem.start, columns),
        ClimbFile::Start,
        &problem.start,
    )
}

// The first column, counted from 1, whose cost is too large.
fn first_large(cost: &[i64]) -> Option<u32>
    requires { length cost.now ≤ 64 }
    ensures { result ≡ first_true (map is_large cost.now) }
{
    for i in 0..cost.len() {
        if cost[i].unsigned_abs() > LARGEST_COST {
            return Some(i as u32 + 1);
        }
    }
    None
}

// The first column whose bound is negative.
fn first_negative(upper: &[i64]) -> Option<u32>
    requires { length upper.now ≤ 64 }
    ensures { result ≡ first_true (map is_negative upper.now) }
{
    for i in 0..upper.len() {
        if upper[i] < 0 {
            return Some(i as u32 + 1);
        }
    }
    None
}

// Whether an entry is below 0 or above its bound.
fn is_outside(upper: i64, entry: i64) -> bool
    ensures { result ≡ is_outside upper entry }
{
    entry < 0 || upper < entry
}

// The first column in which the point is not within the bounds.
fn first_outside(upper: &[i64], point: &[i64]) -> Option<u32>
    requires few { length upper.now ≤ 64 }
    requires lengths { length point.now ≡ length upper.now }
    ensures { result ≡ first_true (outside_bounds upper.now point.now) }
{
    for i in 0..upper.len() {
        if is_outside(upper[i], point[i]) {
            return Some(i as u32 + 1);
        }
    }
    None
}

// The costs, where one is too large.
fn check_costs(cost: &[i64]) -> Result<(), Stop>
    requires { length cost.now ≤ 64 }
    ensures is { result
        ≡ unless_column (first_true (map is_large cost.now)) (λ j. Stop.CostRange j) }
    ensures stands { OnOk result (AllByRecursion (λ c. nat_abs c ≤ 72057594037927936) cost.now) }
{
    match first_large(cost) {
        Some(at) => Err(Stop::CostRange { at }),
        None => Ok(()),
    }
}

// The bounds, where one is negative.
fn check_bounds(upper: &[i64]) -> Result<(), Stop>
    requires { length upper.now ≤ 64 }
    ensures { result
        ≡ unless_column (first_true (map is_negative upper.now)) (λ j. Stop.UpperRange j) }
{
    match first_negative(upper) {
        Some(at) => Err(Stop::UpperRange { at }),
        None => Ok(()),
    }
}

// The start, where it is not within the bounds.
fn check_start(upper: &[i64], start: &[i64]) -> Result<(), Stop>
    requires few { length upper.now ≤ 64 }
    requires lengths { length start.now ≡ length upper.now }
    ensures is { result
        ≡ unless_column (first_true (outside_bounds upper.now start.now)) (λ j. Stop.Infeasible j) }
    ensures stands { OnOk result (IsWithinBounds upper.now start.now) }
{
    match first_outside(upper, start) {
        Some(at) => Err(Stop::Infeasible { at }),
        None => Ok(()),
    }
}

// The first number that is not as it has to be.
fn check_numbers(problem: &Problem) -> Result<(), Stop>
    requires few { problem.now.mat.cols ≤ 64 }
    requires shapes { HasShapes problem.now }
    ensures is { result ≡ numbers problem.now }
    ensures stands { OnOk result (IsProblem problem.now) }
{
    let upper = cells(&problem.upper);
    check_costs(cells(&problem.cost))?;
    check_bounds(upper)?;
    check_start(upper, cells(&problem.start))
}

// Whether the matrices make a problem, or their first fault.
pub(crate) fn accept(problem: &Problem) -> Result<(), Stop>
    requires { problem.now.mat.cols ≤ 64 }
    ensures is { result ≡ accepted problem.now }
    ensures stands { OnOk result (IsProblem problem.now) }
{
    check_shapes(problem)?;
    check_numbers(problem)
}
