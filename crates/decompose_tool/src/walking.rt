//! The walk: each candidate is taken as often as it fits below what is left.
ghost use Rattle.std.specs.Prelude.{◌≡◌, ◌↔◌, ◌≤◌, ◌<◌, ◌+◌, ◌*◌, ◌*ℤ◌, ◌-ℤ◌, ◌<ℤ◌, ◌⊎◌, ◌++◌, ◌∷◌, ℕ, [], pos, neg_ℤ, length, take, false, IsTrue, IfOk, IfSome, slice_index_or};
ghost use Rattle.std.specs.List.{AllByRecursion};
ghost use Rattle.int_vector.specs.Range.{InRange};
ghost use Rattle.int_vector.specs.Vectors.{◌⊑◌, IsWithin, negated, largest};
ghost use Rattle.int_vector.specs.Operations.{subtract};
ghost use Rattle.lift_core.specs.ToolSystems.{width};
ghost use Rattle.system_shape.specs.Problem.{full_vector};
ghost use Rattle.system_files.specs.Kernel.{rows_in};
ghost use Rattle.decompose_tool.specs.Walks.{times, IsMost};
ghost use Rattle.decompose_tool.specs.Rows.{is_zero, unless_zero, second_part, all_parts, times_of, IsSoundRow, AreSound};
ghost use Rattle.decompose_tool.specs.Inside.Steps.{user_of, IsRead, IsTimes, AreInShape, Obeys, HasRest, IsAllLeft, Walked, WalksOn, GoesOnWhere, GoesOverRow, GoesOverRows, GoesOverParts};

use crate::checking::{fill, times};
use crate::reading::Sets;
use int_vector::LARGEST;
use lift_core::{System, Tool};
use mat_files::Grid;
use std::alloc::{AllocError, Global};
use system_files::{Shaped, row, row_count};

// What is left, how many terms there are, and their lines: how often, and the user's columns.
#[derive(Drop)]
pub(crate) struct Walk {
    pub(crate) rest: Vec<i64>,
    pub(crate) terms: u32,
    pub(crate) cells: Vec<i64>,
}

// Whether each entry is 0.
pub(crate) fn is_zero(v: &[i64]) -> bool
    ensures { result ≡ is_zero v.now }
{
    for x in v {
        if *x != 0 {
            return false;
        }
    }
    true
}

// Whether one number is above 0 and the other below.
fn are_opposite(a: i64, r: i64) -> bool
    ensures { IsTrue result ↔ (((pos 0 <ℤ a) × (r <ℤ pos 0)) ⊎ ((a <ℤ pos 0) × (pos 0 <ℤ r))) }
{
    (a > 0 && r < 0) || (a < 0 && r > 0)
}

// How often the entry fits within r, at most 2^63-1 times.
fn entry_count(a: i64, r: i64) -> u64
    requires entry { InRange a }
    requires rest { InRange r }
    ensures most { result ≤ LARGEST }
    ensures exact { (c : ℕ) → c ≤ LARGEST → IsWithin (pos c *ℤ a) r ↔ (c ≤ result) }
{
    if a == 0 {
        LARGEST
    } else if are_opposite(a, r) {
        0
    } else {
        r.unsigned_abs() / a.unsigned_abs()
    }
}

// How often the vector fits below the rest.
fn count(u: &[i64], rest: &[i64]) -> u64
    requires width { length u.now ≡ length rest.now }
    requires nonzero { is_zero u.now ≡ false }
    requires vector { AllByRecursion InRange u.now }
    requires rest { AllByRecursion InRange rest.now }
    ensures most { IsMost u.now rest.now result }
    ensures small { result ≤ LARGEST }
{
    let mut most = LARGEST;
    for j in 0..u.len() {
        most = most.min(entry_count(u[j], rest[j]));
    }
    most
}

// What is left of an entry, where c times a is taken from it.
fn less(r: i64, c: u64, a: i64) -> i64
    requires range { InRange r }
    requires count { c ≤ LARGEST }
    requires within { IsWithin (pos c *ℤ a) r }
    ensures { result ≡ r -ℤ (pos c *ℤ a) }
{
    r - c as i64 * a
}

// Takes the vector from the rest so many times.
fn remove(rest: &mut [i64], c: u64, u: &[i64])
    requires width { length u.now ≡ length rest.old }
    requires count { c ≤ LARGEST }
    requires below { times c u.now ⊑ rest.old }
    requires rest { AllByRecursion InRange rest.old }
    ensures { rest.new ≡ subtract rest.old (times c u.now) }
{
    for j in 0..u.len() {
        rest[j] = less(rest[j], c, u[j]);
    }
}

// Appends the line of a term: how often, and the first n entries of the vector.
fn push_term(cells: &mut Vec<i64>, c: u64, n: usize, u: &[i64]) -> Result<(), AllocError>
    requires count { c ≤ LARGEST }
    requires columns { n ≤ length u.now }
    ensures { IfOk result (λ _. cells.new.items ≡ (cells.old.items ++ pos c ∷ []) ++ take n u.now) }
{
    cells.push(c as i64)?;
    cells.extend_from_slice(&u[..n])
}

// Takes a candidate as often as it fits.
fn take(walk: &mut Walk, n: usize, u: &[i64]) -> Result<(), AllocError>
    requires state { HasRest (length u.now) walk.old }
    requires columns { n ≤ length u.now }
    requires range { AllByRecursion InRange u.now }
    requires room { walk.old.terms < 4294967295 }
    ensures goes { IfOk result (λ _. WalksOn n (unless_zero u.now) walk.old walk.new) }
    ensures state { IfOk result (λ _. HasRest (length u.now) walk.new) }
    ensures few { IfOk result (λ _. walk.new.terms ≤ walk.old.terms + 1) }
{
    if is_zero(u) {
        return Ok(());
    }
    let count = count(u, &walk.rest);
    if count > 0 {
        push_term(&mut walk.cells, count, n, u)?;
        walk.terms += 1;
        remove(&mut walk.rest, count, u);
    }
    Ok(())
}

// The negative of an entry.
fn opposite(x: i64) -> i64
    requires { InRange x }
    ensures { result ≡ neg_ℤ x }
{
    -x
}

// Turns the vector into its negative.
fn negate(v: &mut [i64])
    requires { AllByRecursion InRange v.old }
    ensures { v.new ≡ negated v.old }
{
    for j in 0..v.len() {
        v[j] = opposite(v[j]);
    }
}

// Takes the negative of a candidate, where that is a solution too.
fn take_negative(
    system: &System,
    n: usize,
    full: &mut [i64],
    walk: &mut Walk,
) -> Result<(), AllocError>
    requires width { length full.old ≡ width system.now.equations }
    requires state { HasRest (length full.old) walk.old }
    requires columns { n ≤ length full.old }
    requires range { AllByRecursion InRange full.old }
    requires room { walk.old.terms < 4294967295 }
    ensures goes { IfOk result (λ _. GoesOnWhere (Obeys system.now.equations (negated full.old)) n
        (unless_zero (negated full.old)) walk.old walk.new) }
    ensures state { IfOk result (λ _. HasRest (length full.old) walk.new) }
    ensures few { IfOk result (λ _. walk.new.terms ≤ walk.old.terms + 1) }
{
    negate(full);
    if system.obeys(full) {
        take(walk, n, full)
    } else {
        Ok(())
    }
}

// Takes the candidates of a row.
fn take_row(
    shaped: &Shaped,
    times: i64,
    x: &[i64],
    full: &mut Vec<i64>,
    walk: &mut Walk,
) -> Result<(), AllocError>
    requires read { IsRead shaped.now }
    requires times { IsTimes times }
    requires width { length x.now ≡ shaped.now.input.mat.cols }
    requires sound { IsSoundRow (user_of shaped.now) times x.now }
    requires state { HasRest (width shaped.now.system.equations) walk.old }
    requires room { walk.old.terms < 4294967294 }
    ensures goes { IfOk result (λ _. GoesOverRow shaped.now.input.mat.cols shaped.now.system.tool
        (user_of shaped.now) times x.now walk.old walk.new) }
    ensures state { IfOk result (λ _. HasRest (width shaped.now.system.equations) walk.new) }
    ensures few { IfOk result (λ _. walk.new.terms ≤ walk.old.terms + 2) }
{
    // Each row was checked, so its full vector is in range.
    if !fill(shaped, times, x, full)? {
        return Ok(());
    }
    take(walk, x.len(), full)?;
    match shaped.system.tool() {
        Tool::Graver => take_negative(&shaped.system, x.len(), full, walk),
        Tool::Hilbert => Ok(()),
        Tool::Zsolve => Ok(()),
    }
}

// Takes the candidates of the rows of a file, in their order.
fn take_rows(
    alloc: Global,
    shaped: &Shaped,
    times: i64,
    grid: &Grid,
    walk: &mut Walk,
) -> Result<(), AllocError>
    requires read { IsRead shaped.now }
    requires times { IsTimes times }
    requires width { grid.now.cols ≡ shaped.now.input.mat.cols }
    requires few { grid.now.rows ≤ 2097152 }
    requires sound { AllByRecursion (IsSoundRow (user_of shaped.now) times) (rows_in grid.now) }
    requires state { HasRest (width shaped.now.system.equations) walk.old }
    requires room { walk.old.terms ≤ 4194304 }
    ensures goes { IfOk result
        (λ _. GoesOverRows shaped.now.input.mat.cols shaped.now.system.tool (user_of shaped.now)
        times (rows_in grid.now) walk.old walk.new) }
    ensures state { IfOk result (λ _. HasRest (width shaped.now.system.equations) walk.new) }
    ensures few { IfOk result (λ _. walk.new.terms ≤ walk.old.terms + 4194304) }
{
    let mut full = Vec::new(alloc);
    for i in 0..row_count(grid) {
        take_row(shaped, times, row(grid, i), &mut full, walk)?;
    }
    Ok(())
}

// Takes the candidates of the second file, where there is one.
fn take_second(
    alloc: Global,
    shaped: &Shaped,
    second: &Option<Grid>,
    walk: &mut Walk,
) -> Result<(), AllocError>
    requires read { IsRead shaped.now }
    requires width { IfSome second.now (λ grid. grid.cols ≡ shaped.now.input.mat.cols) }
    requires few { IfSome second.now (λ grid. grid.rows ≤ 2097152) }
    requires sound { AllByRecursion (AreSound (user_of shaped.now)) (second_part second.now) }
    requires state { HasRest (width shaped.now.system.equations) walk.old }
    requires room { walk.old.terms ≤ 4194304 }
    ensures goes { IfOk result
        (λ _. GoesOverParts shaped.now.input.mat.cols shaped.now.system.tool (user_of shaped.now)
        (second_part second.now) walk.old walk.new) }
    ensures state { IfOk result (λ _. HasRest (width shaped.now.system.equations) walk.new) }
{
    match second {
        Some(grid) => take_rows(alloc, shaped, 0, grid, walk),
        None => Ok(()),
    }
}

// The walk before its first step: all of the point's full vector is left.
fn start(alloc: Global, shaped: &Shaped, point: &Grid) -> Result<Walk, AllocError>
    requires read { IsRead shaped.now }
    requires width { point.now.cols ≡ shaped.now.input.mat.cols }
    requires row { point.now.rows ≡ 1 }
    requires sound { AllByRecursion
        (IsSoundRow (user_of shaped.now) (times_of shaped.now.system.tool)) (rows_in point.now) }
    ensures start { IfOk result (IsAllLeft
        (full_vector (user_of shaped.now) (times_of shaped.now.system.tool)
        (slice_index_or (rows_in point.now) 0 []))) }
    ensures state { IfOk result (HasRest (width shaped.now.system.equations)) }
{
    let mut rest = Vec::new(alloc);
    // The row was checked, so its full vector is in range.
    fill(
        shaped,
        times(shaped.system.tool()),
        row(point, 0),
        &mut rest,
    )?;
    Ok(Walk {
        rest,
        terms: 0,
        cells: Vec::new(alloc),
    })
}

// The walk over all candidates.
pub(crate) fn walk_over(alloc: Global, shaped: &Shaped, sets: &Sets) -> Result<Walk, AllocError>
    requires read { IsRead shaped.now }
    requires shape { AreInShape shaped.now.input.mat.cols sets.now }
    requires first { sets.now.first.rows ≤ 2097152 }
    requires second { IfSome sets.now.second (λ grid. grid.rows ≤ 2097152) }
    requires sound { AllByRecursion (AreSound (user_of shaped.now))
        (all_parts shaped.now.system.tool sets.now) }
    ensures walked { IfOk result (Walked shaped.now sets.now) }
{
    let mut walk = start(alloc, shaped, &sets.point)?;
    take_rows(
        alloc,
        shaped,
        times(shaped.system.tool()),
        &sets.first,
        &mut walk,
    )?;
    take_second(alloc, shaped, &sets.second, &mut walk)?;
    Ok(walk)
}
