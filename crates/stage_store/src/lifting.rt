//! The rows that a stage begins with: the minimal solutions of no rows, the solutions of a finished stage, and their
//! products with the next row.

ghost use Rattle.std.specs.Prelude.{◌≡◌, pos, ◌+◌, ◌-◌, ◌*◌, ◌<◌, ◌≤◌, ◌^◌, ◌++◌, ℕ, List, [], length, take, slice_index_or, All, IfOk};
ghost use Rattle.std.specs.List.{AllByRecursion};
ghost use Rattle.int_vector.specs.Vectors.{norm};
ghost use Rattle.std.specs.Ordering.{int_eq};
ghost use Rattle.lift_core.specs.Stages.{last};
ghost use Rattle.lift_core.specs.ToolSystems.{width};
ghost use Rattle.lift_core.specs.Ends.{IsSolutionList};
ghost use Rattle.lift_core.specs.Walks.{solutions_in};
ghost use Rattle.stage_store.specs.Lifted.{ExtendsOr};
ghost use Rattle.stage_store.specs.UnitVectors.{unit_column, unit_entry};

use crate::stage::LiftEnd;
use int_vector::dot;
use lift_core::{IntRow, System};
use row_pool::{Pool, RowId};
use std::alloc::{AllocError, Global};

/// The minimal solutions of no rows: the unit vectors and their negatives that obey signs and caps, in order.
pub fn units(alloc: Global, system: &System) -> Result<Pool, AllocError>
    ensures width { IfOk result (λ units. units.width ≡ width system.now.equations) }
    ensures solutions { IfOk result (λ units. IsSolutionList system.now.equations 0 units.rows) }
    ensures count { IfOk result (λ units. length units.rows ≤ 258) }
{
    let width = system.width();
    let mut units = Pool::new(alloc, width);
    units.reserve(2 * width)?;
    let mut unit: Vec<i64> = vec![in alloc; 0; width as usize]?;
    for i in 0..2 * width {
        let (column, entry) = unit_at(i, width);
        unit[column] = entry;
        if system.obeys(&unit) {
            units.push(&unit);
        }
        unit[column] = 0;
    }
    Ok(units)
}

/// The column and the entry of the i-th unit vector in lexicographic order: the negative ones by ascending column, and
/// then the others by descending column, since -1 comes first and 1 last.
fn unit_at(i: u32, width: u32) -> (usize, i64)
    requires inside { i < 2 * width }
    requires most { width ≤ 129 }
    ensures column { result.0 ≡ unit_column width i }
    ensures entry { result.1 ≡ unit_entry width i }
{
    if i < width {
        (i as usize, -1)
    } else {
        ((2 * width - 1 - i) as usize, 1)
    }
}

/// The rows with last entry 0, without it.
pub fn kept_solutions(alloc: Global, listed: &Pool) -> Result<Pool, AllocError>
    requires some { 0 < listed.now.width }
    requires most { listed.now.width ≤ 130 }
    ensures width { IfOk result (λ kept. kept.width + 1 ≡ listed.now.width) }
    ensures rows { IfOk result (λ kept. kept.rows ≡ solutions_in listed.now.rows) }
{
    let width = listed.width() - 1;
    let mut kept = Pool::new(alloc, width);
    kept.reserve(listed.len())?;
    for i in 0..listed.len() {
        let row = listed.row(RowId(i));
        if is_zero_last(row, width as usize) {
            kept.push(&row[..width as usize]);
        }
    }
    Ok(kept)
}

/// Whether the last entry is 0.
#[tactic(auto, using(crate::proofs::Signs::sign_laws))]
fn is_zero_last(row: &[i64], width: usize) -> bool
    requires { length row.now ≡ width + 1 }
    ensures { result ≡ int_eq (last row.now) (pos 0) }
{
    row[width] == 0
}

/// The solutions, each with its product with the stage's row, or the first whose product leaves the range.
pub fn extended(
    alloc: Global,
    system: &System,
    stage: u32,
    solutions: &Pool,
) -> Result<Pool, LiftEnd>
    requires from { 0 < stage }
    requires to { stage ≤ length system.now.equations.rows }
    requires width { solutions.now.width ≡ width system.now.equations }
    requires small { AllByRecursion (λ v. norm v ≤ 9223372036854775807) solutions.now.rows }
    ensures { ExtendsOr system.now stage solutions.now.rows result }
{
    let row = system.row(stage);
    let mut waiting = Pool::new(alloc, system.width() + 1);
    waiting.reserve(solutions.len())?;
    for i in 0..solutions.len() {
        let solution = solutions.row(RowId(i));
        match dot(row, solution) {
            Some(last) => {
                waiting.push(&copy_with(alloc, solution, &[last])?);
            }
            None => {
                return Err(LiftEnd::Overflow {
                    stage,
                    row: IntRow::new(copy_with(alloc, solution, &[])?),
                });
            }
        }
    }
    Ok(waiting)
}

/// The entries of a vector, and more.
fn copy_with(alloc: Global, vector: &[i64], more: &[i64]) -> Result<Vec<i64>, AllocError>
    ensures { IfOk result (λ copy. copy.items ≡ vector.now ++ more.now) }
{
    let mut copy = Vec::with_capacity(alloc, vector.len() + more.len())?;
    copy.extend_from_slice(vector)?;
    copy.extend_from_slice(more)?;
    Ok(copy)
}
