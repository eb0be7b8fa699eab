//! The path from the start to a point at which no candidate helps.
ghost use Rattle.std.specs.Prelude.{◌≡◌, ◌≤◌, ◌+◌, ◌++◌, ◌∷◌, length, pos, All, Ok, Err, OnOk, IfOk};
ghost use Rattle.int_vector.specs.Range.{InRange};
ghost use Rattle.system_files.specs.Kernel.{rows_in};
ghost use Rattle.climb_tool.specs.Paths.{candidates, IsFirstToHelp};
ghost use Rattle.climb_tool.specs.Problems.{IsProblem};
ghost use Rattle.climb_tool.specs.Ends.{AreInKernel};
ghost use Rattle.climb_tool.specs.Inside.Turns.{vector_of};
ghost use Rattle.climb_tool.specs.Inside.Walks.{IsWalked, Climbed};

use crate::candidates::{Candidate, first_to_help};
use crate::ends::Stop;
use crate::points::{advance, greatest, turned_entry};
use crate::problems::{Problem, cells};
use std::alloc::{AllocError, Global};

// The last point of a path, and the cells of its steps: for each how often, and the vector.
#[derive(Drop)]
pub(crate) struct Path {
    pub(crate) point: Vec<i64>,
    pub(crate) cells: Vec<i64>,
    pub(crate) count: u32,
}

// Adds the cells of a step.
fn push_step(cells: &mut Vec<i64>, count: u64, candidate: Candidate<'_>) -> Result<(), AllocError>
    requires count { count ≤ 9223372036854775807 }
    requires range { All InRange candidate.vector.now }
    ensures { OnOk result
        (cells.new.items ≡ cells.old.items ++ (pos count ∷ vector_of candidate.entry)) }
{
    cells.push(count as i64)?;
    for entry in candidate.vector {
        cells.push(turned_entry(candidate.negative, *entry))?;
    }
    Ok(())
}

// The path without steps.
fn begin(alloc: Global, problem: &Problem) -> Result<Path, AllocError>
    requires { IsProblem problem.now }
    ensures walked { IfOk result (IsWalked problem.now) }
    ensures count { IfOk result (λ path. path.count ≡ 0) }
{
    let point = Vec::from_slice(alloc, &problem.start.cells)?;
    Ok(Path {
        point,
        cells: Vec::new(alloc),
        count: 0,
    })
}

// Goes along the first candidate that helps, as far as the bounds allow.
fn step(problem: &Problem, path: &mut Path, candidate: Candidate<'_>) -> Result<(), AllocError>
    requires problem { IsProblem problem.now }
    requires walked { IsWalked problem.now path.old }
    requires few { path.old.count ≤ 65535 }
    requires vector { length candidate.vector.now ≡ problem.now.mat.cols }
    requires range { All InRange candidate.vector.now }
    requires first { IsFirstToHelp problem.now.upper.cells problem.now.cost.cells
        path.old.point.items (candidates (rows_in problem.now.set)) (vector_of candidate) }
    ensures walked { OnOk result (IsWalked problem.now path.new) }
    ensures count { OnOk result (path.new.count ≡ path.old.count + 1) }
{
    let upper = cells(&problem.upper);
    let count = greatest(upper, &path.point, candidate);
    advance(upper, &mut path.point, candidate, count);
    push_step(&mut path.cells, count, candidate)?;
    path.count += 1;
    Ok(())
}

// The path to the first point at which no candidate helps, where it has at most so many steps.
pub(crate) fn climb(alloc: Global, problem: &Problem, budget: u32) -> Result<Path, Stop>
    requires problem { IsProblem problem.now }
    requires kernel { AreInKernel problem.now }
    requires few { budget ≤ 65536 }
    ensures { Climbed problem.now budget result }
{
    let mut path = begin(alloc, problem)?;
    for _done in 0..budget {
        match first_to_help(problem, &path.point) {
            Some(candidate) => step(problem, &mut path, candidate)?,
            None => return Ok(path),
        }
    }
    match first_to_help(problem, &path.point) {
        Some(_) => Err(Stop::Steps {
            done: u64::from(budget),
        }),
        None => Ok(path),
    }
}
