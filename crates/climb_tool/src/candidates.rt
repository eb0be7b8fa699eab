//! The vectors of the set and their negatives, and the first that helps at a point.
ghost use Rattle.std.specs.Prelude.{◌≡◌, ◌≤◌, ◌∷◌, [], length, nat_abs, All, IfSome, MatchOption};
ghost use Rattle.std.specs.Option.{option_map};
ghost use Rattle.std.specs.List.{AllByRecursion};
ghost use Rattle.int_vector.specs.Vectors.{norm, negated};
ghost use Rattle.int_vector.specs.Operations.{add};
ghost use Rattle.int_vector.specs.Range.{InRange};
ghost use Rattle.system_files.specs.Kernel.{rows_in};
ghost use Rattle.climb_tool.specs.Paths.{IsWithinBounds, FirstHelp, candidates};
ghost use Rattle.climb_tool.specs.Problems.{IsProblem};
ghost use Rattle.climb_tool.specs.Ends.{AreInKernel};
ghost use Rattle.climb_tool.specs.Inside.Turns.{vector_of};

use crate::points::{cost_of, stays_within};
use crate::problems::{Problem, cells};
use system_files::{row, row_count};

// A row of the set, or its negative.
#[derive(Clone, Copy)]
pub(crate) struct Candidate<'a> {
    pub(crate) vector: &'a [i64],
    pub(crate) negative: bool,
}

// The candidate, where the point stays within the bounds with it.
fn if_within<'a>(upper: &[i64], x: &[i64], candidate: Candidate<'a>) -> Option<Candidate<'a>>
    requires point { IsWithinBounds upper.now x.now }
    requires vector { length candidate.vector.now ≡ length upper.now }
    requires range { All InRange candidate.vector.now }
    ensures { MatchOption result
        (IsWithinBounds upper.now (add x.now (vector_of candidate.entry)) → ⊥)
        (λ c. (c ≡ candidate.entry)
        × IsWithinBounds upper.now (add x.now (vector_of candidate.entry))) }
{
    if stays_within(upper, x, candidate) {
        Some(candidate)
    } else {
        None
    }
}

// The vector or its negative, whichever helps at x: of the two at most one has a negative cost.
fn helping<'a>(upper: &[i64], cost: &[i64], x: &[i64], vector: &'a [i64]) -> Option<Candidate<'a>>
    requires point { IsWithinBounds upper.now x.now }
    requires cost { length cost.now ≡ length upper.now }
    requires costs { AllByRecursion (λ c. nat_abs c ≤ 72057594037927936) cost.now }
    requires vector { length vector.now ≡ length upper.now }
    requires range { All InRange vector.now }
    requires small { norm vector.now ≤ 9223372036854775807 }
    ensures first { FirstHelp upper.now cost.now x.now (vector.now ∷ negated vector.now ∷ [])
        (option_map vector_of result) }
    ensures same { IfSome result (λ c. c.vector.now ≡ vector.now) }
{
    let change = cost_of(cost, vector);
    if change < 0 {
        if_within(
            upper,
            x,
            Candidate {
                vector,
                negative: false,
            },
        )
    } else if change > 0 {
        if_within(
            upper,
            x,
            Candidate {
                vector,
                negative: true,
            },
        )
    } else {
        None
    }
}

// The first candidate that helps at x.
pub(crate) fn first_to_help<'a>(problem: &'a Problem, x: &[i64]) -> Option<Candidate<'a>>
    requires problem { IsProblem problem.now }
    requires kernel { AreInKernel problem.now }
    requires point { IsWithinBounds problem.now.upper.cells x.now }
    ensures first { FirstHelp problem.now.upper.cells problem.now.cost.cells x.now
        (candidates (rows_in problem.now.set)) (option_map vector_of result) }
    ensures vector { IfSome result (λ c. length c.vector.now ≡ problem.now.mat.cols) }
    ensures range { IfSome result (λ c. All InRange c.vector.now) }
{
    let upper = cells(&problem.upper);
    let cost = cells(&problem.cost);
    for i in 0..row_count(&problem.set) {
        let vector = row(&problem.set, i);
        match helping(upper, cost, x, vector) {
            Some(candidate) => return Some(candidate),
            None => {}
        }
    }
    None
}
