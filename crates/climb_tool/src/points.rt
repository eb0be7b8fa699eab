//! Points within their bounds, and costs.
ghost use Rattle.std.specs.Prelude.{◌≡◌, ◌↔◌, ◌≤◌, ℕ, length, pos, nat_abs, IsTrue, All, ◌+ℤ◌, ◌*ℤ◌, ◌≤ℤ◌};
ghost use Rattle.std.specs.List.{AllByRecursion};
ghost use Rattle.int_vector.specs.Vectors.{norm, dot, IsZero};
ghost use Rattle.int_vector.specs.Operations.{add};
ghost use Rattle.int_vector.specs.Range.{InRange};
ghost use Rattle.climb_tool.specs.Paths.{IsWithinBounds, IsGreatest, times};
ghost use Rattle.climb_tool.specs.Inside.Turns.{turned, turned_entry, vector_of};

use crate::candidates::Candidate;

// The largest number of an entry, and of steps along a vector.
const LARGEST: u64 = (1 << 63) - 1;

// The entry, or its negative.
pub(crate) fn turned_entry(negative: bool, entry: i64) -> i64
    requires { InRange entry }
    ensures { result ≡ turned_entry negative entry }
{
    if negative { -entry } else { entry }
}

// Whether an entry stays within its bound where so much is added.
fn fits(upper: i64, entry: i64, step: i64) -> bool
    requires low { pos 0 ≤ℤ entry }
    requires high { entry ≤ℤ upper }
    ensures { IsTrue result ↔ ((pos 0 ≤ℤ (entry +ℤ step)) × ((entry +ℤ step) ≤ℤ upper)) }
{
    if step < 0 {
        0 <= entry + step
    } else {
        step <= upper - entry
    }
}

// Whether the point stays within the bounds where the candidate is added.
pub(crate) fn stays_within(upper: &[i64], x: &[i64], candidate: Candidate<'_>) -> bool
    requires point { IsWithinBounds upper.now x.now }
    requires vector { length candidate.vector.now ≡ length upper.now }
    requires range { All InRange candidate.vector.now }
    ensures { IsTrue result ↔ IsWithinBounds upper.now (add x.now (vector_of candidate.entry)) }
{
    for i in 0..upper.len() {
        if !fits(
            upper[i],
            x[i],
            turned_entry(candidate.negative, candidate.vector[i]),
        ) {
            return false;
        }
    }
    true
}

// The cost of a vector whose norm is at most 2^69.
pub(crate) fn cost_of(cost: &[i64], vector: &[i64]) -> i128
    requires lengths { length cost.now ≡ length vector.now }
    requires costs { AllByRecursion (λ c. nat_abs c ≤ 72057594037927936) cost.now }
    requires small { norm vector.now ≤ 590295810358705651712 }
    ensures { result ≡ dot cost.now vector.now }
{
    let mut sum: i128 = 0;
    for i in 0..cost.len() {
        sum += cost[i] as i128 * vector[i] as i128;
    }
    sum
}

// How often, up to 2^63-1 times, so much can be added to an entry within its bound.
fn room(upper: i64, entry: i64, step: i64) -> u64
    requires low { pos 0 ≤ℤ entry }
    requires high { entry ≤ℤ upper }
    ensures most { result ≤ 9223372036854775807 }
    ensures room { (d : ℕ) → d ≤ 9223372036854775807
        → ((pos 0 ≤ℤ (entry +ℤ (pos d *ℤ step))) × ((entry +ℤ (pos d *ℤ step)) ≤ℤ upper))
        ↔ (d ≤ result) }
{
    if step > 0 {
        (upper - entry).unsigned_abs() / step.unsigned_abs()
    } else if step < 0 {
        entry.unsigned_abs() / step.unsigned_abs()
    } else {
        LARGEST
    }
}

// How often the candidate can be added to the point within the bounds.
pub(crate) fn greatest(upper: &[i64], x: &[i64], candidate: Candidate<'_>) -> u64
    requires upper { AllByRecursion InRange upper.now }
    requires point { IsWithinBounds upper.now x.now }
    requires vector { length candidate.vector.now ≡ length upper.now }
    requires range { All InRange candidate.vector.now }
    requires nonzero { IsZero (vector_of candidate) → ⊥ }
    ensures most { result ≤ 9223372036854775807 }
    ensures greatest { IsGreatest upper.now x.now (vector_of candidate.entry) result }
{
    let mut most = LARGEST;
    for i in 0..upper.len() {
        let step = turned_entry(candidate.negative, candidate.vector[i]);
        most = most.min(room(upper[i], x[i], step));
    }
    most
}

// An entry after so many steps.
fn moved(entry: i64, count: u64, step: i64) -> i64
    requires count { count ≤ 9223372036854775807 }
    requires before { (pos 0 ≤ℤ entry) × (entry ≤ℤ pos 9223372036854775807) }
    requires after { (pos 0 ≤ℤ (entry +ℤ (pos count *ℤ step)))
        × ((entry +ℤ (pos count *ℤ step)) ≤ℤ pos 9223372036854775807) }
    ensures { result ≡ entry +ℤ (pos count *ℤ step) }
{
    entry + count as i64 * step
}

// Adds the candidate so many times.
pub(crate) fn advance(upper: &[i64], x: &mut [i64], candidate: Candidate<'_>, count: u64)
    requires count { count ≤ 9223372036854775807 }
    requires upper { AllByRecursion InRange upper.now }
    requires point { IsWithinBounds upper.now x.old }
    requires vector { length candidate.vector.now ≡ length upper.now }
    requires range { All InRange candidate.vector.now }
    requires within { IsWithinBounds upper.now (add x.old (times count (vector_of candidate))) }
    ensures { x.new ≡ add x.old (times count (vector_of candidate.entry)) }
{
    for i in 0..upper.len() {
        let step = turned_entry(candidate.negative, candidate.vector[i]);
        x[i] = moved(x[i], count, step);
    }
}
