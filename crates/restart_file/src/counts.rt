//! The lines of a word and counts.

ghost use Rattle.std.specs.Prelude.{◌≡◌, ◌≢◌, ◌≤◌, ◌↔◌, ◌∷◌, [], ℕ, List, IsTrue, IfOk, MatchOption, length, map, codes, pos};
ghost use Rattle.std.specs.List.{AllByRecursion};
ghost use Rattle.int_vector.specs.Vectors.{largest};
ghost use Rattle.lift_core.specs.Systems.{ToolSystem};
ghost use Rattle.restart_file.specs.Texts.{counts_line};
ghost use Rattle.restart_file.specs.Reading.{AreCounts, IsCount, IsStagePlace, is_place_line};

use crate::numbers::cells_in;
use lift_core::System;
use std::alloc::AllocError;

// Whether the cells are counts; then these are the counts.
fn counts_of(cells: &[i64], counts: &mut [u64]) -> bool
    requires { length cells.now ≡ length counts.old }
    ensures sound { IsTrue result → cells.now ≡ map pos counts.new }
    ensures complete { (ns : List ℕ) → cells.now ≡ map pos ns → IsTrue result × (counts.new ≡ ns) }
{
    for i in 0..cells.len() {
        if cells[i] < 0 {
            return false;
        }
        counts[i] = cells[i].unsigned_abs();
    }
    true
}

// Whether the line is a word and so many counts, all in range; then these are the counts.
fn counts_in(
    line: &[u8],
    word: &[u8],
    counts: &mut [u64],
    text: &mut Vec<u8>,
) -> Result<bool, AllocError>
    requires { length counts.old ≤ 3 }
    ensures sound { IfOk result (λ is. IsTrue is → line.now ≡ counts_line word.now counts.new) }
    ensures complete { (ns : List ℕ) → length ns ≡ length counts.old
        → AllByRecursion (λ n. n ≤ largest) ns
        → line.now ≡ counts_line word.now ns → IfOk result (λ is. IsTrue is × (counts.new ≡ ns)) }
    ensures same { length counts.new ≡ length counts.old }
    ensures small { IfOk result (λ is. IsTrue is → AllByRecursion (λ n. n ≤ largest) counts.new) }
{
    let mut room = [0i64; 3];
    let cells = &mut room[..counts.len()];
    if !cells_in(line, word, cells, text)? {
        return Ok(false);
    }
    Ok(counts_of(cells, counts))
}

// The count of a word's line, where it is one and at most `most`.
pub(crate) fn count_in(
    line: &[u8],
    word: &[u8],
    most: u64,
    text: &mut Vec<u8>,
) -> Result<Option<u64>, AllocError>
    requires { most ≤ largest }
    ensures { IfOk result
        (λ o. MatchOption o ((n : ℕ) → IsCount word.now most line.now n → ⊥)
        (λ n. IsCount word.now most line.now n)) }
{
    let mut counts = [0u64; 1];
    if !counts_in(line, word, &mut counts, text)? {
        return Ok(None);
    }
    if counts[0] > most {
        return Ok(None);
    }
    Ok(Some(counts[0]))
}

// The stage and the norm, where they are a place of the system.
fn place_of(system: &System, k: u64, d: u64) -> Option<(u32, u64)>
    requires { d ≤ largest }
    ensures { MatchOption result (IsStagePlace system.now k d → ⊥)
        (λ p. IsStagePlace system.now k d × ((p.0 ≡ k) × (p.1 ≡ d))) }
{
    if k < 1 || d < 1 {
        return None;
    }
    if k > u64::from(system.count()) {
        return None;
    }
    Some((k as u32, d))
}

// The stage and the norm of the line, where it is a place of the system.
pub(crate) fn place_in(
    line: &[u8],
    system: &System,
    text: &mut Vec<u8>,
) -> Result<Option<(u32, u64)>, AllocError>
    ensures { IfOk result
        (λ o. MatchOption o ((k d : ℕ) → IsStagePlace system.now k d → line.now ≢ is_place_line k d)
        (λ p. IsStagePlace system.now p.0 p.1 × (line.now ≡ is_place_line p.0 p.1))) }
{
    system.keeps();
    let mut counts = [0u64; 2];
    if !counts_in(line, b"place ", &mut counts, text)? {
        return Ok(None);
    }
    Ok(place_of(system, counts[0], counts[1]))
}

// Whether each count is at most `most`.
fn are_within(counts: &[u64], most: u64) -> bool
    ensures { IsTrue result ↔ AllByRecursion (λ n. n ≤ most) counts.now }
{
    for i in 0..counts.len() {
        if counts[i] > most {
            return false;
        }
    }
    true
}

// The three counts of the line of the classes, where it is one.
pub(crate) fn classes_in(
    line: &[u8],
    most: u64,
    text: &mut Vec<u8>,
) -> Result<Option<[u64; 3]>, AllocError>
    requires { most ≤ largest }
    ensures { IfOk result
        (λ o. MatchOption o ((ns : List ℕ) → AreCounts (codes "classes ") most line.now ns → ⊥)
        (λ ns. AreCounts (codes "classes ") most line.now ns)) }
{
    let mut counts = [0u64; 3];
    if !counts_in(line, b"classes ", &mut counts, text)? {
        return Ok(None);
    }
    if are_within(&counts, most) {
        Ok(Some(counts))
    } else {
        Ok(None)
    }
}
