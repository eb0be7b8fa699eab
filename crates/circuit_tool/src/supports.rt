//! Supports as words of 64 bits: a bit for each column, which is set where the vector is not 0.

ghost use Rattle.std.specs.Prelude.{◌≡◌, ◌↔◌, ◌≤◌, ℕ, [], length, IfOk, Contains};
ghost use Rattle.std.specs.List.{list_any};
ghost use Rattle.system_files.specs.Kernel.{rows_in};
ghost use Rattle.circuit_tool.specs.Inside.Supports.{bit_of, word_of, words_in, is_within, is_strictly_within, least_from, AreLeast};

use mat_files::Grid;
use std::alloc::{AllocError, Global};
use system_files::{row, row_count};

// 1 for an entry that is not 0.
fn bit(entry: i64) -> u64
    ensures { result ≡ bit_of entry }
{
    if entry == 0 { 0 } else { 1 }
}

// The support of a vector.
pub(crate) fn support(vector: &[i64]) -> u64
    requires { length vector.now ≤ 64 }
    ensures { result ≡ word_of vector.now }
{
    let mut word = 0;
    for entry in vector {
        word = 2 * word + bit(*entry);
    }
    word
}

// Whether the first support is within the second.
fn is_within(first: u64, second: u64) -> bool
    ensures { result ≡ is_within first second }
{
    first & second == first
}

// And is not the same.
fn is_strictly_within(first: u64, second: u64) -> bool
    ensures { result ≡ is_strictly_within first second }
{
    is_within(first, second) && first != second
}

// Whether one of the supports is within this one.
fn has_within(supports: &[u64], support: u64) -> bool
    ensures { result ≡ list_any (λ s. is_within s support) supports.now }
{
    supports.iter().any(|s| is_within(*s, support))
}

// Whether one of the supports is strictly within this one.
pub(crate) fn has_strictly_within(supports: &[u64], support: u64) -> bool
    ensures { result ≡ list_any (λ s. is_strictly_within s support) supports.now }
{
    supports.iter().any(|s| is_strictly_within(*s, support))
}

// The supports of the nonzero rows.
fn supports_of_rows(alloc: Global, set: &Grid) -> Result<Vec<u64>, AllocError>
    requires { set.now.cols ≤ 64 }
    ensures { IfOk result (λ words. words.items ≡ words_in (rows_in set.now)) }
{
    let mut words = Vec::new(alloc);
    for i in 0..row_count(set) {
        let word = support(row(set, i));
        if word != 0 {
            words.push(word)?;
        }
    }
    Ok(words)
}

// Each support once, those with fewer columns first: what is within another then comes before it.
fn put_in_order(words: &mut Vec<u64>)
    ensures { (w : ℕ) → Contains words.new.items w ↔ Contains words.old.items w }
{
    words.sort_unstable_by_key(|word| (word.count_ones(), *word));
    words.dedup();
}

// Of the supports in this order, those in which no earlier one lies. So each is compared with the kept ones alone.
fn least(alloc: Global, words: &[u64]) -> Result<Vec<u64>, AllocError>
    ensures { IfOk result (λ kept. kept.items ≡ least_from [] words.now) }
{
    let mut kept = Vec::new(alloc);
    for word in words {
        if !has_within(&kept, *word) {
            kept.push(*word)?;
        }
    }
    Ok(kept)
}

// The least supports of the nonzero rows.
pub(crate) fn least_supports(alloc: Global, set: &Grid) -> Result<Vec<u64>, AllocError>
    requires { set.now.cols ≤ 64 }
    ensures { IfOk result (λ kept. AreLeast (words_in (rows_in set.now)) kept.items) }
{
    let mut words = supports_of_rows(alloc, set)?;
    put_in_order(&mut words);
    least(alloc, &words)
}
