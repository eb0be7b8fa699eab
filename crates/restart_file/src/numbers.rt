//! The numbers of a line: they are guessed word by word, and the line that they make is compared byte for byte.

ghost use Rattle.std.specs.Prelude.{◌≡◌, ◌++◌, ◌∷◌, ◌<◌, ◌≤◌, ℕ, ℤ, List, true, false, IsTrue, IfOk, length, drop, slice_index, get_or};
ghost use Rattle.std.specs.Fmt.{signed_decimal};
ghost use Rattle.std.specs.List.{AllByRecursion, All};
ghost use Rattle.int_vector.specs.Range.{InRange};
ghost use Rattle.mat_files.specs.Texts.{line_of};
ghost use Rattle.restart_file.specs.Inside.Words.{ends_word};

use crate::lines::push_cells;
use std::alloc::AllocError;
use std::str;

// Whether the byte ends a word.
fn ends_word(byte: u8) -> bool
    ensures { result ≡ ends_word byte }
{
    byte == b' ' || byte == b'\n'
}

// The length of the first word.
fn word_len(text: &[u8]) -> usize
    ensures within { result ≤ length text.now }
    ensures before { (k : ℕ) → k < result → ends_word (slice_index text.now k) ≡ false }
    ensures ends { result < length text.now → ends_word (slice_index text.now result) ≡ true }
{
    for (i, byte) in text.iter().enumerate() {
        if ends_word(*byte) {
            return i;
        }
    }
    text.len()
}

// The number that the word writes, where it does.
fn parsed(word: &[u8]) -> Option<i64>
    ensures { (z : ℤ) → InRange z → word.now ≡ signed_decimal z → result ≡ Some z }
{
    let Ok(text) = str::from_utf8(word) else {
        return None;
    };
    match text.parse::<i64>() {
        Ok(number) => Some(number),
        Err(_) => None,
    }
}

// The number that the word writes, or 0.
fn number_in(word: &[u8]) -> i64
    ensures is { (z : ℤ) → InRange z → word.now ≡ signed_decimal z → result ≡ z }
    ensures range { InRange result }
{
    match parsed(word) {
        Some(number) if number != i64::MIN => number,
        _ => 0,
    }
}

// What stands behind the first byte.
fn behind_first(text: &[u8]) -> &[u8]
    ensures { (b : ℕ) (others : List ℕ) → text.now ≡ b ∷ others → result.now ≡ others }
{
    match text {
        [_, others @ ..] => others,
        [] => text,
    }
}

// The cells of the text, where it is the line of so many cells.
fn guess(text: &[u8], cells: &mut [i64])
    ensures cells { (zs : List ℤ) → length zs ≡ length cells.old → AllByRecursion InRange zs
        → text.now ≡ line_of zs → cells.new ≡ zs }
    ensures range { All InRange cells.new }
{
    let mut rest = text;
    for i in 0..cells.len() {
        let (word, others) = rest.split_at(word_len(rest));
        cells[i] = number_in(word);
        rest = behind_first(others);
    }
}

// What stands behind so many bytes.
fn behind(text: &[u8], len: usize) -> &[u8]
    ensures { result.now ≡ drop len text.now }
{
    if len <= text.len() { &text[len..] } else { &[] }
}

// Whether the line is a word and the line of so many cells, all in range; then these are the cells.
pub(crate) fn cells_in(
    line: &[u8],
    word: &[u8],
    cells: &mut [i64],
    text: &mut Vec<u8>,
) -> Result<bool, AllocError>
    ensures sound { IfOk result (λ is. IsTrue is → line.now ≡ word.now ++ line_of cells.new) }
    ensures complete { (zs : List ℤ) → length zs ≡ length cells.old → AllByRecursion InRange zs
        → line.now ≡ word.now ++ line_of zs → IfOk result (λ is. IsTrue is × (cells.new ≡ zs)) }
    ensures range { All InRange cells.new }
{
    guess(behind(line, word.len()), cells);
    text.clear();
    push_cells(text, word, cells)?;
    Ok(text.as_slice() == line)
}
