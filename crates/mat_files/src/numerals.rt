//! Numbers in digits.

ghost use Rattle.std.specs.Prelude.{◌≡◌, ◌^◌, if◌then◌else◌, min, pos, neg_ℤ, MatchOption, ℕ};
ghost use Rattle.std.specs.Option.{option_map};
ghost use Rattle.mat_files.specs.Words.{digits_value, number_value, count_value};
ghost use Rattle.mat_files.specs.Tables.{count_at};
ghost use Rattle.mat_files.specs.Cells.{number_at, cap_at};

use crate::TextFault;
use crate::scanning::TextWord;
use crate::tables::Cell;

// The first magnitude that is out of range.
const CAP: u64 = 1 << 63;

// The value of one or more digits, or CAP where it is greater.
fn capped_value(digits: &[u8]) -> Option<u64>
    ensures { MatchOption result (digits_value digits.now ≡ None)
        (λ m. (n : ℕ) × (digits_value digits.now ≡ Some n) × (m ≡ min n (2 ^ 63))) }
{
    if digits.is_empty() {
        return None;
    }
    let mut value: u128 = 0;
    for digit in digits {
        if !digit.is_ascii_digit() {
            return None;
        }
        value = (10 * value + u128::from(*digit - b'0')).min(u128::from(CAP));
    }
    Some(value as u64)
}

// Whether a minus stands first, and what stands behind the sign.
fn split_sign(bytes: &[u8]) -> (bool, &[u8])
    ensures { number_value bytes.now
        ≡ option_map (λ n. if result.0 then neg_ℤ (pos n) else pos n) (digits_value result.1.now) }
{
    match bytes.split_first() {
        Some((b'-', digits)) => (true, digits),
        Some((b'+', digits)) => (false, digits),
        _ => (false, bytes),
    }
}

// What stands behind a plus.
fn skip_plus(bytes: &[u8]) -> &[u8]
    ensures { count_value bytes.now ≡ digits_value result.now }
{
    match bytes.split_first() {
        Some((b'+', digits)) => digits,
        _ => bytes,
    }
}

// The number that a word stands for.
fn number(word: &TextWord<'_>) -> Result<i64, TextFault>
    ensures { result ≡ number_at (record { at = word.now.at; bytes = word.now.bytes.now }) }
{
    let (negative, digits) = split_sign(word.bytes);
    match capped_value(digits) {
        None => Err(TextFault::NotNumber { at: word.at }),
        Some(value) if value >= CAP => Err(TextFault::OutOfRange { at: word.at }),
        Some(value) if negative => Ok(-(value as i64)),
        Some(value) => Ok(value as i64),
    }
}

impl Cell for i64 {
    ghost cell_at = { number_at };

    fn read(word: &TextWord<'_>) -> Result<i64, TextFault> {
        number(word)
    }
}

/// The count that a word stands for.
pub(crate) fn count(word: &TextWord<'_>) -> Result<u64, TextFault>
    ensures { result ≡ count_at (record { at = word.now.at; bytes = word.now.bytes.now }) }
{
    match capped_value(skip_plus(word.bytes)) {
        None => Err(TextFault::NotNumber { at: word.at }),
        Some(value) if value >= CAP => Err(TextFault::OutOfRange { at: word.at }),
        Some(value) => Ok(value),
    }
}

/// The cap that a word stands for.
pub(crate) fn cap(word: &TextWord<'_>) -> Result<Option<u64>, TextFault>
    ensures { result ≡ cap_at (record { at = word.now.at; bytes = word.now.bytes.now }) }
{
    if let [b'*'] = word.bytes {
        return Ok(None);
    }
    match capped_value(skip_plus(word.bytes)) {
        None => Err(TextFault::NotCap { at: word.at }),
        Some(value) if value >= CAP => Err(TextFault::OutOfRange { at: word.at }),
        Some(value) => Ok(Some(value)),
    }
}
