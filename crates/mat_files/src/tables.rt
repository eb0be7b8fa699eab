//! Tables of cells of any kind: two counts, and the cells row by row.

ghost use Rattle.std.specs.Prelude.{◌≡◌, ◌≤◌, ◌^◌, [], ◌∷◌, IfOk, MatchResult};
ghost use Rattle.mat_files.specs.Tables.{cells_at, next_count, counts_at, table_of};
ghost use Rattle.mat_files.specs.Answers.{Gives};
ghost use Rattle.mat_files.specs.declared.faults.TextFault.TheVariants.{Early};

use crate::numerals::count;
use crate::scanning::{TextWord, TextWords};
use crate::{TextEnd, TextFault};
use std::alloc::Global;

/// What may stand in a table.
pub(crate) trait Cell {
    ghost use Rattle.std.specs.Prelude.{Result};
    ghost use Rattle.mat_files.specs.Words.{Word};
    ghost use Rattle.mat_files.specs.declared.faults.TextFault.{TextFault};

    ghost cell_at: { Word → Result Self TextFault };

    /// The cell that a word stands for.
    fn read(word: &TextWord<'_>) -> Result<Self, TextFault>
        ensures { result ≡ cell_at (record { at = word.now.at; bytes = word.now.bytes.now }) };
}

/// The counts and the cells of a table.
#[derive(Drop)]
pub(crate) struct Cells<C> {
    pub rows: u32,
    pub cols: u32,
    pub cells: Vec<C>,
}

// The next word of a text of this length, or that it ends too soon.
fn expect_word<'a>(words: &mut TextWords<'a>, len: u64) -> Result<TextWord<'a>, TextFault>
    ensures { MatchResult result
        (λ w. words.old ≡ record { at = w.at; bytes = w.bytes.now } ∷ words.new)
        (λ fault. (words.old ≡ []) × (fault ≡ Early len)) }
{
    words.next_word().ok_or(TextFault::Early { at: len })
}

// Reads so many cells, behind which the text of this length has no more words.
fn read_cells<C: Cell + Drop>(
    alloc: Global,
    words: &mut TextWords<'_>,
    count: u32,
    len: u64,
) -> Result<Vec<C>, TextEnd>
    ensures { Gives (λ cells. cells.items) result (cells_at C.cell_at count len words.old) }
{
    let mut cells = Vec::new(alloc);
    for _place in 0..count {
        let word = expect_word(words, len)?;
        cells.push(C::read(&word)?)?;
    }
    match words.next_word() {
        Some(word) => Err(TextEnd::Bad(TextFault::Extra { at: word.at })),
        None => Ok(cells),
    }
}

// Reads the next count of a text of this length.
fn read_count(words: &mut TextWords<'_>, len: u64) -> Result<u64, TextEnd>
    ensures { Gives (λ n. (n, words.new)) result (next_count len words.old) }
{
    let word = expect_word(words, len)?;
    Ok(count(&word)?)
}

// Reads the counts of rows and columns within the limits.
fn read_counts(
    words: &mut TextWords<'_>,
    max_rows: u32,
    max_cols: u32,
    len: u64,
) -> Result<(u32, u32), TextEnd>
    ensures counts { Gives (λ n. (n.0, (n.1, words.new))) result
        (counts_at max_rows max_cols len words.old) }
    ensures limits { IfOk result (λ n. (n.0 ≤ max_rows) × (n.1 ≤ max_cols) × (1 ≤ n.1)) }
{
    let rows = read_count(words, len)?;
    if rows > u64::from(max_rows) {
        return Err(TextEnd::Bad(TextFault::TooManyRows { found: rows }));
    }
    let cols = read_count(words, len)?;
    if cols > u64::from(max_cols) {
        return Err(TextEnd::Bad(TextFault::TooManyCols { found: cols }));
    }
    if cols == 0 {
        return Err(TextEnd::Bad(TextFault::NoCols));
    }
    Ok((rows as u32, cols as u32))
}

/// The table that the text spells within the limits, or the text's first fault.
pub(crate) fn read_table<C: Cell + Drop>(
    alloc: Global,
    bytes: &[u8],
    max_rows: u32,
    max_cols: u32,
) -> Result<Cells<C>, TextEnd>
    requires rows { max_rows ≤ 2 ^ 21 }
    requires cols { max_cols ≤ 64 }
    ensures { Gives (λ t. record { rows = t.rows; cols = t.cols; cells = t.cells.items }) result
        (table_of C.cell_at max_rows max_cols bytes.now) }
{
    let len = bytes.len() as u64;
    let mut words = TextWords::new(bytes);
    let (rows, cols) = read_counts(&mut words, max_rows, max_cols, len)?;
    let cells = read_cells(alloc, &mut words, rows * cols, len)?;
    Ok(Cells { rows, cols, cells })
}
