//! From the finished rows to those that are written.

ghost use Rattle.std.specs.Prelude.{◌≡◌, ◌↔◌, ◌<◌, ◌≤◌, ◌^◌, length, neg_ℤ, IfOk, IsTrue};
ghost use Rattle.std.specs.List.{AllByRecursion};
ghost use Rattle.std.specs.List.Sorted.{IsStrictlySortedBy};
ghost use Rattle.lift_core.specs.ToolSystems.{width};
ghost use Rattle.int_vector.specs.Range.{InRange};
ghost use Rattle.lift_core.specs.Stages.{last};
ghost use Rattle.int_vector.specs.Vectors.{lex_cmp, leads_negative, negated};
ghost use Rattle.lift_core.specs.Kinds.{HasX0};
ghost use Rattle.solution_files.specs.Outputs.{kind_of, grid_of, IsSelected, IsSelection};
ghost use Rattle.lift_core.specs.Inside.OrderedRows.{rows_behind};
ghost use Rattle.solution_files.specs.Steps.{projected, AreRows, is_among, is_left_out, without_negatives};

use int_vector::{lead, lex};
use lift_core::{Tool, put_in_order};
use mat_files::Grid;
use row_pool::RowId;
use stage_store::Finish;
use std::alloc::{AllocError, Global};

/// Which of the finished rows are written.
#[derive(Clone, Copy, Debug, PartialEq, Eq, Drop)]
pub enum Kind {
    /// All of them, for `graver` and `hilbert`, whose systems have no column for the right sides.
    All,
    /// The homogeneous ones, with 0 in the last column, which stands for the right sides.
    Hom,
    /// The inhomogeneous ones, with 1 in the last column.
    Inhom,
}

// The last entry.
fn last_entry(row: &[i64]) -> i64
    requires { 0 < length row.now }
    ensures { result ≡ last row.now }
{
    row[row.len() - 1]
}

// Whether the last entry is that of the kind.
fn is_of_kind(row: &[i64], kind: Kind) -> bool
    requires { 0 < length row.now }
    ensures { IsTrue result ↔ HasX0 (kind_of kind) row.now }
{
    match kind {
        Kind::All => true,
        Kind::Hom => last_entry(row) == 0,
        Kind::Inhom => last_entry(row) == 1,
    }
}

// The user's columns of the finished rows of the kind.
fn rows_of_kind<'a>(
    alloc: Global,
    finish: &'a Finish,
    kind: Kind,
) -> Result<Vec<&'a [i64]>, AllocError>
    requires { finish.now.rows.width ≡ width finish.now.system.equations }
    ensures rows { IfOk result
        (λ rows. rows_behind rows.items
        ≡ projected finish.now.system.n (kind_of kind) finish.now.rows.rows) }
    ensures shape { IfOk result (λ rows. AreRows finish.now.system.n (rows_behind rows.items)) }
    ensures count { IfOk result (λ rows. length rows.items < 2 ^ 32) }
{
    finish.system.keeps();
    let mut rows = Vec::new(alloc);
    for place in 0..finish.rows.len() {
        let row = finish.rows.row(RowId(place));
        if is_of_kind(row, kind) {
            rows.push(finish.system.written(row))?;
        }
    }
    Ok(rows)
}

// Whether the first entry that is not 0 is negative.
fn leads_negative(row: &[i64]) -> bool
    ensures { result ≡ leads_negative row.now }
{
    lead(row) < 0
}

// The negative of an entry.
fn negative_entry(entry: i64) -> i64
    requires { InRange entry }
    ensures { result ≡ neg_ℤ entry }
{
    -entry
}

// The negative of the row.
fn negative_of(alloc: Global, row: &[i64]) -> Result<Vec<i64>, AllocError>
    requires { AllByRecursion InRange row.now }
    ensures { IfOk result (λ negative. negative.items ≡ negated row.now) }
{
    let mut negative = Vec::with_capacity(alloc, row.len())?;
    for entry in row {
        negative.push(negative_entry(*entry))?;
    }
    Ok(negative)
}

// Whether the negative of the row is among the rows.
fn has_negative(alloc: Global, rows: &[&[i64]], row: &[i64]) -> Result<bool, AllocError>
    requires ascending { IsStrictlySortedBy lex_cmp (rows_behind rows.now) }
    requires range { AllByRecursion InRange row.now }
    ensures { IfOk result (λ found. found ≡ is_among (rows_behind rows.now) (negated row.now)) }
{
    let negative = negative_of(alloc, row)?;
    Ok(rows.binary_search_by(|other| lex(other, &negative)).is_ok())
}

// Whether the row leads negative and its negative is among the rows.
fn is_left_out(alloc: Global, rows: &[&[i64]], row: &[i64]) -> Result<bool, AllocError>
    requires ascending { IsStrictlySortedBy lex_cmp (rows_behind rows.now) }
    requires range { AllByRecursion InRange row.now }
    ensures { IfOk result (λ left_out. left_out ≡ is_left_out (rows_behind rows.now) row.now) }
{
    Ok(leads_negative(row) && has_negative(alloc, rows, row)?)
}

// The rows but those that lead negative and have their negative among the rows.
fn without_negatives<'a>(alloc: Global, rows: &[&'a [i64]]) -> Result<Vec<&'a [i64]>, AllocError>
    requires ascending { IsStrictlySortedBy lex_cmp (rows_behind rows.now) }
    requires range { AllByRecursion (λ row. AllByRecursion InRange row) (rows_behind rows.now) }
    ensures kept { IfOk result
        (λ kept. rows_behind kept.items ≡ without_negatives (rows_behind rows.now)) }
    ensures count { IfOk result (λ kept. length kept.items ≤ length rows.now) }
{
    let mut kept = Vec::new(alloc);
    for row in rows {
        if !is_left_out(alloc, rows, row)? {
            kept.push(*row)?;
        }
    }
    Ok(kept)
}

// The selected rows.
fn selected_rows<'a>(
    alloc: Global,
    finish: &'a Finish,
    kind: Kind,
) -> Result<Vec<&'a [i64]>, AllocError>
    requires { finish.now.rows.width ≡ width finish.now.system.equations }
    ensures selected { IfOk result
        (λ rows. IsSelected finish.now.system finish.now.rows.rows kind (rows_behind rows.items)) }
    ensures shape { IfOk result (λ rows. AreRows finish.now.system.n (rows_behind rows.items)) }
    ensures count { IfOk result (λ rows. length rows.items < 2 ^ 32) }
{
    let mut rows = rows_of_kind(alloc, finish, kind)?;
    put_in_order(&mut rows);
    match finish.system.tool() {
        Tool::Graver => without_negatives(alloc, &rows),
        Tool::Hilbert | Tool::Zsolve => Ok(rows),
    }
}

/// The grid of the rows, each of so many columns.
///
/// # Errors
/// Memory ran out.
pub fn lay_out(alloc: Global, columns: u32, rows: &[&[i64]]) -> Result<Grid, AllocError>
    requires some { 1 ≤ columns }
    requires few { length rows.now < 2 ^ 32 }
    requires shape { AreRows columns (rows_behind rows.now) }
    ensures { IfOk result (λ grid. grid ≡ grid_of columns (rows_behind rows.now)) }
{
    let mut cells = Vec::with_capacity(alloc, rows.len() * columns as usize)?;
    for row in rows {
        cells.extend_from_slice(row)?;
    }
    Ok(Grid {
        rows: rows.len() as u32,
        cols: columns,
        cells,
    })
}

/// The rows that are written: the finished rows of the kind in the user's columns, in lexicographic order, each once.
///
/// A row of a Graver set is left out where its leading entry is negative and its negative is a row too.
///
/// # Errors
/// Memory ran out.
pub fn select(alloc: Global, finish: &Finish, kind: Kind) -> Result<Grid, AllocError>
    requires { finish.now.rows.width ≡ width finish.now.system.equations }
    ensures { IfOk result (λ grid. IsSelection finish.now.system finish.now.rows.rows kind grid) }
{
    let rows = selected_rows(alloc, finish, kind)?;
    lay_out(alloc, finish.system.n(), &rows)
}
