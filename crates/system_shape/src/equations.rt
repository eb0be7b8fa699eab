//! The equations of the linear system, as entries one equation after another.

ghost use Rattle.std.specs.Prelude.{◌≡◌, ◌++◌, ◌+◌, ◌*◌, ◌≤◌, ◌<◌, [], pos, length, replicate, drop, slice_index_or, IfOk, All};
ghost use Rattle.mat_files.specs.declared.relations.Rel.TheVariants.{Most};
ghost use Rattle.int_vector.specs.Range.{InRange};
ghost use Rattle.lift_core.specs.Lists.{cut_rows};
ghost use Rattle.system_shape.specs.Shape.{given_relations, given_rights, relation_of, user_rows};
ghost use Rattle.system_shape.specs.Slacks.{slack_count_of};
ghost use Rattle.system_shape.specs.Inside.Cells.{slack_total, slack_part, x0_cells, row_cells, cells_from};

use mat_files::{Grid, Rel, RelGrid};
use std::alloc::{AllocError, Global};

/// The relations of m rows.
pub(crate) fn relations(
    alloc: Global,
    m: u32,
    rel: &Option<RelGrid>,
) -> Result<Vec<Rel>, AllocError>
    ensures { IfOk result (λ v. v.items ≡ given_relations m rel.now) }
{
    match rel {
        Some(file) => Vec::from_slice(alloc, &file.cells),
        None => vec![in alloc; Rel::Equal; m as usize],
    }
}

/// The right sides of m rows.
pub(crate) fn right_sides(alloc: Global, m: u32, rhs: &Option<Grid>) -> Result<Vec<i64>, AllocError>
    ensures { IfOk result (λ v. v.items ≡ given_rights m rhs.now) }
{
    match rhs {
        Some(file) => Vec::from_slice(alloc, &file.cells),
        None => vec![in alloc; 0; m as usize],
    }
}

// The number of slack columns with that of a row, where there are so many without it.
fn with_slack(relation: Rel, slacks: usize) -> usize
    requires { slacks < 64 }
    ensures { result ≡ slack_count_of (relation_of relation) slacks }
{
    match relation {
        Rel::Most | Rel::Least => slacks + 1,
        Rel::Equal => slacks,
    }
}

/// The number of slack columns.
pub(crate) fn slack_columns(relations: &[Rel]) -> usize
    requires { length relations.now ≤ 64 }
    ensures { result ≡ slack_total relations.now }
{
    let mut slacks = 0;
    for relation in relations {
        slacks = with_slack(*relation, slacks);
    }
    slacks
}

// Appends so many zeros.
fn push_zeros(cells: &mut Vec<i64>, count: usize) -> Result<(), AllocError>
    ensures { IfOk result (λ _. cells.new.items ≡ cells.old.items ++ replicate count (pos 0)) }
{
    for _zero in 0..count {
        cells.push(0)?;
    }
    Ok(())
}

// A row's place among the slack columns: how many of other rows stand before and behind its own, if it has one.
#[derive(Clone, Copy)]
struct Slacks {
    before: usize,
    relation: Rel,
    behind: usize,
}

// The place of a row, counted from 0, where so many slack columns stand before its own.
fn place_of(relations: &[Rel], row: usize, before: usize) -> Slacks
    requires inside { row < length relations.now }
    requires few { length relations.now ≤ 64 }
    ensures before { result.before ≡ before }
    ensures relation { result.relation ≡ slice_index_or relations.now row Most }
    ensures behind { result.behind ≡ slack_total (drop (row + 1) relations.now) }
{
    Slacks {
        before,
        relation: relations[row],
        behind: slack_columns(&relations[row + 1..]),
    }
}

// Appends a row's entries in the slack columns.
fn push_slacks(cells: &mut Vec<i64>, slacks: Slacks) -> Result<(), AllocError>
    ensures { IfOk result
        (λ _. cells.new.items ≡ cells.old.items
        ++ slack_part slacks.before (relation_of slacks.relation) slacks.behind) }
{
    push_zeros(cells, slacks.before)?;
    match slacks.relation {
        Rel::Most => cells.push(1)?,
        Rel::Least => cells.push(-1)?,
        Rel::Equal => {}
    }
    push_zeros(cells, slacks.behind)
}

// Appends a row's entry in the column of x0, where there is one.
fn push_x0(cells: &mut Vec<i64>, x0: bool, right: i64) -> Result<(), AllocError>
    requires { InRange right }
    ensures { IfOk result (λ _. cells.new.items ≡ cells.old.items ++ x0_cells x0 right) }
{
    if x0 {
        cells.push(-right)?;
    }
    Ok(())
}

// Appends a row's entries.
fn push_row(
    cells: &mut Vec<i64>,
    coefficients: &[i64],
    slacks: Slacks,
    x0: bool,
    right: i64,
) -> Result<(), AllocError>
    requires { InRange right }
    ensures { IfOk result
        (λ _. cells.new.items ≡ cells.old.items
        ++ row_cells x0 coefficients.now slacks.before
        (relation_of slacks.relation) slacks.behind right) }
{
    cells.extend_from_slice(coefficients)?;
    push_slacks(cells, slacks)?;
    push_x0(cells, x0, right)
}

// The coefficients of a row, counted from 0.
fn coefficients(mat: &Grid, row: usize) -> &[i64]
    requires { row < mat.now.rows }
    ensures { result.now
        ≡ slice_index_or (cut_rows mat.now.rows mat.now.cols mat.now.cells) row [] }
{
    let width = mat.cols as usize;
    let start = row * width;
    &mat.cells[start..start + width]
}

/// The entries of all equations.
pub(crate) fn equations(
    alloc: Global,
    mat: &Grid,
    relations: &[Rel],
    rights: &[i64],
    x0: bool,
) -> Result<Vec<i64>, AllocError>
    requires rows { mat.now.rows ≤ 64 }
    requires relations { length relations.now ≡ mat.now.rows }
    requires rights { length rights.now ≡ mat.now.rows }
    requires range { All InRange rights.now }
    ensures { IfOk result
        (λ v. v.items
        ≡ cells_from x0 0
        (user_rows (cut_rows mat.now.rows mat.now.cols mat.now.cells) relations.now rights.now)) }
{
    let mut entries = Vec::new(alloc);
    let mut before = 0;
    for row in 0..relations.len() {
        let place = place_of(relations, row, before);
        push_row(&mut entries, coefficients(mat, row), place, x0, rights[row])?;
        before = with_slack(place.relation, before);
    }
    Ok(entries)
}
