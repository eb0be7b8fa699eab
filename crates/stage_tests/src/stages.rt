//! Stages of one and of two equations over three columns, norm by norm.

ghost use Rattle.std.specs.Prelude.{◌≡◌, ◌≤◌, ◌%◌, All, length};
ghost use Rattle.int_vector.specs.Range.{IsCap};
ghost use Rattle.lift_core.specs.ToolSystems.{IsSign};
ghost use Rattle.int_vector.specs.Range.{InRange};

use lift_core::{System, Tool};
use row_pool::RowId;
use stage_store::{Lifted, Next, Stage};
use std::alloc::{AllocError, Global};
use std::test::Fail;

// More norms than a stage of these tests has.
const NORMS: u32 = 100;

// The first stage of these equations over three columns of this sign and this cap.
fn started(alloc: Global, rows: Vec<i64>, sign: i8, cap: Option<u64>) -> Result<Stage, AllocError>
    requires rows { All InRange rows.items }
    requires whole { length rows.items % 3 ≡ 0 }
    requires few { length rows.items ≤ 192 }
    requires sign { IsSign sign }
    requires cap { IsCap cap }
{
    let signs = Vec::from_slice(alloc, &[sign; 3])?;
    let caps = Vec::from_slice(alloc, &[cap; 3])?;
    match Stage::first(alloc, System::build(Tool::Graver, 3, 3, rows, signs, caps))? {
        Lifted::Next(stage) => Ok(stage),
        Lifted::Last(_) => Err(AllocError),
    }
}

/// The first stage of an equation over columns of this sign and this cap.
pub fn first(alloc: Global, row: [i64; 3], sign: i8, cap: Option<u64>) -> Result<Stage, AllocError>
    requires row { All InRange row }
    requires sign { IsSign sign }
    requires cap { IsCap cap }
{
    let rows = Vec::from_slice(alloc, &row)?;
    started(alloc, rows, sign, cap)
}

/// The first stage of two equations.
pub fn first_of_two(
    alloc: Global,
    rows: [i64; 6],
    sign: i8,
    cap: Option<u64>,
) -> Result<Stage, AllocError>
    requires rows { All InRange rows }
    requires sign { IsSign sign }
    requires cap { IsCap cap }
{
    let rows = Vec::from_slice(alloc, &rows)?;
    started(alloc, rows, sign, cap)
}

/// Closes the next norm. False where none is left.
pub fn close_next(alloc: Global, stage: &mut Stage) -> Result<bool, AllocError> {
    let Some(Next::Norm(norm)) = stage.next_norm() else {
        return Ok(false);
    };
    let closed = stage.sums(alloc, norm)?;
    match stage.publish(&closed, 1_000) {
        Ok(()) => Ok(true),
        Err(_) => Err(AllocError),
    }
}

/// Closes so many norms, or all.
pub fn close_some(alloc: Global, stage: &mut Stage, norms: u32) -> Result<(), AllocError> {
    for _ in 0..norms {
        close_next(alloc, stage)?;
    }
    Ok(())
}

// Adds a line: the norm, the number of listed rows and the used pairs.
fn push_norm(alloc: Global, text: &mut String, stage: &Stage) -> Result<(), AllocError> {
    let line = format!(in alloc; "{} {} {}\n", stage.norm(), stage.len(), stage.used())?;
    text.push_str(line.as_str())
}

// Adds a line for each listed row.
fn push_rows(alloc: Global, text: &mut String, stage: &Stage) -> Result<(), AllocError> {
    for place in 0..stage.len() {
        let line = format!(in alloc; "{:?}\n", stage.row(RowId(place)))?;
        text.push_str(line.as_str())?;
    }
    Ok(())
}

/// Closes all norms that are left. A line for each norm, and one for each row that is listed then.
pub fn story(alloc: Global, stage: &mut Stage) -> Result<String, AllocError> {
    let mut text = String::new(alloc);
    for _ in 0..NORMS {
        if !close_next(alloc, stage)? {
            break;
        }
        push_norm(alloc, &mut text, stage)?;
    }
    push_rows(alloc, &mut text, stage)?;
    Ok(text)
}

// What the stage of x1 - 2 x2 = 0 tells.
fn double_told(alloc: Global) -> Result<String, AllocError> {
    let mut stage = first(alloc, [1, -2, 0], 1, None)?;
    story(alloc, &mut stage)
}

// The last column of a row is its product with the equation.
#[test]
fn one_equation_norm_by_norm(rt: HostRuntime) -> Result<(), Fail> {
    assert_eq!(rt;
        double_told(rt.alloc())?.as_str(),
        "1 3 0\n2 4 1\n3 5 2\n[0, 0, 1, 0]\n[0, 1, 0, -2]\n[1, 0, 0, 1]\n[1, 1, 0, -1]\n[2, 1, 0, 0]\n"
    );
    Ok(())
}
