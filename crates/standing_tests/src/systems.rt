//! Systems of `hilbert` over columns of sign 1.

ghost use Rattle.std.specs.Prelude.{◌≡◌, ◌*◌, ◌≤◌, ◌%◌, length, All, IfOk};
ghost use Rattle.int_vector.specs.Range.{InRange};

use lift_core::{System, Tool};
use std::alloc::{AllocError, Global};

// 2^62
const HALF: i64 = 4_611_686_018_427_387_904;

// A system of `hilbert` whose columns all have sign 1 and no cap.
fn system_of(alloc: Global, columns: u32, cells: Vec<i64>) -> Result<System, AllocError>
    requires columns { (1 ≤ columns) × (columns ≤ 64) }
    requires cells { (length cells.items % columns ≡ 0) × (length cells.items ≤ 64 * columns) }
    requires range { All InRange cells.items }
{
    let signs = vec![in alloc; 1i8; columns as usize]?;
    let caps = vec![in alloc; None; columns as usize]?;
    Ok(System::build(Tool::Hilbert, columns, columns, cells, signs, caps))
}

/// x = 2 y.
pub fn double(alloc: Global) -> Result<System, AllocError> {
    system_of(alloc, 2, Vec::from_slice(alloc, &[1, -2])?)
}

/// x = y, and an equation whose products reach the edge of the range.
pub fn at_the_edge(alloc: Global) -> Result<System, AllocError> {
    let cells = Vec::from_slice(alloc, &[1, -1, 0, HALF, HALF - 1, -i64::MAX])?;
    system_of(alloc, 3, cells)
}

// A cell of the balance: 1 on its left side, -1 on its right side.
fn balance_cell(column: u32) -> i64
    ensures { InRange result }
{
    if column < 17 { 1 } else { -1 }
}

// The cells of the balance.
fn balance_cells(alloc: Global) -> Result<Vec<i64>, AllocError>
    ensures count { IfOk result (λ v. length v.items ≡ 34) }
    ensures range { IfOk result (λ v. All InRange v.items) }
{
    let mut cells = Vec::new(alloc);
    for column in 0..34 {
        cells.push(balance_cell(column))?;
    }
    Ok(cells)
}

/// x1 + .. + x17 = x18 + .. + x34.
pub fn balance(alloc: Global) -> Result<System, AllocError> {
    system_of(alloc, 34, balance_cells(alloc)?)
}
