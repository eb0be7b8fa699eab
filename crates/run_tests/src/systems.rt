//! Small systems of `hilbert` over columns of sign 1.

ghost use Rattle.std.specs.Prelude.{◌≡◌, ◌*◌, ◌≤◌, ◌%◌, length, All};
ghost use Rattle.int_vector.specs.Range.{InRange};

use lift_core::{System, Tool};
use std::alloc::{AllocError, Global};

// 2^62
const HALF: i64 = 4_611_686_018_427_387_904;

// The system of n columns with these rows, one after another.
fn of_rows(alloc: Global, n: u32, rows: &[i64]) -> Result<System, AllocError>
    requires columns { (1 ≤ n) × (n ≤ 64) }
    requires rows { (length rows.now % n ≡ 0) × (length rows.now ≤ 64 * n) }
    requires range { All InRange rows.now }
{
    let rows = Vec::from_slice(alloc, rows)?;
    let signs = vec![in alloc; 1; n as usize]?;
    let caps = vec![in alloc; None; n as usize]?;
    Ok(System::build(Tool::Hilbert, n, n, rows, signs, caps))
}

/// x = y
pub fn even(alloc: Global) -> Result<System, AllocError> {
    of_rows(alloc, 2, &[1, -1])
}

/// x = 2 y
pub fn double(alloc: Global) -> Result<System, AllocError> {
    of_rows(alloc, 2, &[1, -2])
}

/// x = y and 2^62 x + (2^62-1) y = (2^63-1) z: a product is 2^63-1.
pub fn at_the_edge(alloc: Global) -> Result<System, AllocError> {
    of_rows(alloc, 3, &[1, -1, 0, HALF, HALF - 1, -i64::MAX])
}

/// x = 3 y and 2^62 x = z: a product is 3 * 2^62.
pub fn past_the_edge(alloc: Global) -> Result<System, AllocError> {
    of_rows(alloc, 3, &[1, -3, 0, HALF, 0, -1])
}
