//! Inequalities as a system.

use lift_core::{System, Tool};
use mat_files::{read_cap, read_grid, read_rel};
use std::alloc::Global;
use std::test::Fail;
use system_shape::{Input, shape};

// The points of x - y <= 2, -3 x + y <= 1, x + y >= 1 with y at most 3.
fn polygon(alloc: Global) -> Result<System, Fail> {
    let input = Input {
        mat: read_grid(alloc, b"3 2\n1 -1\n-3 1\n1 1\n", 64, 64)?,
        sign: Some(read_grid(alloc, b"1 2\n1 1\n", 64, 64)?),
        rel: Some(read_rel(alloc, b"1 3\n< < >\n", 64, 64)?),
        rhs: Some(read_grid(alloc, b"1 3\n2 1 1\n", 64, 64)?),
        cap: Some(read_cap(alloc, b"1 2\n* 3\n", 64, 64)?),
    };
    Ok(shape(alloc, Tool::Zsolve, &input)?)
}

// Whether this is row k of the system, numbered from 1.
fn has_row(system: &System, k: u32, row: &[i64]) -> bool {
    1 <= k && k <= system.count() && system.row(k) == row
}

// A slack for each inequality, then the homogenising column.
#[test]
fn shapes_a_polygon(rt: HostRuntime) -> Result<(), Fail> {
    let system = polygon(rt.alloc())?;
    assert_eq!(rt; (system.n(), system.width(), system.count()), (2, 6, 3));
    for (k, row) in [
        (1, [1, -1, 1, 0, 0, -2]),
        (2, [-3, 1, 0, 1, 0, -1]),
        (3, [1, 1, 0, 0, -1, -1]),
    ] {
        assert!(rt; has_row(&system, k, &row));
    }
    for j in 0..system.width() {
        assert_eq!(rt; system.sign(j + 1), 1);
    }
    assert_eq!(rt; system.cap(system.width()), Some(1));
    Ok(())
}
