//! Rows of a pool, and its spare room.

use row_pool::{Pool, RowId};
use std::alloc::AllocError;

#[test]
fn rows_and_spare(rt: HostRuntime) -> Result<(), AllocError> {
    let mut pool = Pool::new(rt.alloc(), 2);
    pool.reserve(2)?;
    assert!(rt; pool.spare() >= 2);
    assert_eq!(rt; pool.push(&[1, -2]), RowId(0));
    assert_eq!(rt; pool.push(&[0, 3]), RowId(1));
    let before = pool.spare();
    pool.truncate(1);
    assert_eq!(rt; pool.len(), 1);
    assert_eq!(rt; pool.row(RowId(0)), [1, -2].as_slice());
    assert_eq!(rt; pool.spare() - before, 1);
    Ok(())
}
