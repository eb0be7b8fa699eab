//! Rows in lexicographic order, each once.

ghost use Rattle.std.specs.Prelude.{◌≡◌, ◌⊎◌, ◌≤◌, ◌<◌, ◌++◌, ◌^◌, ℕ, ℤ, List, length, IfOk, OnOk, All};
ghost use Rattle.std.specs.List.{Contains};
ghost use Rattle.lift_core.specs.Lists.{IsListOf};
ghost use Rattle.int_vector.specs.Vectors.{lex_cmp};
ghost use Rattle.int_vector.specs.Range.{InRange};
ghost use Rattle.lift_core.specs.Inside.OrderedRows.{rows_behind};
ghost use Rattle.stage_store.specs.Sorting.{AreFit};

use lift_core::put_in_order;
use row_pool::{Pool, RowId};
use std::alloc::{AllocError, Global};

/// The rows of two pools in lexicographic order, each once.
pub fn in_order(alloc: Global, first: &Pool, second: &Pool) -> Result<Pool, AllocError>
    requires width { first.now.width ≡ second.now.width }
    requires narrow { first.now.width ≤ 130 }
    ensures width { IfOk result (λ rows. rows.width ≡ first.now.width) }
    ensures rows { IfOk result
        (λ rows. IsListOf lex_cmp
        (λ z. Contains first.now.rows z ⊎ Contains second.now.rows z) rows.rows) }
{
    let mut rows = Vec::new(alloc);
    take_rows(&mut rows, first)?;
    take_rows(&mut rows, second)?;
    put_in_order(&mut rows);
    pool_of(alloc, first.width(), &rows)
}

/// Takes the rows of a pool in.
fn take_rows<'a>(rows: &mut Vec<&'a [i64]>, pool: &'a Pool) -> Result<(), AllocError>
    requires fit { AreFit pool.now.width (rows_behind rows.old.items) }
    ensures rows { OnOk result
        (rows_behind rows.new.items ≡ rows_behind rows.old.items ++ pool.now.rows) }
    ensures fit { OnOk result (AreFit pool.now.width (rows_behind rows.new.items)) }
{
    for i in 0..pool.len() {
        rows.push(pool.row(RowId(i)))?;
    }
    Ok(())
}

/// A pool of the rows.
fn pool_of(alloc: Global, width: u32, rows: &[&[i64]]) -> Result<Pool, AllocError>
    requires narrow { width ≤ 130 }
    requires fit { AreFit width (rows_behind rows.now) }
    ensures width { IfOk result (λ pool. pool.width ≡ width) }
    ensures rows { IfOk result (λ pool. pool.rows ≡ rows_behind rows.now) }
{
    let mut pool = Pool::new(alloc, width);
    let Ok(count) = u32::try_from(rows.len()) else {
        return Err(AllocError);
    };
    pool.reserve(count)?;
    for row in rows {
        pool.push(row);
    }
    Ok(pool)
}
