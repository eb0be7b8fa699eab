//! How few rows a search in a tree of solutions compares.

ghost use Rattle.std.specs.Prelude.{◌≡◌, ◌+◌, ◌≤◌, length, All, IfOk};
ghost use Rattle.int_vector.specs.Range.{InRange};
ghost use Rattle.reduce_tree.specs.Tree.{Fits};

use int_vector::Visits;
use lift_core::{System, Tool};
use lift_run::{Limits, NoKeep, run_system};
use reduce_tree::Tree;
use row_pool::{Pool, RowId};
use std::alloc::{AllocError, Global};
use std::test::Fail;
use std::thread::Threads;
use worker_gate::FreeGate;

// Whether a cell is part of a sum. The sums of the three table rows come first, then those of the six table columns.
fn is_summed(sum: u32, cell: u32) -> bool {
    if sum < 3 {
        cell / 6 == sum
    } else {
        cell % 6 + 3 == sum
    }
}

// The coefficients of the nine sums of a 3 x 6 table, sum by sum. The columns are the 18 cells, table row by table row.
fn sums_of_tables(alloc: Global) -> Result<Vec<i64>, AllocError>
    ensures count { IfOk result (λ cells. length cells.items ≡ 162) }
    ensures range { IfOk result (λ cells. All InRange cells.items) }
{
    let mut cells = Vec::with_capacity(alloc, 162)?;
    for i in 0..162 {
        cells.push_reserved(i64::from(is_summed(i / 18, i % 18)));
    }
    Ok(cells)
}

// The tables whose sums are all 0.
fn system(alloc: Global) -> Result<System, AllocError> {
    let rows = sums_of_tables(alloc)?;
    let signs = Vec::from_slice(alloc, &[2; 18])?;
    let caps = Vec::from_slice(alloc, &[None; 18])?;
    Ok(System::build(Tool::Graver, 18, 18, rows, signs, caps))
}

// Their Graver vectors, each with its negative.
fn solutions<R: Threads + Sync>(rt: &R, alloc: Global) -> Result<Pool, AllocError> {
    let limits = Limits::default();
    match run_system(rt, alloc, system(alloc)?, limits, &FreeGate, &mut NoKeep) {
        Ok(finish) => Ok(finish.rows),
        Err(_) => Err(AllocError),
    }
}

// A tree with all rows of a pool.
fn tree_of(alloc: Global, pool: &Pool) -> Result<Tree, AllocError>
    requires { pool.now.width ≤ 130 }
    ensures { IfOk result (λ tree. Fits tree pool.now) }
{
    let mut tree = Tree::new(alloc, pool.width());
    for i in 0..pool.len() {
        tree.insert(pool, RowId(i))?;
    }
    Ok(tree)
}

// How many of the pool's rows are found in a search for themselves, and how many rows are compared in all these searches.
fn compared(tree: &Tree, pool: &Pool) -> (u32, u64)
    requires { Fits tree.now pool.now }
{
    let mut visits = Visits::default();
    let mut found: u32 = 0;
    for i in 0..pool.len() {
        if tree.find_below(pool, pool.row(RowId(i)), &mut visits) == Some(RowId(i)) {
            found = found.saturating_add(1);
        }
    }
    (found, visits.count)
}

// The same of the tables.
fn compared_tables<R: Threads + Sync>(rt: &R, alloc: Global) -> Result<(u32, u64), AllocError> {
    let rows = solutions(rt, alloc)?;
    if rows.width() > 130 {
        return Err(AllocError);
    }
    Ok(compared(&tree_of(alloc, &rows)?, &rows))
}

// The tables have 165 Graver vectors and their negatives, and below each is no other of them. A look at every row would compare
// 108,900 in all, and one that stops at the row that it finds 54,615.
#[test]
fn few_rows_are_compared(rt: HostRuntime) -> Result<(), Fail> {
    let (found, count) = compared_tables(&rt, rt.alloc())?;
    assert!(rt;
        found == 330 && 330 <= count && count <= 1_000,
        "{found} rows were found, and {count} compared"
    );
    Ok(())
}
