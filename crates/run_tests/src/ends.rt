//! Runs that finish, and runs that end at a limit.

use crate::systems::{at_the_edge, double, past_the_edge};
use lift_core::System;
use lift_run::{Limits, NoKeep, Place, RunEnd, run_system};
use row_pool::RowId;
use stage_store::Finish;
use std::alloc::{AllocError, Global};
use std::test::Fail;
use std::thread::Threads;
use worker_gate::FreeGate;

// More pairs and rows than these runs have.
const MANY: u32 = 1_000;

// The rows and pairs of a finish.
fn finish_told(alloc: Global, finish: &Finish) -> Result<String, AllocError> {
    let mut text = format!(in alloc; "{} pairs", finish.pairs)?;
    for place in 0..finish.rows.len() {
        let row = format!(in alloc; " {:?}", finish.rows.row(RowId(place)))?;
        text.push_str(row.as_str())?;
    }
    Ok(text)
}

// An overflow with its place.
fn overflow_told(alloc: Global, stage: u32, place: &Place) -> Result<String, AllocError> {
    match place {
        Place::Row(row) => format!(in alloc; "overflow {stage} {:?}", row.cells()),
        Place::Norm(norm) => format!(in alloc; "overflow {stage} {norm}"),
    }
}

// An end with its numbers.
fn end_told(alloc: Global, end: &RunEnd) -> Result<String, AllocError> {
    match end {
        RunEnd::Overflow { stage, place } => overflow_told(alloc, *stage, place),
        RunEnd::Pairs {
            stage,
            norm,
            needed,
        } => format!(in alloc; "pairs {stage} {norm} {needed}"),
        RunEnd::Rows { stage, norm, count } => format!(in alloc; "rows {stage} {norm} {count}"),
        RunEnd::Failed => String::from_str(alloc, "failed"),
        RunEnd::Memory => String::from_str(alloc, "memory"),
    }
}

// What a run of the system within so many pairs and rows comes to.
fn outcome<R: Threads + Sync>(
    rt: &R,
    alloc: Global,
    system: System,
    pairs: u32,
    rows: u32,
) -> Result<String, AllocError> {
    let limits = Limits {
        workers: Limits::DEFAULT_WORKERS,
        pairs: u64::from(pairs.min(MANY)),
        rows: rows.clamp(1, MANY),
    };
    match run_system(rt, alloc, system, limits, &FreeGate, &mut NoKeep) {
        Ok(finish) => finish_told(alloc, &finish),
        Err(end) => end_told(alloc, &end),
    }
}

// A run lists four rows at most, where it does.
#[test]
fn rows_are_within_the_limit(rt: HostRuntime) -> Result<(), Fail> {
    let alloc = rt.alloc();
    let within = outcome(&rt, alloc, double(alloc)?, MANY, 4)?;
    let above = outcome(&rt, alloc, double(alloc)?, MANY, 3)?;
    assert_eq!(rt;
        (within.as_str(), above.as_str()),
        ("2 pairs [2, 1]", "rows 1 3 4")
    );
    Ok(())
}

#[test]
fn pairs_are_within_the_limit(rt: HostRuntime) -> Result<(), Fail> {
    let alloc = rt.alloc();
    let within = outcome(&rt, alloc, at_the_edge(alloc)?, 2, MANY)?;
    let above = outcome(&rt, alloc, at_the_edge(alloc)?, 1, MANY)?;
    assert_eq!(rt;
        (within.as_str(), above.as_str()),
        ("2 pairs [1, 1, 1]", "pairs 2 3 2")
    );
    Ok(())
}

#[test]
fn an_overflow_has_its_row(rt: HostRuntime) -> Result<(), Fail> {
    let alloc = rt.alloc();
    let end = outcome(&rt, alloc, past_the_edge(alloc)?, MANY, MANY)?;
    assert_eq!(rt; end.as_str(), "overflow 2 [3, 1, 0]");
    Ok(())
}
