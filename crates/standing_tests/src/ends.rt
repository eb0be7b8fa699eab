//! Runs with a standing team, for each number of workers the run without one.

use crate::systems::{at_the_edge, balance, double};
use lift_core::System;
use lift_run::{Limits, NoKeep, Place, run_system};
use row_pool::RowId;
use stage_store::Finish;
use standing_pool::{StandEnd, run_standing};
use std::alloc::{AllocError, Global};
use std::sync::Wait;
use std::test::Fail;
use std::thread::Threads;
use worker_gate::FreeGate;

// The rows and pairs of a finish.
fn finish_told(alloc: Global, finish: &Finish) -> Result<String, AllocError> {
    let mut text = format!(in alloc; "{} pairs", finish.pairs)?;
    for place in 0..finish.rows.len() {
        let row = format!(in alloc; " {:?}", finish.rows.row(RowId(place)))?;
        text.push_str(row.as_str())?;
    }
    Ok(text)
}

// An end with its numbers.
fn end_told(alloc: Global, end: &StandEnd) -> Result<String, AllocError> {
    match end {
        StandEnd::Overflow {
            stage,
            place: Place::Row(row),
        } => format!(in alloc; "overflow {stage} {:?}", row.cells()),
        StandEnd::Overflow {
            stage,
            place: Place::Norm(norm),
        } => format!(in alloc; "overflow {stage} {norm}"),
        StandEnd::Pairs {
            stage,
            norm,
            needed,
        } => format!(in alloc; "pairs {stage} {norm} {needed}"),
        StandEnd::Rows { stage, norm, count } => format!(in alloc; "rows {stage} {norm} {count}"),
        StandEnd::Memory => String::from_str(alloc, "memory"),
    }
}

// What a team of so many workers comes to within so many pairs.
fn outcome<R: Threads + Wait + Sync>(
    rt: &R,
    alloc: Global,
    system: System,
    workers: u32,
    pairs: u32,
) -> Result<String, AllocError> {
    let limits = Limits {
        workers: workers.clamp(1, 32),
        pairs: u64::from(pairs),
        rows: 1_000,
    };
    match run_standing(rt, alloc, system, limits, &FreeGate) {
        Ok(finish) => finish_told(alloc, &finish),
        Err(end) => end_told(alloc, &end),
    }
}

// What the run without a team comes to.
fn plain_outcome<R: Threads + Sync>(
    rt: &R,
    alloc: Global,
    system: System,
) -> Result<String, AllocError> {
    let limits = Limits::default();
    match run_system(rt, alloc, system, limits, &FreeGate, &mut NoKeep) {
        Ok(finish) => finish_told(alloc, &finish),
        Err(_) => String::from_str(alloc, "an end"),
    }
}

#[test]
fn a_team_finds_the_rows_of_the_plain_run(rt: HostRuntime) -> Result<(), Fail> {
    let alloc = rt.alloc();
    let due = plain_outcome(&rt, alloc, balance(alloc)?)?;
    for workers in [1, 2, 3, 32] {
        let text = outcome(&rt, alloc, balance(alloc)?, workers, 1_000)?;
        assert_eq!(rt; text.as_str(), due.as_str());
    }
    Ok(())
}

#[test]
fn a_team_goes_through_all_stages(rt: HostRuntime) -> Result<(), Fail> {
    let alloc = rt.alloc();
    let one = outcome(&rt, alloc, double(alloc)?, 3, 1_000)?;
    let two = outcome(&rt, alloc, at_the_edge(alloc)?, 2, 2)?;
    assert_eq!(rt;
        (one.as_str(), two.as_str()),
        ("2 pairs [2, 1]", "2 pairs [1, 1, 1]")
    );
    Ok(())
}

#[test]
fn a_team_ends_at_the_pair_budget(rt: HostRuntime) -> Result<(), Fail> {
    let alloc = rt.alloc();
    let end = outcome(&rt, alloc, at_the_edge(alloc)?, 2, 1)?;
    assert_eq!(rt; end.as_str(), "pairs 2 3 2");
    Ok(())
}
