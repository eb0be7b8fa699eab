//! Runs of the command `stand` over a folder in memory.

use crate::meeting::Meeting;
use outside::{MemFolder, MemSink, Words};
use stand_tool::run_stand;
use std::alloc::{AllocError, Global};
use std::sync::Wait;
use std::test::Fail;
use std::thread::Threads;
use worker_gate::{FreeGate, Gate};

// The tables with three rows and three columns whose sums are 0.
const TABLES: &str = "6 9\n\
1 1 1 0 0 0 0 0 0\n\
0 0 0 1 1 1 0 0 0\n\
0 0 0 0 0 0 1 1 1\n\
1 0 0 1 0 0 1 0 0\n\
0 1 0 0 1 0 0 1 0\n\
0 0 1 0 0 1 0 0 1\n";

// Their Graver basis, up to sign.
const TABLES_BASIS: &str = "15 9\n\
0 0 0 0 1 -1 0 -1 1\n\
0 0 0 1 -1 0 -1 1 0\n\
0 0 0 1 0 -1 -1 0 1\n\
0 1 -1 -1 0 1 1 -1 0\n\
0 1 -1 0 -1 1 0 0 0\n\
0 1 -1 0 0 0 0 -1 1\n\
0 1 -1 1 -1 0 -1 0 1\n\
1 -1 0 -1 0 1 0 1 -1\n\
1 -1 0 -1 1 0 0 0 0\n\
1 -1 0 0 0 0 -1 1 0\n\
1 -1 0 0 1 -1 -1 0 1\n\
1 0 -1 -1 0 1 0 0 0\n\
1 0 -1 -1 1 0 0 -1 1\n\
1 0 -1 0 -1 1 -1 1 0\n\
1 0 -1 0 0 0 -1 0 1\n";

// x = y, and an equation whose products reach the edge of the range.
const AT_THE_EDGE: &str =
    "2 3\n1 -1 0\n4611686018427387904 4611686018427387903 -9223372036854775807\n";

// x1 + .. + x17 = x18 + .. + x34.
const BALANCE: &str = "1 34\n\
1 1 1 1 1 1 1 1 1 1 1 1 1 1 1 1 1 -1 -1 -1 -1 -1 -1 -1 -1 -1 -1 -1 -1 -1 -1 -1 -1 -1\n";

// These words.
fn words_of(alloc: Global, words: &[&str]) -> Result<Words, AllocError> {
    let mut list = Words::new(alloc);
    for word in words {
        list.push(word)?;
    }
    Ok(list)
}

// The text of bytes.
fn text(alloc: Global, bytes: &[u8]) -> Result<String, AllocError> {
    let mut shown = String::new(alloc);
    for byte in bytes {
        shown.push(char::from(*byte))?;
    }
    Ok(shown)
}

// The text of a file, empty where it is not there.
fn file_text(alloc: Global, folder: &MemFolder, name: &str) -> Result<String, AllocError> {
    match folder.file(name) {
        Some(bytes) => text(alloc, bytes),
        None => Ok(String::new(alloc)),
    }
}

// What the command comes to over a matrix: its status and end, what it puts, and an output file.
fn outcome<R: Threads + Wait + Sync, G: Gate + Sync>(
    rt: &R,
    alloc: Global,
    words: &[&str],
    matrix: &str,
    output: &str,
    gate: &G,
) -> Result<String, Fail> {
    let mut folder = MemFolder::new(alloc, Vec::new(alloc));
    folder.insert("P.mat", matrix.as_bytes())?;
    let words = words_of(alloc, words)?;
    let mut out = MemSink::new(alloc, Vec::new(alloc));
    let mut err = MemSink::new(alloc, Vec::new(alloc));
    let status = run_stand(rt, alloc, &words, &mut folder, &mut out, &mut err, gate);
    let put = text(alloc, out.bytes())?;
    let said = text(alloc, err.bytes())?;
    let file = file_text(alloc, &folder, output)?;
    Ok(format!(in alloc; "{} {:?}\n{put}{said}{file}", status.code, status.end)?)
}

// A cell of a solution of the balance: 1 in one column of each side.
fn balance_cell(column: u32, left: u32, right: u32) -> &'static str {
    if column == left || column == right {
        "1"
    } else {
        "0"
    }
}

// The row of one of its minimal solutions.
fn push_solution(rows: &mut String, left: u32, right: u32) -> Result<(), AllocError> {
    for column in 0..34 {
        rows.push_str(if column == 0 { "" } else { " " })?;
        rows.push_str(balance_cell(column, left, right))?;
    }
    rows.push('\n')
}

// The rows with a 1 in this column of the left side.
fn push_solutions(rows: &mut String, left: u32) -> Result<(), AllocError> {
    for place in 0..17 {
        push_solution(rows, left, 33 - place)?;
    }
    Ok(())
}

// What a run of the balance comes to: 289 solutions, one for each two columns of different sides.
fn balance_told(alloc: Global) -> Result<String, AllocError> {
    let mut told = String::from_str(
        alloc,
        "0 Done { solutions: 289, pairs: 289 }\n289 solutions, 289 pairs\n289 34\n",
    )?;
    for place in 0..17 {
        push_solutions(&mut told, 16 - place)?;
    }
    Ok(told)
}

#[test]
fn a_team_writes_the_basis_of_tables(rt: HostRuntime) -> Result<(), Fail> {
    let alloc = rt.alloc();
    let words = ["graver", "-q", "--workers=3", "P"];
    let told = outcome(&rt, alloc, &words, TABLES, "P.gra", &FreeGate)?;
    let due = format!(in alloc; "0 Done {{ solutions: 15, pairs: 144 }}\n{TABLES_BASIS}")?;
    assert_eq!(rt; told.as_str(), due.as_str());
    Ok(())
}

#[test]
fn a_spent_pair_budget_is_told(rt: HostRuntime) -> Result<(), Fail> {
    let words = ["hilbert", "--pairs=1", "P"];
    let told = outcome(&rt, rt.alloc(), &words, AT_THE_EDGE, "P.hil", &FreeGate)?;
    assert_eq!(rt;
        told.as_str(),
        "4 Run(Pairs { stage: 2, norm: 3, needed: 2 })\n\
         stand: pair budget spent at equation 2, norm 3: 2 pairs needed\n"
    );
    Ok(())
}

#[test]
fn two_workers_of_the_command_meet(rt: HostRuntime) -> Result<(), Fail> {
    let alloc = rt.alloc();
    let gate = Meeting::new();
    let words = ["hilbert", "--workers=2", "P"];
    let told = outcome(&rt, alloc, &words, BALANCE, "P.hil", &gate)?;
    let due = balance_told(alloc)?;
    assert_eq!(rt; (gate.has_met(), told.as_str()), (true, due.as_str()));
    Ok(())
}
