//! Commands whose outputs are the same for every number of workers.

use crate::commands::{Case, first_unlike, told};
use crate::meeting::Meeting;
use lift_core::Tool;
use std::alloc::Global;
use std::test::Fail;

// The points of x - y <= 2, -3 x + y <= 1, x + y >= 1 with y at most 3.
const POLYGON: Case = Case {
    tool: Tool::Zsolve,
    word: "P",
    input: &[
        ("P.mat", "3 2\n1 -1\n-3 1\n1 1\n"),
        ("P.sign", "1 2\n1 1\n"),
        ("P.rel", "1 3\n< < >\n"),
        ("P.rhs", "1 3\n2 1 1\n"),
    ],
    due: "0\n7 solutions, 60 pairs\nP.zhom\n3 2\n1 1\n1 2\n1 3\nP.zinhom\n4 2\n0 1\n1 0\n1 1\n2 0\n",
};

// The cone of 4 x - y >= 0 and -2 x + 5 y >= 0.
const CONE: Case = Case {
    tool: Tool::Hilbert,
    word: "P",
    input: &[("P.mat", "2 2\n4 -1\n-2 5\n"), ("P.rel", "1 2\n> >\n")],
    due: "0\n6 solutions, 149 pairs\nP.hil\n6 2\n1 1\n1 2\n1 3\n1 4\n2 1\n5 2\n",
};

// The moves between tables of three rows and six columns.
const TABLES: Case = Case {
    tool: Tool::Graver,
    word: "--tables=6",
    input: &[],
    due: "0\n165 solutions, 30987 pairs\nnorm total 900\n",
};

// Long numbers, whose one equation has more than a thousand norms.
const LONG: Case = Case {
    tool: Tool::Hilbert,
    word: "P",
    input: &[("P.mat", "1 2\n1009 -1013\n")],
    due: "0\n1 solutions, 1265 pairs\nP.hil\n1 2\n1013 1009\n",
};

// The equation x1 + .. + x17 = x18 + .. + x34. Its solutions are too many to stand here.
const BALANCE: Case = Case {
    tool: Tool::Hilbert,
    word: "P",
    input: &[(
        "P.mat",
        "1 34\n1 1 1 1 1 1 1 1 1 1 1 1 1 1 1 1 1 -1 -1 -1 -1 -1 -1 -1 -1 -1 -1 -1 -1 -1 -1 -1 -1 -1\n",
    )],
    due: "",
};

// Adds the row of 34 entries that are 0 but for a 1 in two columns.
fn push_row(text: &mut String, first: u32, second: u32) -> Result<(), Fail> {
    for column in 0..34 {
        let is_one = column == first || column == second;
        text.push(if is_one { '1' } else { '0' })?;
        text.push(if column < 33 { ' ' } else { '\n' })?;
    }
    Ok(())
}

// What the command of the balance says and leaves: each column of the left side with each one of the right side.
fn balance_due(alloc: Global) -> Result<String, Fail> {
    let mut text = String::from_str(alloc, "0\n289 solutions, 289 pairs\nP.hil\n289 34\n")?;
    for k in 0..289 {
        push_row(&mut text, 16 - k / 17, 33 - k % 17)?;
    }
    Ok(text)
}

// The same bytes with one, two and thirty-two workers.
#[test]
fn rows_are_those_of_one_worker(rt: HostRuntime) -> Result<(), Fail> {
    let numbers = ["--workers=1", "--workers=2", "--workers=32"];
    for case in &[POLYGON, CONE, TABLES] {
        assert_eq!(rt; first_unlike(&rt, rt.alloc(), case, &numbers)?.as_str(), "");
    }
    Ok(())
}

// A team of workers for each of a thousand norms.
#[test]
fn a_thousand_norms_are_those_of_one_worker(rt: HostRuntime) -> Result<(), Fail> {
    let numbers = ["--workers=1", "--workers=2", "--workers=3", "--workers=32"];
    assert_eq!(rt;
        first_unlike(&rt, rt.alloc(), &LONG, &numbers)?.as_str(),
        ""
    );
    Ok(())
}

// Norm 2 has two blocks, so two workers draw at once.
#[test]
fn two_workers_of_a_command_meet(rt: HostRuntime) -> Result<(), Fail> {
    let gate = Meeting::new();
    let came = told(&rt, rt.alloc(), &BALANCE, "--workers=2", &gate)?;
    let due = balance_due(rt.alloc())?;
    assert_eq!(rt; (gate.has_met(), came.as_str()), (true, due.as_str()));
    Ok(())
}
