//! Runs of which one call of the folder fails: the first, the second, and so on until a run meets no failure.

use crate::runs::{folder_of, run};
use crate::texts::{FIRST, FOURTH, HIL, POLYGON, SECOND, THIRD, TWO_EQUATIONS, Text, ZHOM, ZINHOM};
use lift_core::Tool;
use outside::MemFolder;
use std::alloc::Global;
use std::test::Fail;
use std::thread::Threads;

// Calls of the folder one behind the other: how many, the part and the name of their file, and what stands besides the input
// where one of them fails: these texts whole, and of those behind them a proper prefix.
type Calls = (
    u64,
    &'static str,
    &'static str,
    &'static [Text],
    &'static [Text],
);

// A run: its files, all its calls in turn, and what it comes to where none of them fails.
#[derive(Clone, Copy)]
struct Run {
    tool: Tool,
    name: &'static str,
    words: &'static [&'static str],
    input: &'static [Text],
    calls: &'static [Calls],
    end: &'static str,
    output: &'static [Text],
}

const POLYGON_RUN: Run = Run {
    tool: Tool::Zsolve,
    name: "zsolve",
    words: &["P"],
    input: POLYGON,
    calls: &[
        (2, "Mat", "P.mat", &[], &[]),
        (2, "Sign", "P.sign", &[], &[]),
        (2, "Rel", "P.rel", &[], &[]),
        (2, "Rhs", "P.rhs", &[], &[]),
        (1, "Cap", "P.cap", &[], &[]),
        (1, "Lat", "P.lat", &[], &[]),
        (1, "Lb", "P.lb", &[], &[]),
        (1, "Ub", "P.ub", &[], &[]),
        (1, "Zhom", "P.zhom", &[], &[]),
        (4, "Zhom", "P.zhom", &[], &[ZHOM]),
        (1, "Zinhom", "P.zinhom", &[ZHOM], &[]),
        (5, "Zinhom", "P.zinhom", &[ZHOM], &[ZINHOM]),
    ],
    end: "0 Done { solutions: 7, pairs: 60, norm_total: 15 }\n7 solutions, 60 pairs\n",
    output: &[ZHOM, ZINHOM],
};

// It is stopped by its budget of pairs, behind four backups.
const STOPPED: Run = Run {
    tool: Tool::Hilbert,
    name: "hilbert",
    words: &["--pairs=1", "--backup=1", "P"],
    input: TWO_EQUATIONS,
    calls: &[
        (2, "Mat", "P.mat", &[], &[]),
        (1, "Sign", "P.sign", &[], &[]),
        (1, "Rel", "P.rel", &[], &[]),
        (1, "Rhs", "P.rhs", &[], &[]),
        (1, "Cap", "P.cap", &[], &[]),
        (1, "Lat", "P.lat", &[], &[]),
        (1, "Lb", "P.lb", &[], &[]),
        (1, "Ub", "P.ub", &[], &[]),
        (1, "Ckp0", "P.ckp0", &[], &[]),
        (2, "Ckp0", "P.ckp0", &[], &[FIRST]),
        (1, "Ckp1", "P.ckp1", &[FIRST], &[]),
        (2, "Ckp1", "P.ckp1", &[FIRST], &[SECOND]),
        (1, "Ckp0", "P.ckp0", &[FIRST, SECOND], &[]),
        (2, "Ckp0", "P.ckp0", &[SECOND], &[THIRD]),
        (1, "Ckp1", "P.ckp1", &[THIRD, SECOND], &[]),
        (2, "Ckp1", "P.ckp1", &[THIRD], &[FOURTH]),
    ],
    end: "4 Pairs { stage: 2, norm: 3, needed: 2 }\nhilbert: pair budget spent at equation 2, norm 3: 2 pairs needed\n",
    output: &[THIRD, FOURTH],
};

// What a run comes to that goes on from any of its backups.
const RESUMED: &str = "0 Done { solutions: 1, pairs: 2, norm_total: 3 }\n1 solutions, 2 pairs\n";

// All files that a run may read or write.
const FILES: [&str; 14] = [
    "P.cap", "P.ckp0", "P.ckp1", "P.gra", "P.hil", "P.lat", "P.lb", "P.mat", "P.rel", "P.rhs",
    "P.sign", "P.ub", "P.zhom", "P.zinhom",
];

// The text of the file of this name.
fn find(texts: &[Text], name: &str) -> Option<&'static str> {
    for (each, text) in texts {
        if *each == name {
            return Some(*text);
        }
    }
    None
}

// Whether a file has the one text whole, or a proper prefix of the other, or is absent where both are.
fn is_due(file: Option<&[u8]>, whole: Option<&str>, cut: Option<&str>) -> bool {
    match (file, whole, cut) {
        (Some(bytes), Some(text), _) => bytes == text.as_bytes(),
        (Some(bytes), None, Some(text)) => {
            bytes.len() < text.len() && text.as_bytes().starts_with(bytes)
        }
        (None, None, None) => true,
        _ => false,
    }
}

// The files that stand otherwise than the input and these texts say.
fn wrong_files(
    alloc: Global,
    folder: &MemFolder,
    input: &[Text],
    whole: &[Text],
    cut: &[Text],
) -> Result<String, Fail> {
    let mut wrong = String::new(alloc);
    for name in &FILES {
        let text = find(input, name).or(find(whole, name));
        if !is_due(folder.file(name), text, find(cut, name)) {
            wrong.push_str(name)?;
        }
    }
    Ok(wrong)
}

// What the run over the folder comes to, and behind it the files that are not as these texts say.
fn outcome<R: Threads + Sync>(
    rt: &R,
    alloc: Global,
    each: &Run,
    folder: &mut MemFolder,
    whole: &[Text],
    cut: &[Text],
) -> Result<String, Fail> {
    let mut shown = run(rt, alloc, each.tool, each.words, folder)?;
    shown.push_str(wrong_files(alloc, folder, each.input, whole, cut)?.as_str())?;
    Ok(shown)
}

// What comes where this call fails, and then of a second run over the files that are left. There is none where no call failed.
fn came<R: Threads + Sync>(
    rt: &R,
    alloc: Global,
    each: &Run,
    call: u64,
    whole: &[Text],
    cut: &[Text],
) -> Result<String, Fail> {
    let mut folder = folder_of(alloc, each.input, &[call])?;
    let mut shown = outcome(rt, alloc, each, &mut folder, whole, cut)?;
    if folder.calls() >= call {
        let again = outcome(rt, alloc, each, &mut folder, each.output, &[])?;
        shown.push_str(again.as_str())?;
    }
    Ok(shown)
}

// What is to come where one of these calls fails, or none.
fn due(alloc: Global, each: &Run, failing: &Option<Calls>) -> Result<String, Fail> {
    let (name, end) = (each.name, each.end);
    Ok(match failing {
        Some((_, part, file, _, _)) => {
            format!(in alloc; "5 Outside({part})\n{name}: {file}: device failure\n{end}")?
        }
        None => String::from_str(alloc, end)?,
    })
}

// What came and what was to come where this call fails, if these differ.
fn difference<R: Threads + Sync>(
    rt: &R,
    alloc: Global,
    each: &Run,
    call: u64,
    failing: &Option<Calls>,
) -> Result<String, Fail> {
    let (whole, cut) = match failing {
        Some((_, _, _, whole, cut)) => (*whole, *cut),
        None => (each.output, [].as_slice()),
    };
    let came = came(rt, alloc, each, call, whole, cut)?;
    let due = due(alloc, each, failing)?;
    if came.as_str() == due.as_str() {
        return Ok(String::new(alloc));
    }
    Ok(format!(in alloc; "call {call} came: {}due: {}", came.as_str(), due.as_str())?)
}

// The calls that have the one of this number among them.
fn calls_at(all: &[Calls], call: u64) -> Option<Calls> {
    let mut left = call;
    for calls in all {
        if left <= calls.0 {
            return Some(*calls);
        }
        left -= calls.0;
    }
    None
}

// The differences where the first call fails, the second, and so on, up to a run that meets no failure.
fn differences<R: Threads + Sync>(rt: &R, alloc: Global, each: &Run) -> Result<String, Fail> {
    let mut shown = String::new(alloc);
    for call in 1..u64::MAX {
        let failing = calls_at(each.calls, call);
        shown.push_str(difference(rt, alloc, each, call, &failing)?.as_str())?;
        if failing.is_none() {
            break;
        }
    }
    Ok(shown)
}

#[test]
fn each_call_of_a_run_fails_in_turn(rt: HostRuntime) -> Result<(), Fail> {
    assert_eq!(rt; differences(&rt, rt.alloc(), &POLYGON_RUN)?.as_str(), "");
    Ok(())
}

#[test]
fn each_call_of_a_run_with_backups_fails_in_turn(rt: HostRuntime) -> Result<(), Fail> {
    assert_eq!(rt; differences(&rt, rt.alloc(), &STOPPED)?.as_str(), "");
    Ok(())
}

// What comes of a run that goes on where this call of the stopped run failed, if it is not the whole result.
fn unfinished_at<R: Threads + Sync>(rt: &R, alloc: Global, call: u64) -> Result<String, Fail> {
    let mut folder = folder_of(alloc, STOPPED.input, &[call])?;
    run(rt, alloc, STOPPED.tool, STOPPED.words, &mut folder)?;
    let words = ["--resume", "--pairs=2", "P"];
    let end = run(rt, alloc, STOPPED.tool, &words, &mut folder)?;
    if end.as_str() == RESUMED && is_due(folder.file(HIL.0), Some(HIL.1), None) {
        return Ok(String::new(alloc));
    }
    Ok(format!(in alloc; "call {call} came: {}", end.as_str())?)
}

// The same of all calls that leave a whole backup.
fn unfinished<R: Threads + Sync>(rt: &R, alloc: Global) -> Result<String, Fail> {
    let mut shown = String::new(alloc);
    for call in 1..u64::MAX {
        let Some((_, _, _, whole, _)) = calls_at(STOPPED.calls, call) else {
            break;
        };
        if !whole.is_empty() {
            shown.push_str(unfinished_at(rt, alloc, call)?.as_str())?;
        }
    }
    Ok(shown)
}

// Wherever a whole backup is left, the run goes on from it.
#[test]
fn a_whole_backup_is_enough(rt: HostRuntime) -> Result<(), Fail> {
    assert_eq!(rt; unfinished(&rt, rt.alloc())?.as_str(), "");
    Ok(())
}
