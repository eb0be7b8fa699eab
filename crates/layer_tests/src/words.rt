//! The words of a command.

use lift_core::Tool;
use outside::Words;
use std::alloc::{AllocError, Global};
use std::test::Fail;
use tool_words::{Job, WordEnd, read_words};

// What words that stand between spaces read as.
fn read(alloc: Global, tool: Tool, line: &str) -> Result<Result<Job, WordEnd>, AllocError> {
    let mut words = Words::new(alloc);
    for word in line.split(' ') {
        words.push(word)?;
    }
    Ok(read_words(alloc, tool, &words))
}

// The numbers and flags of a job whose project is P.
fn job_of(
    alloc: Global,
    tool: Tool,
    line: &str,
) -> Result<Option<(u32, u64, u32, Option<u32>, bool, bool)>, AllocError> {
    let Ok(job) = read(alloc, tool, line)? else {
        return Ok(None);
    };
    let is_p = match &job.project {
        Some(name) => name.text() == "P",
        None => false,
    };
    if !is_p {
        return Ok(None);
    }
    Ok(Some((
        job.workers,
        job.pairs,
        job.rows,
        job.backup,
        job.resume,
        job.quiet,
    )))
}

#[test]
fn defaults_stand_where_nothing_is_said(rt: HostRuntime) -> Result<(), Fail> {
    let job = job_of(rt.alloc(), Tool::Hilbert, "P")?;
    assert_eq!(rt; job, Some((4, 1 << 40, 1 << 20, None, false, false)));
    Ok(())
}

#[test]
fn options_stand_in_any_order(rt: HostRuntime) -> Result<(), Fail> {
    let job = job_of(
        rt.alloc(),
        Tool::Graver,
        "--pairs=0 -qr --workers 2 --rows=007 --backup=1 -- P",
    )?;
    assert_eq!(rt; job, Some((2, 0, 7, Some(1), true, true)));
    Ok(())
}

// The first of the lines that is not refused.
fn first_taken<'l>(
    alloc: Global,
    tool: Tool,
    lines: &[&'l str],
) -> Result<Option<&'l str>, AllocError> {
    for line in lines {
        match read(alloc, tool, line)? {
            Err(WordEnd::Usage) => (),
            _ => return Ok(Some(line)),
        }
    }
    Ok(None)
}

#[test]
fn other_words_are_refused(rt: HostRuntime) -> Result<(), Fail> {
    let lines = [
        "",
        "-",
        "P Q",
        "-x P",
        "-qq P",
        "-q --quiet P",
        "--quiet=1 P",
        "--qui P",
        "--help",
        "-h",
        "--version",
        "--workers=0 P",
        "--workers=33 P",
        "--workers=+3 P",
        "--workers= P",
        "--workers=2 --workers=2 P",
        "--workers 2 --workers 2 P",
        "--workers -- P",
        "--rows=0 P",
        "--pairs=100000000000000000000000000000 P",
        "--tables=6",
        "-- -P",
        "P --backup",
    ];
    let taken = first_taken(rt.alloc(), Tool::Hilbert, &lines)?;
    assert_eq!(rt; taken, None);
    Ok(())
}

#[test]
fn tables_stand_alone(rt: HostRuntime) -> Result<(), Fail> {
    let lines = ["--tables=6 P", "--tables=1", "--tables=21", "--tables=6 -r"];
    let taken = first_taken(rt.alloc(), Tool::Graver, &lines)?;
    let job = read(rt.alloc(), Tool::Graver, "-q --tables=6")?;
    let tables = match job {
        Ok(job) => job.tables,
        Err(_) => None,
    };
    assert_eq!(rt; (taken, tables), (None, Some(6)));
    Ok(())
}
