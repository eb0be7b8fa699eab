//! One run of the top call, and a text of what it comes to.

use crate::texts::Text;
use lift_core::Tool;
use outside::{MemFolder, MemSink, Words};
use std::alloc::Global;
use std::str::from_utf8;
use std::test::Fail;
use std::thread::Threads;
use tool_top::{Status, run_tool};
use worker_gate::FreeGate;

/// A folder with these files, of whose calls the listed ones fail.
pub(crate) fn folder_of(alloc: Global, input: &[Text], failing: &[u64]) -> Result<MemFolder, Fail> {
    let mut folder = MemFolder::new(alloc, failing.to_vec(alloc)?);
    for (name, text) in input {
        folder.insert(name, text.as_bytes())?;
    }
    Ok(folder)
}

// These words.
fn words_of(alloc: Global, words: &[&str]) -> Result<Words, Fail> {
    let mut list = Words::new(alloc);
    for word in words {
        list.push(word)?;
    }
    Ok(list)
}

// The status with its end, and what standard output and standard error gained.
fn told(alloc: Global, status: &Status, out: &[u8], err: &[u8]) -> Result<String, Fail> {
    let out = from_utf8(out).unwrap_or("no text\n");
    let err = from_utf8(err).unwrap_or("no text\n");
    Ok(format!(in alloc; "{} {:?}\n{out}{err}", status.code, status.end)?)
}

/// What a run over the folder comes to, with these streams.
pub(crate) fn run_into<R: Threads + Sync>(
    rt: &R,
    alloc: Global,
    tool: Tool,
    words: &[&str],
    folder: &mut MemFolder,
    mut out: MemSink,
    mut err: MemSink,
) -> Result<String, Fail> {
    let words = words_of(alloc, words)?;
    let status = run_tool(
        rt, alloc, tool, &words, folder, &mut out, &mut err, &FreeGate,
    );
    told(alloc, &status, out.bytes(), err.bytes())
}

/// The same with streams that never fail.
pub(crate) fn run<R: Threads + Sync>(
    rt: &R,
    alloc: Global,
    tool: Tool,
    words: &[&str],
    folder: &mut MemFolder,
) -> Result<String, Fail> {
    let out = MemSink::new(alloc, Vec::new(alloc));
    let err = MemSink::new(alloc, Vec::new(alloc));
    run_into(rt, alloc, tool, words, folder, out, err)
}
