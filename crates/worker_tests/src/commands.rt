//! A command over a folder in memory, and all that it says and leaves as one text.

use lift_core::Tool;
use outside::{MemFolder, MemSink, Words};
use std::alloc::Global;
use std::test::Fail;
use std::thread::Threads;
use tool_top::run_tool;
use worker_gate::{FreeGate, Gate};

/// A file's name and its text.
pub type Text = (&'static str, &'static str);

/// A command: the tool, its last word and its input files. What it says and leaves: the exit status, standard output and each
/// output file after its name.
#[derive(Clone, Copy)]
pub struct Case {
    pub tool: Tool,
    pub word: &'static str,
    pub input: &'static [Text],
    pub due: &'static str,
}

// The names of all output files.
const OUTPUTS: [&str; 4] = ["P.gra", "P.hil", "P.zhom", "P.zinhom"];

// A folder with these files.
fn folder_of(alloc: Global, input: &[Text]) -> Result<MemFolder, Fail> {
    let mut folder = MemFolder::new(alloc, Vec::new(alloc));
    for (name, text) in input {
        folder.insert(name, text.as_bytes())?;
    }
    Ok(folder)
}

// Two words.
fn words_of(alloc: Global, first: &str, second: &str) -> Result<Words, Fail> {
    let mut words = Words::new(alloc);
    words.push(first)?;
    words.push(second)?;
    Ok(words)
}

// Adds bytes to a text.
fn push_bytes(text: &mut String, bytes: &[u8]) -> Result<(), Fail> {
    for byte in bytes {
        text.push(char::from(*byte))?;
    }
    Ok(())
}

// Adds a file to a text, after its name, where there is such a file.
fn push_file(text: &mut String, folder: &MemFolder, name: &str) -> Result<(), Fail> {
    if let Some(bytes) = folder.file(name) {
        text.push_str(name)?;
        text.push('\n')?;
        push_bytes(text, bytes)?;
    }
    Ok(())
}

// Adds the output files that are there.
fn push_files(text: &mut String, folder: &MemFolder) -> Result<(), Fail> {
    for name in &OUTPUTS {
        push_file(text, folder, name)?;
    }
    Ok(())
}

// The exit status, what the streams gained and the output files.
fn shown(
    alloc: Global,
    code: u8,
    out: &[u8],
    err: &[u8],
    folder: &MemFolder,
) -> Result<String, Fail> {
    let mut text = format!(in alloc; "{code}\n")?;
    push_bytes(&mut text, out)?;
    push_bytes(&mut text, err)?;
    push_files(&mut text, folder)?;
    Ok(text)
}

/// What the command says and leaves with so many workers, each told to the gate.
pub fn told<R: Threads + Sync, G: Gate + Sync>(
    rt: &R,
    alloc: Global,
    case: &Case,
    workers: &str,
    gate: &G,
) -> Result<String, Fail> {
    let mut folder = folder_of(alloc, case.input)?;
    let words = words_of(alloc, workers, case.word)?;
    let mut out = MemSink::new(alloc, Vec::new(alloc));
    let mut err = MemSink::new(alloc, Vec::new(alloc));
    let status = run_tool(
        rt,
        alloc,
        case.tool,
        &words,
        &mut folder,
        &mut out,
        &mut err,
        gate,
    );
    shown(alloc, status.code, out.bytes(), err.bytes(), &folder)
}

/// What the command says and leaves with the first number of workers for which that is not what is due, after that number, or
/// nothing.
pub fn first_unlike<R: Threads + Sync>(
    rt: &R,
    alloc: Global,
    case: &Case,
    numbers: &[&str],
) -> Result<String, Fail> {
    for workers in numbers {
        let mut came = told(rt, alloc, case, workers, &FreeGate)?;
        if came.as_str() != case.due {
            came.push_str(workers)?;
            return Ok(came);
        }
    }
    Ok(String::new(alloc))
}
