//! What the programs share: the machine's words, folder and streams, handed to the top call.

ghost use Rattle.tool_top.specs.Messages.{IsDoneEnd};

use crate::ends::code;
use crate::{End, put_message, run_tool};
use lift_core::Tool;
use outside::{DirFolder, Sink, StdSink, Words};
use std::alloc::{AllocError, Global};
use std::fs::File;
use std::io::ErrorKind;
use std::process::ExitCode;
use std::thread::Threads;
use std::{env, io};
use worker_gate::FreeGate;

// A file that is always there, and empty.
const NOTHING: &str = "/dev/null";

// The words of the command, without the program's name.
fn words_of(alloc: Global, words: env::Args) -> Result<Words, AllocError> {
    let mut list = Words::new(alloc);
    for word in words.skip(1) {
        list.push(word.as_str())?;
    }
    Ok(list)
}

// Three handles that take the numbers of standard streams that are closed. Else a file of the project would get such a
// number, and what is put on the stream would go into the file. These are for reading alone, so a put fails.
fn hold_closed_streams(rt: &HostRuntime) -> [io::Result<File>; 3] {
    [
        File::open(rt, NOTHING),
        File::open(rt, NOTHING),
        File::open(rt, NOTHING),
    ]
}

// Puts the line of an end that comes before the top call, and gives its exit status.
fn refuse<E: Sink>(tool: Tool, end: &End, err: &mut E) -> ExitCode
    requires { IsDoneEnd end.now → ⊥ }
{
    // A failure of standard error changes no status.
    let _ = put_message(tool, "", end, err);
    ExitCode::from(code(end))
}

/// Runs a command as a program: on the words that the machine gives, in the current folder, with the standard streams.
/// Gives the exit status of [`run_tool`]; a word that is no UTF-8 text ends with 1, and where memory runs out for the words,
/// it is 6.
///
/// `threads` starts the workers' threads: it is the runtime once more, which has that right in `main` alone.
pub fn run_program<R: Threads + Sync>(rt: &HostRuntime, threads: &R, tool: Tool) -> ExitCode {
    let _held = hold_closed_streams(rt);
    let mut err = StdSink::err(rt);
    let args = match env::args(rt) {
        Ok(args) => args,
        Err(error) if error.kind() == ErrorKind::OutOfMemory => {
            return refuse(tool, &End::Memory, &mut err);
        }
        Err(_) => return refuse(tool, &End::Usage, &mut err),
    };
    let Ok(words) = words_of(rt.alloc(), args) else {
        return refuse(tool, &End::Memory, &mut err);
    };
    let mut folder = DirFolder::new(rt);
    let mut out = StdSink::out(rt);
    let status = run_tool(
        threads,
        rt.alloc(),
        tool,
        &words,
        &mut folder,
        &mut out,
        &mut err,
        &FreeGate,
    );
    ExitCode::from(status.code)
}
