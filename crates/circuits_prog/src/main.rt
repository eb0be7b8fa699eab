//! The program `circuits`.
#![tactic(auto)]

use circuit_tool::run_circuits;
use outside::{DirFolder, StdSink};
use std::process::ExitCode;
use tool_frame::Session;

fn main(rt: HostRuntime) -> ExitCode {
    let session = match Session::open(&rt) {
        Ok(session) => session,
        Err(code) => return code,
    };
    let mut folder = DirFolder::new(&rt);
    let mut out = StdSink::out(&rt);
    let mut err = StdSink::err(&rt);
    let status = run_circuits(rt.alloc(), session.words(), &mut folder, &mut out, &mut err);
    ExitCode::from(status.code)
}
