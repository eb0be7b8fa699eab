//! The program `decompose`.
#![tactic(auto)]

use decompose_tool::run_decompose;
use outside::{DirFolder, StdSink};
use std::process::ExitCode;
use tool_frame::Session;

fn main(rt: HostRuntime) -> ExitCode {
    let session = match Session::open(&rt) {
        Ok(session) => session,
        Err(code) => return code,
    };
    let mut folder = DirFolder::new(&rt);
    let mut out = StdSink::out(&rt);
    let mut err = StdSink::err(&rt);
    let status = run_decompose(rt.alloc(), session.words(), &mut folder, &mut out, &mut err);
    ExitCode::from(status.code)
}
