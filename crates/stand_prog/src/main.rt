//! The program `stand`.
#![tactic(auto)]

use outside::{DirFolder, StdSink};
use stand_tool::run_stand;
use std::process::ExitCode;
use tool_frame::Session;
use worker_gate::FreeGate;

fn main(rt: HostRuntime) -> ExitCode {
    let session = match Session::open(&rt) {
        Ok(session) => session,
        Err(code) => return code,
    };
    let mut folder = DirFolder::new(&rt);
    let mut out = StdSink::out(&rt);
    let mut err = StdSink::err(&rt);
    let status = run_stand(
        &rt,
        rt.alloc(),
        session.words(),
        &mut folder,
        &mut out,
        &mut err,
        &FreeGate,
    );
    ExitCode::from(status.code)
}
