//! The program `zsolve`.
#![tactic(auto)]

use lift_core::Tool;
use std::process::ExitCode;
use tool_top::run_program;

fn main(rt: HostRuntime) -> ExitCode {
    run_program(&rt, &rt, Tool::Zsolve)
}
