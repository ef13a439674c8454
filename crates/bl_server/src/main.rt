//! The program `bl_server`: sessions of a document server that enforces Bell and La Padula.
#![tactic(auto)]

use bl_command::shell::run;
use std::process::ExitCode;

fn main(rt: HostRuntime) -> ExitCode {
    ExitCode::from(run(&rt))
}
