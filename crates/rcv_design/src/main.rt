//! The program `rcv_design`: its top call over real files and standard output.
#![tactic(auto)]

mod program;

use crate::program::run;
use std::process::ExitCode;

fn main(rt: HostRuntime) -> ExitCode {
    ExitCode::from(run(rt))
}
