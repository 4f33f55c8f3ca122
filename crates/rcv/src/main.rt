//! The program `rcv`: the top call over real files, standard output and standard error.
#![tactic(auto)]

mod program;

use crate::program::run;
use std::process::ExitCode;

fn main(rt: HostRuntime) -> ExitCode {
    ExitCode::from(run(rt))
}
