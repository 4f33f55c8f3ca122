//! Asks for a plan of a station again and again, while one call of the solver's recorder after the other wants memory,
//! and names the calls after which the search ends otherwise than with a proof that there is none.
#![tactic(auto)]

mod adding;
mod rounds;

use anyhow::Result;
use infra_reader::read_design;
use interlocking::{Interlocking, Steps};
use log_checker::CheckResult;
use proof_judge::judge;
use rail_files::FileShelf;
use rail_outside::Shelf;
use rail_routes::interlocking;
use rounds::refute;
use std::alloc::Global;
use std::process::ExitCode;

/// The station, for which there is no plan of so many steps.
const STATION: &str = "follow_late.toml";

/// How many steps a plan may have.
const STEPS: u32 = 4;

/// The most bytes of the station.
const LONGEST: u64 = 1_000_000;

/// Whether a search that stops at these calls is refused so often and ends with a proof that there is no plan.
fn ends_well(
    alloc: Global,
    interlocking: &Interlocking,
    stops: &[u64],
    refused: u64,
) -> Result<bool> {
    let steps = Steps { count: STEPS };
    let ending = refute(alloc, interlocking, steps, stops)?;
    if ending.refused != refused {
        return Ok(false);
    }
    let shown = judge(alloc, interlocking, steps, ending.log.as_slice())?;
    Ok(matches!(shown, CheckResult::Yes { steps: STEPS }))
}

fn main(rt: HostRuntime) -> Result<ExitCode> {
    let alloc = rt.alloc();
    let mut data = FileShelf::new(alloc, &rt);
    let bytes = data.fetch(alloc, STATION, LONGEST)?;
    let design = read_design(alloc, bytes.as_slice())?;
    let interlocking = interlocking(alloc, design)?;
    let calls = refute(alloc, &interlocking, Steps { count: STEPS }, &[])?.calls;
    let mut wrong = u64::from(!ends_well(alloc, &interlocking, &[], 0)?);
    for call in 1..=calls {
        if !ends_well(alloc, &interlocking, &[call], 1)? {
            println!(rt; "call {call}: ends otherwise")?;
            wrong = wrong.saturating_add(1);
        }
    }
    println!(rt; "{calls} calls, each refused once: {wrong} wrong")?;
    Ok(ExitCode::from(u8::from(wrong > 0)))
}
