//! Runs a plan of a station again and again, to measure what a run of a day takes. In the plan each of two trains waits
//! for the other, so that it cannot be carried out, and no command reads it; its run goes on to the horizon.
#![tactic(auto)]

mod named;
mod runs;

use anyhow::{Context, Result, ensure};
use infra_reader::read_design;
use rail_files::FileShelf;
use rail_outside::Shelf;
use rail_routes::interlocking;
use runs::{failed_runs, waiting_plan};
use std::alloc::Global;
use std::env;

/// The most bytes of a station.
const LONGEST: u64 = 1_000_000;

/// How often to run, and the file of the station.
fn read_words(alloc: Global, rt: &HostRuntime) -> Result<(u64, String)> {
    let words: Vec<String> = env::args(rt)?.collect(alloc)?;
    ensure!(words.len() == 3, "usage: day_runs TIMES DESIGN");
    let times = words[1].parse().context("TIMES is no number")?;
    Ok((times, words[2].clone()?))
}

fn main(rt: HostRuntime) -> Result<()> {
    let alloc = rt.alloc();
    let (times, file) = read_words(alloc, &rt)?;
    let mut files = FileShelf::new(alloc, &rt);
    let bytes = files.fetch(alloc, file.as_str(), LONGEST)?;
    let design = read_design(alloc, bytes.as_slice())?;
    let interlocking = interlocking(alloc, design)?;
    let plan = waiting_plan(alloc)?;
    let failed = failed_runs(alloc, &interlocking, &plan, times)?;
    println!(rt;
        "{times} runs: {failed} fail at the horizon, as train 1 is not granted its second route"
    )?;
    Ok(())
}
