//! The runs and searches of a worked example, and the clauses that its trains come in turn.

use crate::row::fields::Fields;
use anyhow::Result;
use std::alloc::Global;
use toml::Value;

/// Some ticks of the plan's run, and what they show.
#[derive(Clone, Copy)]
pub struct Run {
    pub ticks: u64,
    /// The deciding tick, where the plan is met by then.
    pub met: Option<u64>,
}

/// A search for a plan of so many steps whose log may have so many bytes, and has no room for its next line.
#[derive(Clone, Copy)]
pub struct Search {
    pub steps: u32,
    pub log_bytes: u64,
    /// The bytes of the log.
    pub bytes: u64,
    /// The bytes of the next line, where they are known.
    pub next: Option<u64>,
}

/// The clauses for so many steps that a base has behind those of the plain base.
#[derive(Drop)]
pub struct Behind<'a> {
    /// `sorted` or `normal`.
    pub base: &'a str,
    pub steps: u32,
    /// The literals of each, with a space between each and the next.
    pub clauses: Vec<&'a str>,
}

/// The runs of a worked example.
pub fn runs_of(alloc: Global, row: Fields<'_>) -> Result<Vec<Run>> {
    let mut runs = Vec::new(alloc);
    for entry in row.entries("run")? {
        runs.push(run_of(entry)?)?;
    }
    Ok(runs)
}

/// The searches of a worked example.
pub fn searches_of(alloc: Global, row: Fields<'_>) -> Result<Vec<Search>> {
    let mut searches = Vec::new(alloc);
    for entry in row.entries("search")? {
        searches.push(search_of(entry)?)?;
    }
    Ok(searches)
}

/// The clauses of a worked example.
pub fn all_behind_of<'a>(alloc: Global, row: Fields<'a>) -> Result<Vec<Behind<'a>>> {
    let mut behind = Vec::new(alloc);
    for entry in row.entries("behind")? {
        behind.push(behind_of(alloc, entry)?)?;
    }
    Ok(behind)
}

/// A run.
fn run_of(value: &Value) -> Result<Run> {
    let fields = Fields::of(value, &["ticks", "met"])?;
    Ok(Run {
        ticks: fields.needed_number("ticks")?,
        met: fields.number("met")?,
    })
}

/// A search.
fn search_of(value: &Value) -> Result<Search> {
    let fields = Fields::of(value, &["steps", "log_bytes", "bytes", "next"])?;
    Ok(Search {
        steps: u32::try_from(fields.needed_number("steps")?)?,
        log_bytes: fields.needed_number("log_bytes")?,
        bytes: fields.needed_number("bytes")?,
        next: fields.number("next")?,
    })
}

/// Clauses.
fn behind_of<'a>(alloc: Global, value: &'a Value) -> Result<Behind<'a>> {
    let fields = Fields::of(value, &["base", "steps", "clauses"])?;
    Ok(Behind {
        base: fields.needed_text("base")?,
        steps: u32::try_from(fields.needed_number("steps")?)?,
        clauses: fields.texts(alloc, "clauses")?,
    })
}
