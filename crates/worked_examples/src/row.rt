//! Worked examples, as the data files have them, borrowed from the table that was read.

pub(crate) mod command;
mod fields;
pub(crate) mod run;

use anyhow::{Result, ensure};
use command::{Command, commands_of};
use fields::Fields;
use run::{Behind, Run, Search, all_behind_of, runs_of, searches_of};
use std::alloc::Global;
use toml::{Table, Value};

/// A worked example: files on a shelf, and the commands that are run over it in turn.
#[derive(Drop)]
pub struct Row<'a> {
    /// What it shows.
    pub name: &'a str,
    pub files: FileTexts<'a>,
    pub faults: ShelfFaults,
    /// Whether the commands answer the same over a shelf and a sink that never fail.
    pub surely: bool,
    pub commands: Vec<Command<'a>>,
    pub runs: Vec<Run>,
    pub searches: Vec<Search>,
    pub behind: Vec<Behind<'a>>,
    /// The plan as it is normalised.
    pub normalised: Option<&'a str>,
}

/// What the files on the shelf hold; a file that has no text is not there.
#[derive(Clone, Copy)]
pub struct FileTexts<'a> {
    pub design: DesignText<'a>,
    pub plan: PlanText<'a>,
    /// The text of `proof.txt`.
    pub proof: Option<&'a str>,
}

/// What `design.toml` holds.
#[derive(Clone, Copy)]
pub struct DesignText<'a> {
    /// The name of the station.
    pub station: Option<&'a str>,
    /// A text of the station, which is replaced wherever it stands.
    pub replaced: Option<&'a str>,
    /// What stands in its place.
    pub by: Option<&'a str>,
    /// The length in bytes up to which line feeds follow the station.
    pub bytes: Option<u64>,
}

/// What `plan.json` holds.
#[derive(Clone, Copy)]
pub struct PlanText<'a> {
    pub text: Option<&'a str>,
    /// The length in bytes up to which line feeds follow the text.
    pub bytes: Option<u64>,
}

/// The calls of the shelf that do not answer as the files stand, each counted from 1.
#[derive(Clone, Copy)]
pub struct ShelfFaults {
    /// The call that fails.
    pub failing_call: Option<u64>,
    /// The call for which memory is wanting.
    pub wanting_call: Option<u64>,
    /// The call whose file is longer than may be read.
    pub long_call: Option<u64>,
}

/// The keys of a worked example.
const KEYS: [&str; 17] = [
    "name",
    "station",
    "replaced",
    "by",
    "bytes",
    "plan",
    "plan_bytes",
    "proof",
    "failing_call",
    "wanting_call",
    "long_call",
    "surely",
    "command",
    "run",
    "search",
    "behind",
    "normalised",
];

/// The worked examples of a file.
///
/// Refused are a key that no worked example has, a value that is not of its key's form, and a key that is missing and
/// has to be there.
pub fn rows_of<'a>(alloc: Global, book: &'a Table) -> Result<Vec<Row<'a>>> {
    let fields = Fields::of_table(book, &["row"])?;
    ensure!(book.contains_key("row"), "no worked examples");
    let mut rows = Vec::new(alloc);
    for value in fields.entries("row")? {
        rows.push(row_of(alloc, value)?)?;
    }
    Ok(rows)
}

/// What `design.toml` holds in a worked example.
fn design_of<'a>(fields: Fields<'a>) -> Result<DesignText<'a>> {
    Ok(DesignText {
        station: fields.text("station")?,
        replaced: fields.text("replaced")?,
        by: fields.text("by")?,
        bytes: fields.number("bytes")?,
    })
}

/// What `plan.json` holds in a worked example.
fn plan_of<'a>(fields: Fields<'a>) -> Result<PlanText<'a>> {
    Ok(PlanText {
        text: fields.text("plan")?,
        bytes: fields.number("plan_bytes")?,
    })
}

/// The calls of the shelf that do not answer as the files of a worked example stand.
fn faults_of(fields: Fields<'_>) -> Result<ShelfFaults> {
    Ok(ShelfFaults {
        failing_call: fields.number("failing_call")?,
        wanting_call: fields.number("wanting_call")?,
        long_call: fields.number("long_call")?,
    })
}

/// What the files of a worked example hold.
fn files_of<'a>(fields: Fields<'a>) -> Result<FileTexts<'a>> {
    Ok(FileTexts {
        design: design_of(fields)?,
        plan: plan_of(fields)?,
        proof: fields.text("proof")?,
    })
}

/// A worked example.
fn row_of<'a>(alloc: Global, value: &'a Value) -> Result<Row<'a>> {
    let fields = Fields::of(value, &KEYS)?;
    Ok(Row {
        name: fields.needed_text("name")?,
        files: files_of(fields)?,
        faults: faults_of(fields)?,
        surely: fields.flag("surely")?.unwrap_or(false),
        runs: runs_of(alloc, fields)?,
        searches: searches_of(alloc, fields)?,
        behind: all_behind_of(alloc, fields)?,
        normalised: fields.text("normalised")?,
        commands: commands_of(alloc, fields)?,
    })
}
