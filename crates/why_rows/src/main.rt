//! Runs worked examples of `rcv_why` over shelves and sinks in memory, and names those that do not answer as they have
//! to: mistakes in designs and plans and what is said of them, and what is said where a within has another time.
#![tactic(auto)]

mod commands;

use anyhow::{Context, Result};
use commands::wrong_commands;
use rail_files::FileShelf;
use std::alloc::Global;
use std::process::ExitCode;
use std::rt::Files;
use toml::Table;
use worked_examples::{Row, fetch_text, rows_of, texts_of};

/// The files with the worked examples.
const BOOKS: [&str; 3] = ["mistakes", "codes", "times"];

/// The table of a file with worked examples.
fn read_book<R: Files + Drop>(alloc: Global, data: &mut FileShelf<R>, name: &str) -> Result<Table> {
    let file = format!(in alloc; "{name}.toml")?;
    let text = fetch_text(alloc, data, file.as_str())?;
    Ok(toml::table_from_str(alloc, text.as_str())?)
}

/// How many commands of some worked examples go wrong.
fn wrong_in_rows<R: Files + Drop>(
    rt: &impl Print,
    alloc: Global,
    data: &mut FileShelf<R>,
    rows: &[Row<'_>],
) -> Result<u64> {
    let mut wrong = 0u64;
    for row in rows {
        let texts = texts_of(alloc, data, row.files)?;
        let more = wrong_commands(rt, alloc, row, texts.as_slice()).context(format_args!(
            "running {}",
            row.name
        ))?;
        wrong = wrong.saturating_add(more);
    }
    Ok(wrong)
}

/// How many commands of the worked examples of a file go wrong.
fn wrong_in_book<R: Files + Drop>(
    rt: &impl Print,
    alloc: Global,
    data: &mut FileShelf<R>,
    name: &str,
) -> Result<u64> {
    let book = read_book(alloc, data, name)?;
    let rows = rows_of(alloc, &book)?;
    let wrong = wrong_in_rows(rt, alloc, data, rows.as_slice())?;
    println!(rt; "{name}: {} worked examples, {wrong} wrong", rows.len())?;
    Ok(wrong)
}

fn main(rt: HostRuntime) -> Result<ExitCode> {
    let alloc = rt.alloc();
    let mut data = FileShelf::new(alloc, &rt);
    let mut wrong = 0u64;
    for name in BOOKS {
        let more = wrong_in_book(&rt, alloc, &mut data, name).context(format_args!("in {name}"))?;
        wrong = wrong.saturating_add(more);
    }
    Ok(ExitCode::from(u8::from(wrong > 0)))
}
