//! Commands, run over shelves and sinks in memory.

use anyhow::Result;
use rail_outside::{MemoryShelf, MemorySink};
use std::alloc::{AllocError, Global};
use why_cli::run_why;
use worked_examples::{Command, Row, Text, WantingShelf, WantingSink, may_answer};

/// How many commands of a worked example do not answer as they have to; each is named.
pub(crate) fn wrong_commands(
    rt: &impl Print,
    alloc: Global,
    row: &Row<'_>,
    texts: &[Text],
) -> Result<u64> {
    let mut shelf = shelf_of(alloc, row, texts)?;
    let mut wrong = 0u64;
    for command in row.commands.iter() {
        if !is_right(alloc, command, &mut shelf)? {
            println!(rt; "{}: {} answers something else", row.name, command.words)?;
            wrong = wrong.saturating_add(1);
        }
    }
    Ok(wrong)
}

/// The program's name, and then the words of a line, cut at its spaces.
fn words_of(alloc: Global, line: &str) -> Result<Vec<String>, AllocError> {
    let mut words = Vec::new(alloc);
    words.push(String::from_str(alloc, "rcv_why")?)?;
    for word in line.split(' ').filter(|word| !word.is_empty()) {
        words.push(String::from_str(alloc, word)?)?;
    }
    Ok(words)
}

/// Whether a command answers as it has to.
fn is_right(
    alloc: Global,
    command: &Command<'_>,
    shelf: &mut WantingShelf,
) -> Result<bool, AllocError> {
    let words = words_of(alloc, command.words)?;
    let mut sink = MemorySink::new(alloc);
    if let Some(put) = command.faults.failing_put {
        sink.fail_at(put, command.faults.bytes_out.unwrap_or(0))?;
    }
    let mut out = WantingSink::new(sink, command.faults.wanting_put);
    let status = run_why(alloc, words.as_slice(), shelf, &mut out).code();
    Ok(may_answer(command, status, out.bytes()))
}

/// The shelf of a worked example.
fn shelf_of(alloc: Global, row: &Row<'_>, texts: &[Text]) -> Result<WantingShelf, AllocError> {
    let mut shelf = MemoryShelf::new(alloc);
    for file in texts {
        shelf.add_file(file.name, file.text.as_bytes())?;
    }
    if let Some(call) = row.faults.failing_call {
        shelf.fail_at(call)?;
    }
    Ok(WantingShelf::new(shelf, row.faults.wanting_call, row.faults.long_call))
}
