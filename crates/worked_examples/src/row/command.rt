//! The commands of a worked example, and what they have to answer.

use crate::row::fields::Fields;
use anyhow::Result;
use std::alloc::Global;
use toml::Value;

/// A command line, and what it has to answer.
#[derive(Drop)]
pub struct Command<'a> {
    /// The words after the program's name.
    pub words: &'a str,
    pub status: u8,
    /// The texts of which one is printed; none where any may be.
    pub prints: Vec<&'a str>,
    /// How the text begins.
    pub begins: Option<&'a str>,
    /// The lines that tell how far a search is.
    pub tells: &'a str,
    pub faults: SinkFaults,
    pub leaves: Leaves<'a>,
    /// Whether a second run prints the same.
    pub twice: bool,
}

/// The puts that do not go out, each counted from 1.
#[derive(Clone, Copy)]
pub struct SinkFaults {
    /// The put that fails.
    pub failing_put: Option<u64>,
    /// How many bytes of it go out first.
    pub bytes_out: Option<u64>,
    /// The put for which memory is wanting.
    pub wanting_put: Option<u64>,
}

/// How the shelf stands afterwards.
#[derive(Drop)]
pub struct Leaves<'a> {
    /// Whether `proof.txt` is there.
    pub has_proof: Option<bool>,
    /// The text of `proof.txt`.
    pub text: Option<&'a str>,
    /// How many lines of cones it has.
    pub cone_count: Option<u64>,
    /// How many lines of bounds it has.
    pub bound_count: Option<u64>,
    /// Some of these lines.
    pub cones: Vec<&'a str>,
    /// How many calls of the shelf were made by then.
    pub calls: Option<u64>,
}

/// The keys of a command.
const KEYS: [&str; 15] = [
    "words",
    "status",
    "prints",
    "begins",
    "tells",
    "failing_put",
    "bytes_out",
    "wanting_put",
    "has_proof",
    "leaves",
    "cone_count",
    "bound_count",
    "cones",
    "calls",
    "twice",
];

/// The commands of a worked example.
pub fn commands_of<'a>(alloc: Global, row: Fields<'a>) -> Result<Vec<Command<'a>>> {
    let mut commands = Vec::new(alloc);
    for entry in row.entries("command")? {
        commands.push(command_of(alloc, entry)?)?;
    }
    Ok(commands)
}

/// The status that a command has to have.
fn status_of(fields: Fields<'_>) -> Result<u8> {
    Ok(u8::try_from(fields.needed_number("status")?)?)
}

/// The puts of a command that do not go out.
fn faults_of(fields: Fields<'_>) -> Result<SinkFaults> {
    Ok(SinkFaults {
        failing_put: fields.number("failing_put")?,
        bytes_out: fields.number("bytes_out")?,
        wanting_put: fields.number("wanting_put")?,
    })
}

/// How the shelf stands after a command.
fn leaves_of<'a>(alloc: Global, fields: Fields<'a>) -> Result<Leaves<'a>> {
    Ok(Leaves {
        has_proof: fields.flag("has_proof")?,
        text: fields.text("leaves")?,
        cone_count: fields.number("cone_count")?,
        bound_count: fields.number("bound_count")?,
        calls: fields.number("calls")?,
        cones: fields.texts(alloc, "cones")?,
    })
}

/// A command.
fn command_of<'a>(alloc: Global, value: &'a Value) -> Result<Command<'a>> {
    let fields = Fields::of(value, &KEYS)?;
    Ok(Command {
        words: fields.needed_text("words")?,
        status: status_of(fields)?,
        begins: fields.text("begins")?,
        tells: fields.text("tells")?.unwrap_or(""),
        faults: faults_of(fields)?,
        twice: fields.flag("twice")?.unwrap_or(false),
        prints: fields.texts(alloc, "prints")?,
        leaves: leaves_of(alloc, fields)?,
    })
}
