//! The files of a worked example.

use crate::row::{DesignText, FileTexts};
use anyhow::{Result, ensure};
use rail_files::FileShelf;
use rail_outside::Shelf;
use std::alloc::Global;
use std::rt::Files;

/// The most bytes of a file that is read, before line feeds follow it.
const LONGEST: u64 = 1_000_000;

/// A file: its name and its text.
#[derive(Drop)]
pub struct Text {
    pub name: &'static str,
    pub text: String,
}

/// The text of a file below the data.
pub fn fetch_text<R: Files + Drop>(
    alloc: Global,
    data: &mut FileShelf<R>,
    file: &str,
) -> Result<String> {
    let bytes = data.fetch(alloc, file, LONGEST)?;
    let text = str::from_utf8(bytes.as_slice())?;
    Ok(String::from_str(alloc, text)?)
}

/// The files of a worked example.
pub fn texts_of<R: Files + Drop>(
    alloc: Global,
    data: &mut FileShelf<R>,
    files: FileTexts<'_>,
) -> Result<Vec<Text>> {
    let mut texts = Vec::new(alloc);
    if let Some(station) = files.design.station {
        let text = station_text(alloc, data, station)?;
        texts.push(Text {
            name: "design.toml",
            text: change_design(alloc, text, files.design)?,
        })?;
    }
    let plan = files.plan;
    add_text(alloc, &mut texts, "plan.json", plan.text, plan.bytes)?;
    add_text(alloc, &mut texts, "proof.txt", files.proof, None)?;
    Ok(texts)
}

/// A text, and as many line feeds as make it so long, where it is shorter.
fn lengthen(text: String, bytes: Option<u64>) -> Result<String> {
    let mut text = text;
    for _ in text.len() as u64..bytes.unwrap_or(0) {
        text.push('\n')?;
    }
    Ok(text)
}

/// The text of a station as a worked example has it.
fn change_design(alloc: Global, text: String, design: DesignText<'_>) -> Result<String> {
    if let (Some(replaced), Some(by)) = (design.replaced, design.by) {
        ensure!(text.contains(replaced), "nothing is replaced");
        return lengthen(text.replace(alloc, replaced, by)?, design.bytes);
    }
    lengthen(text, design.bytes)
}

/// The text of a station.
fn station_text<R: Files + Drop>(
    alloc: Global,
    data: &mut FileShelf<R>,
    station: &str,
) -> Result<String> {
    let file = format!(in alloc; "stations/{station}.toml")?;
    fetch_text(alloc, data, file.as_str())
}

/// Adds a file with a text and as many line feeds as make it so long, where there is such a text.
fn add_text(
    alloc: Global,
    texts: &mut Vec<Text>,
    name: &'static str,
    text: Option<&str>,
    bytes: Option<u64>,
) -> Result<()> {
    if let Some(text) = text {
        let text = lengthen(String::from_str(alloc, text)?, bytes)?;
        texts.push(Text { name, text })?;
    }
    Ok(())
}
