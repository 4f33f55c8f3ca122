//! The keys of a table of a data file.

use anyhow::{Context, Result, bail, ensure};
use std::alloc::Global;
use toml::{Table, Value};

impl<'a> Fields<'a> {
    /// The fields of a table. Refuses a key that is none of these.
    pub fn of_table(table: &'a Table, known: &[&str]) -> Result<Self> {
        ensure_known(table, known)?;
        Ok(Fields { table })
    }

    /// The fields of a value. Refuses what is no table, and a key that is none of these.
    pub fn of(value: &'a Value, known: &[&str]) -> Result<Self> {
        match value {
            Value::Table(table) => Fields::of_table(table, known),
            _ => bail!("no table"),
        }
    }

    /// The text at a key, which may be absent.
    pub fn text(self, key: &str) -> Result<Option<&'a str>> {
        match self.table.get(key) {
            Some(Value::String(text)) => Ok(Some(text.as_str())),
            Some(_) => bail!("{key} is no text"),
            None => Ok(None),
        }
    }

    /// The number at a key, which may be absent.
    pub fn number(self, key: &str) -> Result<Option<u64>> {
        match self.table.get(key) {
            Some(Value::Integer(number)) => {
                let number = u64::try_from(*number).context(format_args!("{key} is negative"))?;
                Ok(Some(number))
            }
            Some(_) => bail!("{key} is no number"),
            None => Ok(None),
        }
    }

    /// The text at a key, which has to be there.
    pub fn needed_text(self, key: &str) -> Result<&'a str> {
        self.text(key)?.context(format_args!("{key} is missing"))
    }

    /// The number at a key, which has to be there.
    pub fn needed_number(self, key: &str) -> Result<u64> {
        self.number(key)?.context(format_args!("{key} is missing"))
    }

    /// The truth value at a key, which may be absent.
    pub fn flag(self, key: &str) -> Result<Option<bool>> {
        match self.table.get(key) {
            Some(Value::Boolean(flag)) => Ok(Some(*flag)),
            Some(_) => bail!("{key} is no truth value"),
            None => Ok(None),
        }
    }

    /// The entries at a key; none where it is absent.
    pub fn entries(self, key: &str) -> Result<&'a [Value]> {
        match self.table.get(key) {
            Some(Value::Array(entries)) => Ok(entries.as_slice()),
            Some(_) => bail!("{key} is no list"),
            None => Ok(&[]),
        }
    }

    /// The texts at a key; none where it is absent.
    pub fn texts(self, alloc: Global, key: &str) -> Result<Vec<&'a str>> {
        let mut texts = Vec::new(alloc);
        for entry in self.entries(key)? {
            match entry {
                Value::String(text) => texts.push(text.as_str())?,
                _ => bail!("{key} holds what is no text"),
            }
        }
        Ok(texts)
    }
}

/// Whether a text is one of some.
fn is_known(known: &[&str], text: &str) -> bool {
    known.iter().any(|key| *key == text)
}

/// A table, all of whose keys are known.
#[derive(Clone, Copy)]
pub struct Fields<'a> {
    table: &'a Table,
}

/// Refuses a key that is none of these.
fn ensure_known(table: &Table, known: &[&str]) -> Result<()> {
    for key in table.keys() {
        ensure!(
            is_known(known, key.as_str()),
            "unknown key {}",
            key.as_str()
        );
    }
    Ok(())
}
