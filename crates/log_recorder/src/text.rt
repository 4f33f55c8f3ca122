//! A recorder that writes a proof file.

ghost use Rattle.std.specs.Prelude.{◌≡◌, ◌+◌, ◌≤◌, ◌++◌, true, IfOk, IfErr, OnOk, OnErr, Some, length};
ghost use Rattle.proof_log.specs.Words.{greatest_clause_number};
ghost use Rattle.sat_core.specs.Faults.{IsFault, IsFaultAt};
ghost use Rattle.sat_core.specs.Texts.{ended, derive_line, forget_line, added_line, has_room, has_room_for};

use proof_log::write_derive;
use rail_text::put_number;
use sat_clause::Lit;
use sat_core::{RecordFault, Recorder};
use std::alloc::{AllocError, Global};

/// The greatest number that a line can name.
const GREATEST: u64 = 999_999_999_999_999_999;

/// Counts the clauses, and keeps their lines as the bytes of a proof file, up to a limit.
///
/// No clause has a number of more than 18 digits; there is no memory for more.
#[derive(Drop)]
pub struct Text {
    alloc: Global,
    limit: u64,
    bytes: Vec<u8>,
    count: u64,
    ghost within: { length bytes.items ≤ limit },
    ghost has_numbers: { count ≤ greatest_clause_number },
}

impl Text {
    /// No clause yet, and a text of one line, which is given without its end.
    ///
    /// `Full`, with no bytes so far, exactly where the limit is less than that line with its end.
    pub fn new(alloc: Global, limit: u64, head: &[u8]) -> Result<Text, RecordFault>
        ensures count { IfOk result (λ t. t.count ≡ 0) }
        ensures text { IfOk result (λ t. t.bytes.items ≡ ended head.now) }
        ensures limit { IfOk result (λ t. t.limit ≡ limit) }
        ensures fault { IfErr result (IsFault (Some limit) 0 (length (ended head.now))) }
    {
        let next = head.len() as u64 + 1;
        if limit < next {
            return Err(RecordFault::Full { bytes: 0, next });
        }
        let Ok(bytes) = Vec::from_slice(alloc, head) else {
            return Err(RecordFault::Memory);
        };
        let Ok(bytes) = end_line(bytes) else {
            return Err(RecordFault::Memory);
        };
        Ok(Text {
            alloc,
            limit,
            bytes,
            count: 0,
        })
    }

    /// The text.
    pub fn into_bytes(self) -> Vec<u8>
        ensures { result ≡ self.bytes }
    {
        let Text { bytes, .. } = self;
        bytes
    }

    /// Puts a line at the end, which there has to be room for.
    fn put(&mut self, line: &[u8]) -> Result<(), RecordFault>
        ensures text { OnOk result (self.new.bytes.items ≡ self.old.bytes.items ++ line.now) }
        ensures unchanged { OnErr result (self.new.bytes.items ≡ self.old.bytes.items) }
        ensures room { OnOk result (has_room_for (Some self.old.limit) self.old.bytes.items line.now ≡ true) }
        ensures fault { IfErr result (IsFaultAt (Some self.old.limit) self.old.bytes.items line.now) }
        ensures count { self.new.count ≡ self.old.count }
        ensures limit { self.new.limit ≡ self.old.limit }
    {
        let next = line.len() as u64;
        let bytes = self.bytes.len() as u64;
        if self.limit - bytes < next {
            return Err(RecordFault::Full { bytes, next });
        }
        if self.bytes.extend_from_slice(line).is_err() {
            return Err(RecordFault::Memory);
        }
        Ok(())
    }

    /// The number of the next clause, where that has at most 18 digits.
    fn next(&self) -> Result<u64, RecordFault>
        ensures next { IfOk result (λ n. n ≡ self.now.count + 1) }
        ensures within { IfOk result (λ n. n ≤ greatest_clause_number) }
        ensures memory { IfErr result (λ fault. fault ≡ RecordFault.Memory) }
    {
        if GREATEST <= self.count {
            return Err(RecordFault::Memory);
        }
        Ok(self.count + 1)
    }
}

/// A line with its end.
fn end_line(mut line: Vec<u8>) -> Result<Vec<u8>, AllocError>
    ensures { IfOk result (λ text. text.items ≡ ended line.items) }
{
    line.push(b'\n')?;
    Ok(line)
}

/// The line that derives a clause by its hints.
fn derive_text(alloc: Global, clause: &[Lit], hints: &[u64]) -> Result<Vec<u8>, AllocError>
    ensures { IfOk result (λ text. text.items ≡ derive_line clause.now hints.now) }
{
    end_line(write_derive(alloc, clause, hints)?)
}

/// The line that forgets a clause.
fn forget_text(alloc: Global, id: u64) -> Result<Vec<u8>, AllocError>
    ensures { IfOk result (λ text. text.items ≡ forget_line id) }
{
    let mut line = Vec::from_slice(alloc, b"x ")?;
    put_number(&mut line, id)?;
    line.extend_from_slice(b" 0")?;
    end_line(line)
}

/// The line that comes with a clause, if it has any bytes.
fn added_text(alloc: Global, line: &[u8]) -> Result<Vec<u8>, AllocError>
    ensures { IfOk result (λ text. text.items ≡ added_line line.now) }
{
    let text = Vec::from_slice(alloc, line)?;
    if line.is_empty() {
        return Ok(text);
    }
    end_line(text)
}

impl Recorder for Text {
    ghost limit = { λ t. Some t.limit };

    ghost count = { λ t. t.count };

    ghost text = { λ t. t.bytes.items };

    fn add(&mut self, line: &[u8]) -> Result<(), RecordFault> {
        let next = self.next()?;
        let Ok(text) = added_text(self.alloc, line) else {
            return Err(RecordFault::Memory);
        };
        self.put(&text)?;
        self.count = next;
        Ok(())
    }

    fn skip(&mut self, clauses: u64) -> Result<(), AllocError> {
        if GREATEST - self.count < clauses {
            return Err(AllocError);
        }
        self.count += clauses;
        Ok(())
    }

    fn derive(&mut self, clause: &[Lit], hints: &[u64]) -> Result<(), RecordFault> {
        let next = self.next()?;
        let Ok(text) = derive_text(self.alloc, clause, hints) else {
            return Err(RecordFault::Memory);
        };
        self.put(&text)?;
        self.count = next;
        Ok(())
    }

    fn forget(&mut self, id: u64) -> Result<(), RecordFault> {
        let Ok(text) = forget_text(self.alloc, id) else {
            return Err(RecordFault::Memory);
        };
        self.put(&text)
    }

    fn room(&self, next: u64) -> bool {
        next <= self.limit - self.bytes.len() as u64
    }
}
