ghost use Rattle.std.specs.Prelude.{◌≡◌, ◌+◌, ◌++◌, [], IfOk, IfErr, OnOk, OnErr, None, flat_map};
ghost use Rattle.sat_core.specs.declared.recorder.RecordFault.TheVariants.{Memory};
ghost use Rattle.sat_core.specs.Texts.{derive_line, added_line};

use crate::recorder::{RecordFault, Recorder};
use sat_clause::Lit;
use std::alloc::{AllocError, Global};

/// A line that was recorded.
#[derive(Drop)]
pub enum Line {
    /// The bytes that came with a clause.
    Added(Vec<u8>),
    /// A derived clause and the hints by which it follows.
    Derived {
        /// The literals, in increasing order of their variables.
        clause: Vec<Lit>,
        /// The numbers of the clauses by which it follows.
        hints: Vec<u64>,
    },
    /// The number of a clause that was forgotten.
    Forgot(u64),
}

/// Counts the clauses and keeps the lines, without a limit.
#[derive(Drop)]
pub struct ListRecorder {
    alloc: Global,
    count: u64,
    lines: Vec<Line>,
}

impl ListRecorder {
    /// No clause and no line.
    pub fn new(alloc: Global) -> ListRecorder
        ensures count { result.count ≡ 0 }
        ensures lines { result.lines.items ≡ [] }
    {
        ListRecorder {
            alloc,
            count: 0,
            lines: Vec::new(alloc),
        }
    }

    /// The lines in order.
    pub fn lines(&self) -> &[Line]
        ensures { result.now ≡ self.now.lines.items }
    {
        &self.lines
    }

    /// The number of the next clause. There is no memory for more than 64 bits can count.
    fn next(&self) -> Result<u64, RecordFault>
        ensures next { IfOk result (λ n. n ≡ self.now.count + 1) }
        ensures memory { IfErr result (λ f. f ≡ Memory) }
    {
        match self.count.checked_add(1) {
            Some(next) => Ok(next),
            None => Err(RecordFault::Memory),
        }
    }
}

ghost use Rattle.sat_core.specs.Listing.{text_of_line};

/// The line of a derived clause.
fn derived_line(alloc: Global, clause: &[Lit], hints: &[u64]) -> Result<Line, RecordFault>
    ensures line { IfOk result (λ l. text_of_line l ≡ derive_line clause.now hints.now) }
    ensures memory { IfErr result (λ f. f ≡ Memory) }
{
    let Ok(clause) = Vec::from_slice(alloc, clause) else {
        return Err(RecordFault::Memory);
    };
    let Ok(hints) = Vec::from_slice(alloc, hints) else {
        return Err(RecordFault::Memory);
    };
    Ok(Line::Derived { clause, hints })
}

/// Puts a copy of the bytes at the end of the lines, if there are any.
fn put_bytes(alloc: Global, lines: &mut Vec<Line>, bytes: &[u8]) -> Result<(), RecordFault>
    ensures line { OnOk result (flat_map text_of_line lines.new.items
        ≡ flat_map text_of_line lines.old.items ++ added_line bytes.now) }
    ensures err { OnErr result (lines.new.items ≡ lines.old.items) }
    ensures memory { IfErr result (λ f. f ≡ Memory) }
{
    if bytes.is_empty() {
        return Ok(());
    }
    let Ok(copy) = Vec::from_slice(alloc, bytes) else {
        return Err(RecordFault::Memory);
    };
    if lines.push(Line::Added(copy)).is_err() {
        return Err(RecordFault::Memory);
    }
    Ok(())
}

impl Recorder for ListRecorder {
    ghost limit = { λ s. None };

    ghost count = { λ s. s.count };

    ghost text = { λ s. flat_map text_of_line s.lines.items };

    fn add(&mut self, line: &[u8]) -> Result<(), RecordFault> {
        let next = self.next()?;
        if put_bytes(self.alloc, &mut self.lines, line).is_err() {
            return Err(RecordFault::Memory);
        }
        self.count = next;
        Ok(())
    }

    fn skip(&mut self, clauses: u64) -> Result<(), AllocError> {
        match self.count.checked_add(clauses) {
            Some(count) => {
                self.count = count;
                Ok(())
            }
            None => Err(AllocError),
        }
    }

    fn derive(&mut self, clause: &[Lit], hints: &[u64]) -> Result<(), RecordFault> {
        let next = self.next()?;
        let line = derived_line(self.alloc, clause, hints)?;
        if self.lines.push(line).is_err() {
            return Err(RecordFault::Memory);
        }
        self.count = next;
        Ok(())
    }

    fn forget(&mut self, id: u64) -> Result<(), RecordFault> {
        if self.lines.push(Line::Forgot(id)).is_err() {
            return Err(RecordFault::Memory);
        }
        Ok(())
    }

    fn room(&self, _next: u64) -> bool {
        true
    }
}
