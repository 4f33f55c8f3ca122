ghost use Rattle.std.specs.Prelude.{◌≡◌, ◌+◌, ◌-◌, ◌≤◌, ◌<◌, ◌↔◌, IsTrue, IsSome, IfOk, OnErr, Some, [], ◌∷◌, ◌++◌};
ghost use Rattle.std.specs.Prelude.{length, take, true, slice_range};
ghost use Rattle.sat_clause.specs.Clauses.{live_clause, without};
ghost use Rattle.sat_clause.specs.Layout.{begin_at};

use crate::lit::Lit;
use std::alloc::{AllocError, Global};
use std::marker::Model;

/// Clauses in a row, known by their numbers 1, 2, and so on. Each is live until it is forgotten.
#[derive(Drop)]
pub struct Arena {
    lits: Vec<Lit>,
    /// Where each clause ends among all literals, which are fewer than 2^32. It begins where the one before ends.
    ends: Vec<u32>,
    /// Whether it is live.
    marks: Vec<bool>,
}

impl Model for Arena {
    ghost use Rattle.sat_clause.specs.Clauses.{Store};

    ghost Value = { Store };

    ghost use Rattle.sat_clause.specs.Layout.{clauses_of, heads_of, IsLaidOut};

    ghost view = { λ a. clauses_of a.lits.items (heads_of 0 a.ends.items a.marks.items) };

    ghost invariant = { λ a. IsLaidOut a.lits.items a.ends.items a.marks.items };
}

impl Arena {
    /// No clause. What is pushed later takes its memory from `alloc`.
    pub fn new(alloc: Global) -> Arena
        ensures { result ≡ [] }
    {
        Arena {
            lits: Vec::new(alloc),
            ends: Vec::new(alloc),
            marks: Vec::new(alloc),
        }
    }

    /// No clause, and memory for so many clauses that have so many literals in all.
    ///
    /// # Errors
    ///
    /// Want of memory alone.
    pub fn with_room(alloc: Global, clauses: usize, literals: usize) -> Result<Arena, AllocError>
        ensures { IfOk result (λ arena. arena ≡ []) }
    {
        Ok(Arena {
            lits: Vec::with_capacity(alloc, literals)?,
            ends: Vec::with_capacity(alloc, clauses)?,
            marks: Vec::with_capacity(alloc, clauses)?,
        })
    }

    /// How many clauses there are, live or forgotten. It is the number of the last one.
    pub fn count(&self) -> u64
        ensures { result ≡ length self.now }
    {
        self.ends.len() as u64
    }

    /// Puts a clause at the end, live, and gives its number. Where there is no memory nothing changes.
    ///
    /// # Errors
    ///
    /// Want of memory alone, of which there is never enough for 2^32 literals or more in all.
    pub fn push(&mut self, clause: &[Lit]) -> Result<u64, AllocError>
        ensures ok { IfOk result (λ id.
            (id ≡ length self.new) × (self.new ≡ self.old ++ (clause.now, true) ∷ [])) }
        ensures err { OnErr result (self.new ≡ self.old) }
    {
        let start = self.lits.len();
        let place = self.ends.len();
        let end = end_after(start, clause.len())?;
        self.lits.extend_from_slice(clause)?;
        if self.ends.push(end).is_err() {
            self.lits.truncate(start);
            return Err(AllocError);
        }
        if self.marks.push(true).is_err() {
            self.ends.truncate(place);
            self.lits.truncate(start);
            return Err(AllocError);
        }
        Ok(self.ends.len() as u64)
    }

    /// Whether there is a clause of this number that isn't forgotten.
    pub fn live(&self, id: u64) -> bool
        ensures { IsTrue result ↔ IsSome (live_clause self.now id) }
    {
        if id == 0 || id > self.marks.len() as u64 {
            return false;
        }
        self.marks[id as usize - 1]
    }

    /// The literals of a live clause, lent as they were pushed.
    pub fn clause(&self, id: u64) -> &[Lit]
        requires { IsSome (live_clause self.now id) }
        ensures { live_clause self.now id ≡ Some result.now }
    {
        let place = id as usize - 1;
        let start = begin(&self.ends, place);
        let end = self.ends[place] as usize;
        part(&self.lits, start, end)
    }

    /// Makes a live clause forgotten. The other clauses and all numbers stay as they are.
    pub fn forget(&mut self, id: u64)
        requires { IsSome (live_clause self.old id) }
        ensures { self.new ≡ without self.old id }
    {
        self.marks[id as usize - 1] = false;
    }

    /// Takes the last clause off, live or forgotten. There has to be one.
    pub fn pop(&mut self)
        requires { 0 < length self.old }
        ensures { self.new ≡ take (length self.old - 1) self.old }
    {
        let place = self.ends.len() - 1;
        let start = begin(&self.ends, place);
        self.marks.truncate(place);
        self.ends.truncate(place);
        self.lits.truncate(start);
    }
}

/// The literals from one place up to another.
fn part(lits: &[Lit], start: usize, end: usize) -> &[Lit]
    requires ordered { start ≤ end }
    requires within { end ≤ length lits.now }
    ensures { result.now ≡ slice_range lits.now start end }
{
    &lits[start..end]
}

/// Where the clause at a place begins, by where the clauses end.
fn begin(ends: &[u32], place: usize) -> usize
    requires { place ≤ length ends.now }
    ensures { result ≡ begin_at 0 ends.now place }
{
    if place == 0 {
        return 0;
    }
    ends[place - 1] as usize
}

/// Where a clause of so many literals ends that begins at a place, if that is below 2^32.
fn end_after(start: usize, literals: usize) -> Result<u32, AllocError>
    ensures { IfOk result (λ end. end ≡ start + literals) }
{
    match start.checked_add(literals).map(u32::try_from) {
        Some(Ok(end)) => Ok(end),
        _ => Err(AllocError),
    }
}
