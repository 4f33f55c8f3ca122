use sat_clause::Arena;
use std::alloc::{AllocError, Global};

/// A derived clause that may be forgotten: the greater it is, the less it is worth.
#[derive(Clone, Copy, PartialEq, Eq, PartialOrd, Ord)]
struct Candidate {
    levels: u32,
    length: usize,
    age: usize,
    place: usize,
}

/// How many levels the literals of each derived clause had when it was derived. None of this changes what may be
/// forgotten.
#[derive(Drop)]
pub struct Spans {
    levels: Vec<u32>,
}

impl Spans {
    /// No clause yet.
    pub fn new(alloc: Global) -> Spans {
        Spans {
            levels: Vec::new(alloc),
        }
    }

    /// Remembers the levels of the derived clause at a place. Where there is no memory it does not.
    pub fn note(&mut self, place: usize, levels: u32) {
        self.levels.truncate(place);
        if self.levels.len() == place {
            let _noted = self.levels.push(levels).is_ok();
        }
    }

    /// The places of those of these clauses that are live. Those of most levels come first, of these the longest, and
    /// of these the oldest.
    pub fn least_worth(
        &self,
        alloc: Global,
        arena: &Arena,
        ids: &[u64],
    ) -> Result<Vec<usize>, AllocError> {
        let mut found = Vec::new(alloc);
        for (place, id) in ids.iter().enumerate() {
            if arena.live(*id) {
                found.push(Candidate {
                    levels: self.levels(place),
                    length: arena.clause(*id).len(),
                    age: usize::MAX - place,
                    place,
                })?;
            }
        }
        found.sort()?;
        let mut places = Vec::new(alloc);
        for candidate in found.iter().rev() {
            places.push(candidate.place)?;
        }
        Ok(places)
    }

    /// The levels of the derived clause at a place, or 0 where they are not known.
    fn levels(&self, place: usize) -> u32 {
        match self.levels.get(place) {
            Some(levels) => *levels,
            None => 0,
        }
    }
}
