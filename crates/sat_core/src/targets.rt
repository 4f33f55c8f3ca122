use sat_trail::Step;
use std::alloc::{AllocError, Global};

/// The values of the longest row of steps that led to no false clause, by their variables. Decisions follow them half
/// of the time, and from time to time they are looked for anew. None of this changes what a decision may be.
#[derive(Drop)]
pub struct Targets {
    values: Vec<Option<bool>>,
    longest: usize,
    lines: u64,
    turns: u64,
}

/// After how many lines the values are first looked for anew.
const FIRST: u64 = 1000;

impl Targets {
    /// No values yet.
    pub fn new(alloc: Global, vars: u32) -> Result<Targets, AllocError> {
        let size = vars as usize + 1;
        Ok(Targets {
            values: vec![in alloc; None; size]?,
            longest: 0,
            lines: 0,
            turns: 0,
        })
    }

    /// The value that a decision of a variable follows, where there is one. Every other time, no value is followed.
    pub fn value(&self, place: usize) -> Option<bool> {
        if self.turns % 2 == 1 {
            return None;
        }
        self.longest_value(place)
    }

    /// Takes over the values of the steps below the last level, where there are more than ever.
    pub fn remember(&mut self, steps: &[Step]) {
        let Some(last) = steps.last() else {
            return;
        };
        let mut count = steps.len();
        while count > 0 {
            if steps[count - 1].level != last.level {
                self.take(&steps[..count]);
                return;
            }
            count -= 1;
        }
    }

    /// Counts a line, after which the values may be looked for anew. The phases begin as they were, all false or the
    /// other way round.
    pub fn count_line(&mut self, phases: &mut Vec<bool>) {
        self.lines = self.lines.saturating_add(1);
        if self.lines < FIRST.saturating_mul(self.turns.saturating_add(1)) {
            return;
        }
        self.lines = 0;
        let turn = self.turns % 4;
        for (place, phase) in phases.iter_mut().enumerate() {
            *phase = match turn {
                1 => false,
                3 => !*phase,
                _ => self.longest_value(place).unwrap_or(*phase),
            };
        }
        self.turns = self.turns.saturating_add(1);
        self.longest = 0;
        for value in self.values.iter_mut() {
            *value = None;
        }
    }

    /// The value of a variable in the longest row of steps, where it has one.
    fn longest_value(&self, place: usize) -> Option<bool> {
        match self.values.get(place) {
            Some(value) => *value,
            None => None,
        }
    }

    /// Takes over the values of these steps, where there are more than ever.
    fn take(&mut self, steps: &[Step]) {
        if steps.len() <= self.longest {
            return;
        }
        self.longest = steps.len();
        for step in steps {
            let place = step.lit.var as usize;
            if place < self.values.len() {
                self.values[place] = Some(!step.lit.negated);
            }
        }
    }
}
