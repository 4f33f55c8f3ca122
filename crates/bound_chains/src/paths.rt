//! The commands of a plan by trains.

ghost use Rattle.std.specs.Prelude.{◌≡◌, ◌+◌};

use crate::known::count_trains;
use interlocking::Interlocking;
use rail_base::plan::{Command, Plan};
use rail_base::route::RouteNo;
use rail_base::station::TrainNo;
use std::alloc::{AllocError, Global};

/// A command of a plan, and where it stands.
#[derive(Clone, Copy)]
pub struct Given {
    pub command: Command,
    /// Its step, counted from 0.
    pub step: usize,
    /// The place of its train's first command among all, and of what follows the last.
    pub(crate) first: usize,
    pub(crate) end: usize,
}

/// Some commands in a row of one train, from the first to the last, by their places among all.
#[derive(Clone, Copy)]
pub struct Span {
    pub first: usize,
    pub last: usize,
}

/// The commands of a plan, train by train, those of a train in the order of its path.
#[derive(Drop)]
pub struct Paths {
    pub given: Vec<Given>,
    /// Their routes.
    pub routes: Vec<RouteNo>,
    /// Where the commands of each train begin and end.
    pub(crate) spans: Vec<(usize, usize)>,
}

impl Paths {
    ghost use Rattle.bound_chains.specs.Paths.{commands_of, part_of, span_of, step_of};

    /// The commands of a plan for the trains of a design.
    ///
    /// # Errors
    ///
    /// Want of memory alone.
    pub fn of(
        alloc: Global,
        interlocking: &Interlocking,
        plan: &Plan,
    ) -> Result<Paths, AllocError> {
        let mut paths = Paths {
            given: Vec::new(alloc),
            routes: Vec::new(alloc),
            spans: Vec::new(alloc),
        };
        for number in 1..count_trains(interlocking) + 1 {
            paths.add_train(plan, TrainNo(number))?;
        }
        Ok(paths)
    }

    /// Where the commands of a train begin and end, by their places among all.
    pub fn span(&self, train: TrainNo) -> (usize, usize)
        ensures { result ≡ span_of self.now train }
    {
        if train.0 == 0 {
            return (0, 0);
        }
        match self.spans.get(train.0 as usize - 1) {
            Some(span) => *span,
            None => (0, 0),
        }
    }

    /// The routes of some commands in a row; none where the plan has not so many commands.
    pub fn walk(&self, span: Span) -> &[RouteNo]
        ensures { result.now ≡ part_of self.now.routes.items span.first (span.last + 1) }
    {
        if span.last < span.first || self.routes.len() <= span.last {
            return &[];
        }
        &self.routes.as_slice()[span.first..span.last + 1]
    }

    /// The commands of a train.
    pub fn commands(&self, train: TrainNo) -> &[Given]
        ensures { result.now ≡ commands_of self.now train }
    {
        let (first, end) = self.span(train);
        if end < first || self.given.len() < end {
            return &[];
        }
        &self.given.as_slice()[first..end]
    }

    /// The step in which a command stands, counted from 0, if it stands in one.
    pub fn step(&self, command: Command) -> Option<usize>
        ensures { result ≡ step_of self.now command }
    {
        for given in self.commands(command.train) {
            if given.command.route == command.route {
                return Some(given.step);
            }
        }
        None
    }

    /// Adds the commands of a train.
    fn add_train(&mut self, plan: &Plan, train: TrainNo) -> Result<(), AllocError> {
        let first = self.given.len();
        for (step, commands) in plan.steps.as_slice().iter().enumerate() {
            for command in commands.as_slice() {
                if command.train == train {
                    self.given.push(Given {
                        command: *command,
                        step,
                        first,
                        end: first,
                    })?;
                    self.routes.push(command.route)?;
                }
            }
        }
        let end = self.given.len();
        for given in self.given.as_mut_slice() {
            if given.first == first {
                given.end = end;
            }
        }
        self.spans.push((first, end))?;
        Ok(())
    }
}
