//! What is asked where less and less time is looked for.

ghost use Rattle.std.specs.Prelude.{◌≤◌};

use crate::outcome::{Budgets, Tried};
use clause_spec::BaseKind;
use interlocking::Interlocking;
use plan_encoding::Numbering;
use rail_base::history::Verdict;
use std::alloc::Global;

/// What is asked for, and what came of it so far.
#[derive(Drop)]
pub(crate) struct Asked {
    /// Its design allows so many ticks.
    pub interlocking: Interlocking,
    pub ticks: u64,
    /// The plans that were run with more.
    pub tried: Vec<Tried>,
    /// What the run of the last of them showed, which met its design; none where there is none.
    pub shown: Option<Verdict>,
}

/// What is searched, and what may be spent.
#[derive(Clone, Copy)]
pub(crate) struct TimeSearch<'a> {
    pub alloc: Global,
    pub numbering: &'a Numbering,
    pub base: BaseKind,
    /// The within, from 1 on.
    pub within: u32,
    pub budgets: Budgets,
    pub ghost at_least_one: { 1 ≤ numbering.now.steps },
    pub ghost at_most_256: { numbering.now.steps ≤ 256 },
}
