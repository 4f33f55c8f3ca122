//! How a search for the least time of a within ends.

use crate::outcome::Tried;
use interlocking::Interlocking;
use rail_base::history::Verdict;
use rail_base::plan::Plan;
use sat_clause::Lit;

/// How a search for the least time between the two visits of a within ends, for plans of at most n steps.
#[derive(Drop)]
pub enum Tightest {
    /// The plan is feasible where the within allows so many ticks, and none is with less time.
    Least {
        /// Its design allows so many ticks.
        interlocking: Interlocking,
        /// The least that the within can allow, in ticks.
        ticks: u64,
        /// It need not be one of the fewest steps.
        plan: Plan,
        /// What the plan's run shows: it is met.
        verdict: Verdict,
        /// A proof file that shows that with one tick less no plan of n steps is feasible; none where there is no less.
        log: Option<Vec<u8>>,
    },
    /// With any time for the within no plan of n steps is feasible. The log is a proof file that shows it for as many
    /// ticks as are run.
    Infeasible {
        log: Vec<u8>,
    },
    /// As many clauses were derived as were allowed; their lines are the log. This is the next one.
    ConflictsSpent {
        log: Vec<u8>,
        /// The literals, in increasing order of their variables.
        clause: Vec<Lit>,
        /// The numbers of the clauses by which it follows.
        hints: Vec<u64>,
        /// How many ticks were asked for last.
        ticks: u64,
        /// The plans that were run.
        tried: Vec<Tried>,
    },
    /// The plan at hand can be carried out, and the ticks that it would take are more than are left.
    TicksSpent {
        /// How many ticks the plans took that were run.
        sum: u64,
        at_hand: Plan,
        /// How many ticks were asked for last.
        ticks: u64,
        /// The plans that were run.
        tried: Vec<Tried>,
    },
    /// The next line of the log would pass its limit.
    LogSpent {
        log: Vec<u8>,
        /// The bytes of the log.
        bytes: u64,
        /// The bytes of the next line, with its end.
        next: u64,
        /// How many ticks were asked for last.
        ticks: u64,
        /// The plans that were run.
        tried: Vec<Tried>,
    },
    /// The clauses with which the search begins have more than 16,000,000 literals: so many up to the first clause that
    /// is too much.
    TooLarge {
        literals: u64,
    },
    /// There was no memory.
    Memory,
}
