//! Lines, and why bytes are none.

use bound_spec::Evidence;
use rail_base::list::List;
use sat_clause::Lit;

/// A line of a proof file.
#[derive(Drop)]
pub enum Line {
    /// A clause that follows from the clauses of these numbers, taken in order.
    Derive { clause: List<Lit>, hints: List<u64> },
    /// The clause that a cone or a bound shows.
    Refute { evidence: Evidence },
    /// Clauses that are taken out.
    Forget { clauses: List<u64> },
}

/// Why no line was read.
#[derive(Clone, Copy, PartialEq, Eq, Debug)]
pub enum LineFault {
    /// The bytes spell no line.
    Text,
    /// Memory ran out.
    Memory,
}
