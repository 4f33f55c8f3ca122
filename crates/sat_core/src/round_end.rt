use crate::assignment::Assignment;
use sat_trail::Learnt;

/// What one round finds.
pub enum RoundEnd {
    /// Values under which all clauses and assumptions are true.
    Model(Assignment),
    /// A clause of negated assumptions that follows.
    Final(Learnt),
    /// A new clause that follows.
    New(Learnt),
}
