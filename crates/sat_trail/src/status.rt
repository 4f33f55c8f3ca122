use sat_clause::Lit;

/// What is left of a clause: none of its literals, one that has no value, or neither.
pub enum ClauseStatus {
    /// A literal is true, or two of them have no value.
    Inactive,
    /// This one has no value, and all others are false.
    Unit(Lit),
    /// All literals are false.
    False,
}

/// What a search of the attached clauses found.
pub enum Propagation {
    /// Each clause is quiet.
    Closed,
    /// The clause of this number is false.
    Conflict(u64),
    /// The clause of this number leaves this literal.
    Unit(Lit, u64),
}

/// What a look at a clause says, for a literal that has become false.
pub enum Visit {
    /// The clause isn't watched by the literal.
    Gone,
    /// The literal that the list names beside it is true.
    Blocked,
    /// This one of its literals is true.
    Kept(Lit),
    /// All its literals are false.
    False,
}
