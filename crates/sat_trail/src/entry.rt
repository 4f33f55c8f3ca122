use sat_clause::Lit;

/// A clause in the list of a literal that watches it, with one of its literals. Where that one is true the clause needs
/// no look.
#[derive(Clone, Copy)]
pub struct Entry {
    /// The number of the clause.
    pub id: u64,
    /// One of its literals.
    pub blocker: Lit,
}
