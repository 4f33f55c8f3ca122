/// Whether a clause follows by its hints, or why they don't show it.
#[derive(Clone, Copy, PartialEq, Eq, Debug)]
pub enum Follow {
    /// With all literals of the clause false, the hints lead to a clause that is false.
    Yes,
    /// A hint in turn names no live clause.
    UnknownClause,
    /// A hint before the last names a clause that leaves more or less than one literal open.
    NotUnit,
    /// The last hint names a clause that isn't false, or there is no hint.
    NoConflict,
}
