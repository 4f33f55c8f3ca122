//! What is asked of a design, and by which clauses.

/// Which trains that are alike come in turn, where live commands alone are searched.
#[derive(Clone, Copy, PartialEq, Eq, Debug)]
pub enum Turns {
    /// All of them.
    All,
    /// Those that the within of this number, from 1 on, doesn't name.
    Beside { within: u64 },
}

/// Which clauses are put to the solver.
#[derive(Clone, Copy, PartialEq, Eq, Debug)]
pub enum BaseKind {
    /// Those that each plan makes true.
    Plain,
    /// Those, and that trains that are alike come in turn.
    Sorted,
    /// Those, and that no command could be given a step earlier.
    Normal,
    /// Those, and that these trains that are alike come in turn, with the variables of commands that aren't live taken
    /// for false.
    Live(Turns),
}

/// Whether designs of a version have a plan of at most so many steps, asked by the clauses of a base.
#[derive(Clone, Copy, PartialEq, Eq, Debug)]
pub struct Question {
    pub version: u64,
    pub steps: u64,
    pub base: BaseKind,
}

/// How many variables a base has, how many of them come before those that all is given by a step, and how many steps
/// there are.
#[derive(Clone, Copy, PartialEq, Eq, Debug)]
pub struct VariableCounts {
    pub count: u32,
    pub before_selectors: u32,
    pub steps: u32,
}
