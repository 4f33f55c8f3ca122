//! How a run of the program ends.

ghost use Rattle.std.specs.Prelude.{◌≡◌, [], ◌∷◌, map};
ghost use Rattle.cli_shell.specs.Statuses.{code_of};

/// How a run of the program ends.
#[derive(Clone, Copy, Debug, PartialEq, Eq)]
pub enum Status {
    /// The answer is yes: the plan meets the design, a plan is found, the file shows that there is none, or the routes
    /// are listed.
    Done,
    /// The answer is no: the plan fails, there is no plan, or the file does not show that.
    No,
    /// The words of the command line ask for nothing.
    Usage,
    /// The design is refused.
    DesignRefused,
    /// The plan is refused.
    PlanRefused,
    /// A search derived as many clauses as were allowed.
    ConflictsSpent,
    /// Memory ran out.
    Memory,
    /// A file could not be fetched or stored.
    ShelfFault,
    /// The text could not be printed.
    SinkFault,
    /// A search found a plan that takes more ticks than are left.
    TicksSpent,
    /// A search found no room for the next line of its log.
    LogSpent,
    /// A file is longer than its limit.
    TooLong,
}

impl Status {
    /// Every status, by its number.
    pub fn all() -> [Status; 12]
        ensures { map code_of result ≡ 0 ∷ 1 ∷ 2 ∷ 3 ∷ 4 ∷ 5 ∷ 6 ∷ 7 ∷ 8 ∷ 9 ∷ 10 ∷ 11 ∷ [] }
    {
        [
            Status::Done,
            Status::No,
            Status::Usage,
            Status::DesignRefused,
            Status::PlanRefused,
            Status::ConflictsSpent,
            Status::Memory,
            Status::ShelfFault,
            Status::SinkFault,
            Status::TicksSpent,
            Status::LogSpent,
            Status::TooLong,
        ]
    }

    /// The number with which the program ends.
    pub fn code(self) -> u8
        ensures { result ≡ code_of self }
    {
        match self {
            Status::Done => 0,
            Status::No => 1,
            Status::Usage => 2,
            Status::DesignRefused => 3,
            Status::PlanRefused => 4,
            Status::ConflictsSpent => 5,
            Status::Memory => 6,
            Status::ShelfFault => 7,
            Status::SinkFault => 8,
            Status::TicksSpent => 9,
            Status::LogSpent => 10,
            Status::TooLong => 11,
        }
    }
}
