//! Places in plans.

use rail_base::station::{SectionNo, TrainNo};

/// A place in a plan. Steps, and commands of a step, are counted from 1.
#[derive(Clone, Copy, Debug, PartialEq, Eq)]
pub enum PlanPlace {
    /// The file as a whole.
    File,
    /// A command, by its place in the text.
    Command {
        step: usize,
        command: usize,
    },
    /// A train's command in a step.
    Train {
        step: usize,
        train: TrainNo,
    },
    /// A step.
    Step {
        step: usize,
    },
    /// A section over which a train's command in a step can't be given.
    Section {
        step: usize,
        train: TrainNo,
        section: SectionNo,
    },
}
