//! What runs need of each train, worked out once.
#![tactic(auto)]

mod dwells;
mod grants;
mod itineraries;
mod journey;
mod journeys;
pub mod laws;
mod milestones;
mod missed;
mod motor;
mod path_nodes;
mod planned;
mod prefixes;
mod spans;
mod stops;
mod train_path;
mod train_paths;
mod waits;

pub use dwells::Dwell;
pub use grants::{IDLE, granted_on, state_of};
pub use itineraries::Itineraries;
pub use journey::{Hold, Journey, Release};
pub use journeys::PlannedJourneys;
pub use milestones::Milestone;
pub use motor::motor_of;
pub use path_nodes::{path_nodes_of, visits_of};
pub use planned::PlannedTrainPaths;
pub use prefixes::PathPrefix;
pub use spans::spans_of;
pub use stops::stood_after;
pub use train_path::TrainPath;
pub use train_paths::TrainPaths;
pub use waits::{Wait, push_wait};
