//! What the programs share, above the definitions and below any search: the reading of files, the replies to a
//! simulation and to a request for routes, refusals, and the printing of a reply.
#![tactic(auto)]

mod ending;
mod input;
mod listing;
mod printing;
mod reading;
mod refusals;
mod reply;
mod simulation;
mod status;
mod texts;

pub use ending::Ending;
pub use input::InputFile;
pub use listing::routes_reply;
pub use printing::print;
pub use reading::{admit, admit_design, admit_within, fetch, interlock};
pub use refusals::{
    design_refused, ending_of, no_within, one_line, plan_refused, too_large, too_long, usage,
};
pub use reply::Reply;
pub use simulation::{read_steps, simulation_reply};
pub use status::Status;
pub use texts::{counted_line, plan_line};
