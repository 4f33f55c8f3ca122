//! What `rcv_design` does: from the words of a command line, over a shelf of files, to the design or the plan that is
//! printed, or to what `rcv` answers where it refuses a file.
#![tactic(auto)]

mod laws;
mod plans;
mod printing;
mod replies;
mod run;
mod wanted;

pub use laws::{
    goes_there_and_back, plans_refuse_as_simulate, prints_plans_where_there_is_a_verdict,
    prints_where_routes_are_listed, refuses_as_routes,
};
pub use run::run_design;
