//! What `rcv_draw` does: from the words of a command line, over a shelf of files, to the drawing that is printed, or to
//! what `rcv` answers where it refuses a file.
#![tactic(auto)]

mod drawn;
mod laws;
mod run;
mod wanted;

pub use laws::{
    draws_where_routes_are_listed, draws_where_there_is_a_verdict, names_are_drawn,
    refuses_as_routes, refuses_as_simulate, silence_is_usage,
};
pub use run::run_draw;
