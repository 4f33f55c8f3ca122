//! What cones mean, in sentences with the names of the design. A route is named by where it starts and ends, with its
//! number behind. Each sentence begins with the number of a file's line, and ends with an LF. Wherever a call answers
//! with an error, it is want of memory.
#![tactic(auto)]

mod cones;
mod entries;
mod laws;
mod phrases;
mod routes;
mod sentences;
mod stops;
mod times;

pub use cones::{push_cone, push_opening, push_parts};
pub use entries::{order_of, within_of};
pub use laws::sentences_of_cones_deny;
pub use phrases::{most_ticks, put_makes, put_nodes, put_own_shared};
pub use routes::{finish_name, put_any_route, put_route};
pub use sentences::push_sentence;
pub use times::{ms_of, put_tick, put_ticks};
