//! The clauses that every plan of a design makes true, with the numbers of their variables.
#![tactic(auto)]

mod apart;
mod encoder;
mod exact;
mod excluded;
mod families;
mod kept;
mod links;
mod literals;
mod make;
mod network;
mod normal;
mod numbering;
mod orders;
mod pair;
mod relations;
mod releases;
mod rivals;
mod selectors;
mod sink;
mod starts;
mod stays;
mod tables;
mod turns;
mod visit;
mod visits;
mod wait;
mod waits;

pub use make::{base, base_of, extended};
pub use numbering::{Base, Numbering};
pub use sink::BaseFault;
