//! The text of what a run shows: how it ends, and what happened to each train with the ticks.
#![tactic(auto)]

mod ending;
mod events;
mod text;
mod trains;

pub use text::timetable_lines;
