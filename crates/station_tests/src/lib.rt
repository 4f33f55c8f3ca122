//! Tests of small stations by the public calls of crates. They stand apart, since beside its tests a crate is proved once
//! more.
#![tactic(auto)]

#[cfg(test)]
mod alike;
#[cfg(test)]
mod cones;
#[cfg(test)]
mod line;
#[cfg(test)]
mod on_a_line;
#[cfg(test)]
mod stations;
#[cfg(test)]
mod ways;
