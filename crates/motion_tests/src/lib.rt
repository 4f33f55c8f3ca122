//! Tests of one train's motion by the public calls of crates.
#![tactic(auto)]

#[cfg(test)]
mod leaps;
#[cfg(test)]
mod motion;
