//! What bytes spell, a design and a plan of it, and what the words of a plain command line are: short definitions for
//! who reads a promise, which say nothing of refusals. What the readers of files do not refuse is spelled by the bytes,
//! and nothing else is.
#![tactic(auto)]

pub mod laws;
