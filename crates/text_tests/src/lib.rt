//! Tests of texts, files, proofs and the solver by the public calls of crates.
#![tactic(auto)]

#[cfg(test)]
mod files;
#[cfg(test)]
mod proof_lines;
#[cfg(test)]
mod shelves;
#[cfg(test)]
mod solver;
#[cfg(test)]
mod texts;
#[cfg(test)]
mod trails;
