//! What bounds are sought with.

use bound_chains::search::ChainSearch;

/// What the bounds of a plan are sought with: the search for the chains that are widened to bounds.
#[derive(Drop)]
pub(crate) struct BoundSearch<'a> {
    pub chains: ChainSearch<'a>,
}
