//! Where places in order are drawn.

use std::alloc::{AllocError, Global};

/// How a length of track becomes a length in a drawing.
#[derive(Clone, Copy, Debug, PartialEq, Eq)]
pub struct Spread {
    /// Where the first level lies, in px.
    pub first: u64,
    /// The least length between two levels, in px.
    pub least: u64,
    /// The mm for which there is one px more.
    pub mm_per_px: u64,
    /// The most that is added for the length of the track, in px.
    pub most: u64,
}

/// Where each level is drawn, in px. The error is want of memory.
pub fn drawn_levels(alloc: Global, levels: &[u64], how: Spread) -> Result<Vec<u64>, AllocError> {
    let mut drawn = Vec::new(alloc);
    let mut at_px = how.first;
    let mut before = None;
    for level in levels {
        if let Some(before) = before {
            at_px = at_px.saturating_add(gap(level.saturating_sub(before), how));
        }
        drawn.push(at_px)?;
        before = Some(*level);
    }
    Ok(drawn)
}

/// How far a level is drawn from the one before it, in px.
fn gap(length: u64, how: Spread) -> u64 {
    let more = length / how.mm_per_px.max(1);
    how.least.saturating_add(more.min(how.most))
}
