//! Where the least limit of the next spans is.

ghost use Rattle.std.specs.Prelude.{◌≡◌, ◌<◌, ◌≤◌, ◌+◌, ℕ, length};
ghost use Rattle.rail_motion.specs.declared.Span.{Span};
ghost use Rattle.rail_motion.specs.Track.{stretches_of, IsRising, IsSlowestOfBlock, LeastAhead, NoneSlower};
ghost use Rattle.rail_motion.specs.Track.{AreMarkedSlowest};

use crate::Span;

/// How many spans make a block.
const BLOCK: usize = 32;

/// Notes for each span in how many spans the slowest is of those after it up to the end of its block, the last where
/// several are, so that others need not be looked at for a speed that it allows. Ends and limits stay as they are, and
/// where the limit is lower.
pub fn mark_least(spans: &mut [Span])
    ensures track { stretches_of spans.new ≡ stretches_of spans.old }
    ensures slowest { AreMarkedSlowest spans.new }
    ensures least { LeastAhead spans.new }
    ensures none_slower { NoneSlower spans.old → NoneSlower spans.new }
    ensures rising { IsRising spans.old → IsRising spans.new }
{
    let mut left = spans.len();
    let mut slowest = left;
    while left > 0 {
        left -= 1;
        spans[left] = spans[left].with_least_in(slowest - left);
        slowest = slowest_before(spans, left, slowest);
    }
}

/// The slowest of its block after the span before this one: this, where the block ends at it or it is slower than the
/// slowest after it, or else that.
fn slowest_before(spans: &[Span], index: usize, slowest: usize) -> usize
    requires index { index < length spans.now }
    requires slowest { IsSlowestOfBlock spans.now index slowest }
    ensures { (before : ℕ) → index ≡ before + 1 → IsSlowestOfBlock spans.now before result }
{
    if index % BLOCK == 0 || slowest >= spans.len() {
        return index;
    }
    if spans[index].limit() < spans[slowest].limit() {
        index
    } else {
        slowest
    }
}

impl Span {
    /// The span, with the least limit so many spans on.
    fn with_least_in(self, least_in: usize) -> Span
        requires { 1 ≤ least_in }
        ensures end { result.end ≡ self.end }
        ensures limit { result.limit ≡ self.limit }
        ensures slower_in { result.slower_in ≡ self.slower_in }
        ensures least_in { result.least_in ≡ least_in }
    {
        Span {
            end: self.end,
            limit: self.limit,
            slower_in: self.slower_in,
            least_in,
        }
    }
}
