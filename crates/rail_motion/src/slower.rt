//! Where the limit is lower again.

ghost use Rattle.std.specs.Prelude.{◌≡◌, ◌<◌, ◌≤◌, ◌+◌, length};
ghost use Rattle.rail_motion.specs.declared.Span.{Span};
ghost use Rattle.rail_motion.specs.Track.{stretches_of, IsNextSlower, IsRising, NoneSlower, AreMarkedSlower};

use crate::Span;

/// Notes for each span in how many spans the limit is lower, or the track ends. Ends and limits stay as they are.
pub fn mark_slower(spans: &mut [Span])
    ensures track { stretches_of spans.new ≡ stretches_of spans.old }
    ensures nearest { AreMarkedSlower spans.new 0 }
    ensures none_slower { NoneSlower spans.new }
    ensures rising { IsRising spans.old → IsRising spans.new }
{
    let mut left = spans.len();
    while left > 0 {
        left -= 1;
        let next = next_slower(spans, left);
        spans[left] = spans[left].with_slower_in(next - left);
    }
}

/// The nearest span with a lower limit after one, after which all are marked, or the number of spans.
fn next_slower(spans: &[Span], index: usize) -> usize
    requires index { index < length spans.now }
    requires marked { AreMarkedSlower spans.now (index + 1) }
    ensures { IsNextSlower spans.now index result }
{
    let mut next = index + 1;
    while next < spans.len() && spans[index].limit() <= spans[next].limit() {
        next += spans[next].slower_in;
    }
    next
}

impl Span {
    /// The span, with the lower limit so many spans on.
    fn with_slower_in(self, slower_in: usize) -> Span
        requires { 1 ≤ slower_in }
        ensures end { result.end ≡ self.end }
        ensures limit { result.limit ≡ self.limit }
        ensures slower_in { result.slower_in ≡ slower_in }
    {
        Span {
            end: self.end,
            limit: self.limit,
            slower_in,
            least_in: self.least_in,
        }
    }
}
