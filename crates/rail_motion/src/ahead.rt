//! The track ahead of a train.

ghost use Rattle.std.specs.Prelude.{◌≡◌, ◌<◌, ◌^◌, nat_abs, nat_lt, filter};
ghost use Rattle.std.specs.Option.{ForSome};
ghost use Rattle.rail_motion.specs.Ranges.{IsPlace};
ghost use Rattle.rail_motion.specs.Track.{end_of, IsRising, LeastAhead, NoneSlower};

use crate::Span;

/// The track ahead of a train, and the place (mm) where its authority ends, if it does.
///
/// Each span ends before those after it. Spans that end at or before the place up to which limits bind the train behind
/// its head do not matter, and past the last one only the vehicle's top speed limits.
#[derive(Clone, Copy, Debug)]
pub struct Ahead<'a> {
    pub spans: &'a [Span],
    pub end: Option<i64>,
    ghost rising: { IsRising spans.now },
    ghost none_slower: { NoneSlower spans.now },
    ghost least: { LeastAhead spans.now },
    ghost end_range: { ForSome end IsPlace },
}

impl Ahead<'_> {
    /// Where the authority ends (mm), if it does.
    pub fn limit_of_authority(&self) -> Option<u64>
        ensures end { result ≡ end_of self.now.end }
        ensures below_2_47 { ForSome result (λ e. e < 2 ^ 47) }
    {
        match self.end {
            None => None,
            Some(end) => Some(end as u64),
        }
    }

    /// The spans that end past a place (mm).
    pub fn spans_past(&self, place: u64) -> &[Span]
        ensures { result.now ≡ filter (λ s. nat_lt place (nat_abs s.end)) self.now.spans.now }
    {
        spans_past(self.spans, place)
    }
}

impl Span {
    /// Where the span ends.
    pub(crate) fn end(&self) -> u64
        ensures { result ≡ nat_abs self.now.end }
    {
        self.end as u64
    }

    /// Its limit.
    pub(crate) fn limit(&self) -> u64
        ensures { result ≡ nat_abs self.now.limit }
    {
        self.limit as u64
    }
}

/// The spans that end past a place, by a binary search over their ends.
pub(crate) fn spans_past(spans: &[Span], place: u64) -> &[Span]
    requires rising { IsRising spans.now }
    requires none_slower { NoneSlower spans.now }
    requires least { LeastAhead spans.now }
    ensures past { result.now ≡ filter (λ s. nat_lt place (nat_abs s.end)) spans.now }
    ensures rising { IsRising result.now }
    ensures none_slower { NoneSlower result.now }
    ensures least { LeastAhead result.now }
{
    let first = spans.partition_point(|span| span.end() <= place);
    &spans[first..]
}
