//! What is in the way of full braking: track with a lower limit, or the end of authority.

ghost use Rattle.std.specs.Prelude.{◌≡◌, ◌⊎◌, ◌<◌, ◌≤◌, ◌+◌, ◌-◌, ◌^◌, All, IsTrue, None, Some, is_none, nat_abs, ◌*◌};
ghost use Rattle.std.specs.Prelude.{length, nat_le, nat_lt, false, true};
ghost use Rattle.rail_motion.specs.declared.Span.{Span};
ghost use Rattle.std.specs.Option.{ForSome};
ghost use Rattle.rail_motion.specs.Braking.{faster_distance};
ghost use Rattle.rail_motion.specs.Obstacles.{forbids, IsObstacle};
ghost use Rattle.rail_motion.specs.Track.{stretches_of, IsRising, LeastAhead, NoneSlower, NoneInTheWay};
ghost use Rattle.rail_spec.specs.Motion.{can_brake, may_stop};

use crate::Span;
use crate::ahead::spans_past;
use crate::braking::{braking_distance, faster_distance};
use crate::obstacle::Obstacle;

/// Up to how many moves ahead an obstacle is near.
const NEAR_MOVES: u64 = 16;

/// What is in the way of a move by `speed` from `place` and then full braking, if they do not keep the limits or do not
/// stop at or before the end. Limits bind the train so far behind its head as `tail` says.
pub(crate) fn first_obstacle(
    spans: &[Span],
    end: Option<u64>,
    brake: u64,
    tail: u64,
    place: u64,
    speed: u64,
) -> Option<Obstacle>
    requires rising { IsRising spans.now }
    requires none_slower { NoneSlower spans.now }
    requires least { LeastAhead spans.now }
    requires end { ForSome end (λ e. e < 2 ^ 47) }
    requires brake { 1 ≤ brake }
    requires brake_at_most { brake ≤ 100000 }
    requires place { place < 2 ^ 47 }
    requires speed { speed ≤ 100000 }
    ensures none { is_none result ≡ can_brake speed brake tail (stretches_of spans.now) end place speed }
    ensures some { ForSome result (IsObstacle spans.now end brake tail place speed) }
{
    let stop = place + speed + braking_distance(speed, brake);
    match past_end(end, stop) {
        Some(obstacle) => Some(obstacle),
        None => first_slower(
            spans_past(spans, place.saturating_sub(tail)),
            brake,
            tail,
            place,
            speed,
        ),
    }
}

/// The track past the end of authority, for a train that stops there.
fn past_end(end: Option<u64>, stop: u64) -> Option<Obstacle>
    requires { ForSome end (λ e. e < 2 ^ 47) }
    ensures none { is_none result ≡ may_stop end stop }
    ensures some { ForSome result (λ o. (end ≡ Some o.start) × (o.end ≡ stop) × (o.limit ≡ 0) × (o.start < stop)) }
{
    match end {
        Some(end) if end < stop => Some(Obstacle {
            start: end,
            end: stop,
            limit: 0,
        }),
        _ => None,
    }
}

/// The first span of which a point is covered by a move that is faster than its limit, of a move by `speed` from
/// `place` and those of full braking, or on which the tail is then. The spans end past the tail.
///
/// So each span takes a few sums, however many moves there are, and those from the stop on take none. Where a span is
/// not in the way, those after it are not until the limit is lower.
fn first_slower(spans: &[Span], brake: u64, tail: u64, place: u64, speed: u64) -> Option<Obstacle>
    requires rising { IsRising spans.now }
    requires none_slower { NoneSlower spans.now }
    requires least { LeastAhead spans.now }
    requires past { All (λ s. nat_lt (place - tail) (nat_abs s.end) ≡ true) spans.now }
    requires brake { 1 ≤ brake }
    requires brake_at_most { brake ≤ 100000 }
    requires place { place < 2 ^ 47 }
    requires speed { speed ≤ 100000 }
    ensures none { is_none result ≡ can_brake speed brake tail (stretches_of spans.now) None place speed }
    ensures some { ForSome result (IsObstacle spans.now None brake tail place speed) }
{
    let stop = place + speed + braking_distance(speed, brake);
    let mut start = place.saturating_sub(tail);
    let mut next = 0;
    while next < spans.len() && start < stop {
        let span = spans[next];
        let obstacle = span.past(start);
        if obstacle.forbids(brake, place, speed) {
            return Some(obstacle);
        }
        next = next
            .saturating_add(hop(spans, next, speed))
            .min(spans.len());
        start = spans[next - 1].end();
    }
    None
}

/// How many spans on the next one is to be looked at after one that is not in the way of a speed: those between have
/// limits that are not lower, or that allow the speed.
fn hop(spans: &[Span], index: usize, speed: u64) -> usize
    requires none_slower { NoneSlower spans.now }
    requires least { LeastAhead spans.now }
    requires within { index < length spans.now }
    ensures at_least_one { 1 ≤ result }
    ensures none { NoneInTheWay spans.now index result speed }
{
    let span = spans[index];
    let least = index.saturating_add(span.least_in);
    if span.slower_in < span.least_in && least < spans.len() && speed <= spans[least].limit() {
        return span.least_in;
    }
    span.slower_in
}

impl Span {
    /// What is past a place of the span.
    fn past(&self, start: u64) -> Obstacle
        requires { start < 2 ^ 47 }
        ensures start { result.start ≡ start }
        ensures end { result.end ≡ nat_abs self.now.end }
        ensures limit { result.limit ≡ nat_abs self.now.limit }
    {
        Obstacle {
            start,
            end: self.end(),
            limit: self.limit(),
        }
    }
}

impl Obstacle {
    /// Whether the obstacle forbids `speed` to a train at `place`: a move by it and then full braking cover a point of
    /// it too fast.
    fn forbids(&self, brake: u64, place: u64, speed: u64) -> bool
        requires brake { 1 ≤ brake }
        requires brake_at_most { brake ≤ 100000 }
        requires place { place < 2 ^ 47 }
        requires speed { speed ≤ 100000 }
        ensures { result ≡ forbids self.now brake place speed }
    {
        let track = self.start.saturating_sub(place);
        if speed <= self.limit || is_enough(track, speed, brake, self.limit) {
            return false;
        }
        self.start < (place + faster_distance(speed, brake, self.limit)).min(self.end)
    }

    /// Whether the obstacle begins farther from `place` than the next moves by `speed` go.
    pub(crate) fn is_far(&self, place: u64, speed: u64) -> bool
        requires place { place < 2 ^ 47 }
        requires speed { speed ≤ 100000 }
        ensures { result ≡ nat_le (place + 16 * speed) self.now.start }
    {
        place + NEAR_MOVES * speed <= self.start
    }

    /// The least speed above `low` that the obstacle forbids to a train at `place`. It forbids `high`.
    pub(crate) fn least_forbidden(&self, brake: u64, place: u64, low: u64, high: u64) -> u64
        requires brake { 1 ≤ brake }
        requires brake_at_most { brake ≤ 100000 }
        requires place { place < 2 ^ 47 }
        requires apart { low < high }
        requires high_at_most { high ≤ 100000 }
        requires high_is { forbids self.now brake place high ≡ true }
        ensures above { low < result }
        ensures at_most { result ≤ high }
        ensures forbidden { forbids self.now brake place result ≡ true }
        ensures least { (result ≡ low + 1) ⊎ (forbids self.now brake place (result - 1) ≡ false) }
    {
        let mut least = high;
        let mut below = low;
        while below + 1 < least {
            let middle = below + (least - below) / 2;
            if self.forbids(brake, place, middle) {
                least = middle;
            } else {
                below = middle;
            }
        }
        least
    }
}

/// Whether so much track would be enough if each of the moves that are faster than a limit were as long as the first.
fn is_enough(track: u64, speed: u64, brake: u64, limit: u64) -> bool
    requires track { track < 2 ^ 47 }
    requires speed { speed ≤ 100000 }
    requires limit { limit ≤ speed }
    requires brake { 1 ≤ brake }
    requires brake_at_most { brake ≤ 100000 }
    ensures { IsTrue result → faster_distance speed brake limit speed ≤ track }
{
    (speed - limit + brake) * speed <= brake * track
}
