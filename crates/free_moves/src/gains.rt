//! The distance on which a train gains its speed.

ghost use Rattle.std.specs.Prelude.{◌≡◌, ◌<◌, ◌≤◌, ◌+◌, ◌-◌, ◌||◌, nat_abs};
ghost use Rattle.rail_motion.specs.Track.{IsRising, stretches_of};
ghost use Rattle.free_spec.specs.Free.{behind, rise};
ghost use Rattle.free_moves.specs.Moves.{span_allows};

use rail_motion::Span;

/// How far a train has come at speeds above a limit, before a move by `speed`, if it gains at most `accel` in a tick.
pub(crate) fn rise(accel: u64, speed: u64, limit: u64) -> u64
    requires accel { 1 ≤ accel }
    requires speed { speed ≤ 100000 }
    requires limit { limit ≤ 100000 }
    ensures { result ≡ rise accel speed limit }
{
    let gains = speed.saturating_sub(limit + 1) / accel;
    let twice = 2 * (gains * speed) - accel * (gains * (gains + 1));
    twice / 2
}

/// Whether the limits that a train has left behind allow a speed at a place of its head: those that end up to its tail.
/// Of rising spans none after the first that ends past the tail matters.
pub(crate) fn behind(spans: &[Span], accel: u64, tail: u64, place: u64, speed: u64) -> bool
    requires rising { IsRising spans.now }
    requires accel { 1 ≤ accel }
    requires speed { speed ≤ 100000 }
    ensures { result ≡ behind accel tail 0 (stretches_of spans.now) place speed }
{
    let left = place.saturating_sub(tail);
    let mut from = 0;
    for span in spans {
        if left < end_of(span) {
            return true;
        }
        if !allows(span, from, accel, left, speed) {
            return false;
        }
        from = from.max(end_of(span));
    }
    true
}

/// Where a span ends.
fn end_of(span: &Span) -> u64
    ensures { result ≡ nat_abs span.now.end }
{
    span.end as u64
}

/// Whether the distance since the end of a span is enough to gain a speed from its limit. Only a span that ends past
/// `from`, and up to the place, matters.
fn allows(span: &Span, from: u64, accel: u64, place: u64, speed: u64) -> bool
    requires accel { 1 ≤ accel }
    requires speed { speed ≤ 100000 }
    ensures { result ≡ span_allows span.now from accel place speed }
{
    let end = end_of(span);
    let limit = span.limit as u64;
    end <= from || end > place || speed <= limit || rise(accel, speed, limit) <= place - end
}
