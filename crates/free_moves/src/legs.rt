//! The least ticks of trips on legs, and whatever follows a walk.

ghost use Rattle.std.specs.Prelude.{◌≡◌, ◌<◌, ◌≤◌, ◌^◌, ◌+◌, All, IfOk, length, None, Some, if◌then◌else◌};
ghost use Rattle.std.specs.Option.{ForSome};
ghost use Rattle.rail_motion.specs.Ranges.{IsPlace};
ghost use Rattle.rail_motion.specs.Track.{end_of};
ghost use Rattle.rail_base.specs.Routes.{IsRoute, route_at};
ghost use Rattle.cone_spec.specs.Validity.{from_boundary};
ghost use Rattle.free_spec.specs.Legs.{following};
ghost use Rattle.free_moves.specs.Trips.{least_trip_ticks, track_ticks, path_ticks, next_ticks, least_with_next};

use crate::following::{exits, from_boundary, goes_further, is_dead, length_of};
use crate::moves::LegTrack;
use crate::trips::Trip;
use rail_base::route::{RouteNo, route_at};
use rail_course::{motor_of, spans_of};
use rail_motion::Ahead;
use std::alloc::{AllocError, Global};

impl Trip<'_> {
    /// The least ticks of the trip on a walk, whatever follows it.
    pub(crate) fn least_ticks(&self, alloc: Global, path: &[RouteNo]) -> Result<u64, AllocError>
        requires routes { All (IsRoute self.now.interlocking.now.routes) path.now }
        requires at_most_64 { length path.now ≤ 64 }
        ensures { IfOk result (λ n. n ≡ least_trip_ticks self.now path.now) }
    {
        let routes = &self.interlocking.routes;
        let rest = from_boundary(routes, path);
        if path.is_empty() || exits(routes, path) {
            return self.leg_ticks(alloc, path, false, rest);
        }
        let closed = self.leg_ticks(alloc, path, true, rest)?;
        self.least_following(alloc, path, rest, closed)
    }

    /// The least ticks of the trip on the track of a leg, or one more than its most where so many don't reach.
    fn ticks_on(&self, track: &LegTrack) -> u64
        ensures { result ≡ track_ticks self.now track.now }
    {
        if self.waits {
            track.steps_from_stop(self.most, self.from, self.to)
        } else {
            track.steps(self.most, self.from, self.to)
        }
    }

    /// The same on routes in a row, past which no train goes where they are closed.
    fn leg_ticks(
        &self,
        alloc: Global,
        path: &[RouteNo],
        closed: bool,
        rest: bool,
    ) -> Result<u64, AllocError>
        requires routes { All (IsRoute self.now.interlocking.now.routes) path.now }
        requires at_most_65 { length path.now ≤ 65 }
        ensures { IfOk result (λ n. n ≡ path_ticks self.now path.now closed rest) }
    {
        let interlocking = self.interlocking;
        let spans = spans_of(alloc, interlocking, path)?;
        let track = LegTrack {
            motor: motor_of(&interlocking.design, self.train),
            ahead: Ahead {
                spans: &spans,
                end: end_of(closed, length_of(&interlocking.routes, path)),
            },
            rest,
        };
        Ok(self.ticks_on(&track))
    }

    /// The same on a walk and one more route.
    fn ticks_with_next(
        &self,
        alloc: Global,
        path: &[RouteNo],
        rest: bool,
        next: RouteNo,
    ) -> Result<u64, AllocError>
        requires routes { All (IsRoute self.now.interlocking.now.routes) path.now }
        requires next { IsRoute self.now.interlocking.now.routes next }
        requires at_most_64 { length path.now ≤ 64 }
        ensures { IfOk result (λ n. n ≡ next_ticks self.now path.now rest next) }
    {
        let mut longer = Vec::new(alloc);
        longer.extend_from_slice(path)?;
        longer.push(next)?;
        let closed = is_dead(route_at(&self.interlocking.routes, next).finish);
        self.leg_ticks(alloc, &longer, closed, rest)
    }

    /// The least of `first` and of what the trip takes on the walk with each route that goes further.
    fn least_following(
        &self,
        alloc: Global,
        path: &[RouteNo],
        rest: bool,
        first: u64,
    ) -> Result<u64, AllocError>
        requires routes { All (IsRoute self.now.interlocking.now.routes) path.now }
        requires at_most_64 { length path.now ≤ 64 }
        ensures { IfOk result (λ n. n ≡ least_with_next self.now path.now rest first) }
    {
        let routes = &self.interlocking.routes;
        let mut least = first;
        for number in 1..routes.len() as u32 + 1 {
            let next = RouteNo(number);
            if goes_further(routes, path, route_at(routes, next)) {
                least = least.min(self.ticks_with_next(alloc, path, rest, next)?);
            }
        }
        Ok(least)
    }
}

/// Where the track of a leg ends, if no train goes past its end.
fn end_of(closed: bool, length: u64) -> Option<i64>
    requires { length < 2 ^ 47 }
    ensures value { end_of result ≡ (if closed then Some length else None) }
    ensures range { ForSome result IsPlace }
{
    if closed { Some(length as i64) } else { None }
}
