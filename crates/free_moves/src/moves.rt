//! Free moves.

ghost use Rattle.std.specs.Prelude.{◌≡◌, ◌<◌, ◌≤◌, ◌+◌, ◌^◌, nat_abs};
ghost use Rattle.rail_spec.specs.Motion.{can_brake};
ghost use Rattle.free_moves.specs.Moves.{is_free_on, free_on, can_brake_on};

use crate::gains::{behind, rise};
use rail_motion::{Ahead, Motor, is_permitted};

/// The track of a leg, the motor of its train, and whether the train starts there from rest.
#[derive(Clone, Copy)]
pub(crate) struct LegTrack<'a> {
    pub motor: Motor,
    pub ahead: Ahead<'a>,
    pub rest: bool,
}

impl LegTrack<'_> {
    /// How much speed the train gains in a tick at the most.
    pub(crate) fn accel(&self) -> u64
        ensures rate { result ≡ nat_abs self.now.motor.accel }
        ensures at_least_one { 1 ≤ result }
        ensures at_most_100000 { result ≤ 100000 }
    {
        self.motor.accel as u64
    }

    /// How much speed it loses in a tick by full braking.
    pub(crate) fn brake(&self) -> u64
        ensures rate { result ≡ nat_abs self.now.motor.brake }
        ensures at_least_one { 1 ≤ result }
        ensures at_most_100000 { result ≤ 100000 }
    {
        self.motor.brake as u64
    }

    /// The greatest free move from a place, sought from a guess on: by ever wider steps, and then by halving.
    pub(crate) fn free(&self, place: u64, guess: u64) -> u64
        requires { place < 2 ^ 47 }
        ensures free { result ≡ free_on self.now place }
        ensures at_most_100000 { result ≤ 100000 }
    {
        let mut low = 0;
        let mut high = self.top() + 1;
        let mut next = guess;
        let mut step: u64 = 1;
        while low + 1 < high {
            let middle = number_between(low, high, next);
            if self.is_free(place, middle) {
                low = middle;
                next = middle.saturating_add(step);
            } else {
                high = middle;
                next = middle.saturating_sub(step);
            }
            step = step.saturating_mul(2);
        }
        low
    }

    /// Its top speed.
    fn top(&self) -> u64
        ensures rate { result ≡ nat_abs self.now.motor.top }
        ensures at_least_one { 1 ≤ result }
        ensures at_most_100000 { result ≤ 100000 }
    {
        self.motor.top as u64
    }

    /// Whether a move and then full braking keep the limits ahead and stop where that is allowed.
    fn can_brake(&self, place: u64, speed: u64) -> bool
        requires place { place < 2 ^ 47 }
        requires speed { speed ≤ nat_abs self.now.motor.top }
        ensures { result ≡ can_brake_on self.now place speed }
    {
        let next = speed as i64;
        is_permitted(&self.motor, &self.ahead, place as i64, next, next)
    }

    /// Whether a train can come so fast to a place.
    fn is_free(&self, place: u64, speed: u64) -> bool
        requires place { place < 2 ^ 47 }
        requires speed { speed ≤ nat_abs self.now.motor.top }
        ensures { result ≡ is_free_on self.now place speed }
    {
        let accel = self.accel();
        let tail = self.motor.tail();
        // The test that takes longest comes last.
        (!self.rest || rise(accel, speed, 0) <= place)
            && behind(self.ahead.spans, accel, tail, place, speed)
            && self.can_brake(place, speed)
    }
}

/// A number between two others: `next`, if it lies there.
fn number_between(low: u64, high: u64, next: u64) -> u64
    requires { low + 1 < high }
    ensures above { low < result }
    ensures below { result < high }
{
    if low < next && next < high {
        next
    } else {
        low + (high - low) / 2
    }
}
