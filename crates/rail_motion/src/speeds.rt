//! The speeds that are permitted, the greatest of them, and the move that it makes.

ghost use Rattle.std.specs.Prelude.{◌≡◌, ◌↔◌, ◌<◌, ◌≤◌, ◌+◌, ◌^◌, ◌≤ℤ◌, ◌<ℤ◌, ◌+ℤ◌, is_none, nat_abs, pos, true};
ghost use Rattle.std.specs.Option.{ForSome};
ghost use Rattle.rail_motion.specs.Track.{end_of};
ghost use Rattle.rail_motion.specs.Ranges.{IsPlace, IsSpeed};
ghost use Rattle.rail_spec.specs.Motion.{may_stop};
ghost use Rattle.rail_motion.specs.Permitted.{permitted_on, MayBrake, next_speed_on, IsPermittedOn, IsGreatestOn};
ghost use Rattle.rail_motion.specs.Permitted.{KeepsLimitsOn, brakes_on};
ghost use Rattle.rail_motion.specs.Obstacles.{IsObstacleOn};

use crate::obstacle::Obstacle;
use crate::obstacles::first_obstacle;
use crate::{Ahead, Motor};

/// Whether the speed `u` is permitted at the place `x` and the speed `v`: it can be reached, and a move by it and then
/// full braking keep the limits and stop within the authority. `x` is in mm, `v` and `u` in mm per tick.
pub fn is_permitted(motor: &Motor, ahead: &Ahead, x: i64, v: i64, u: i64) -> bool
    requires x { IsPlace x }
    requires v { IsSpeed v }
    requires u { pos 0 ≤ℤ u }
    ensures test { result ≡ permitted_on motor.now ahead.now (nat_abs x) (nat_abs v) (nat_abs u) }
    ensures points { (result ≡ true) ↔ IsPermittedOn motor.now ahead.now (nat_abs x) (nat_abs v) (nat_abs u) }
{
    permits(motor, ahead, x as u64, v as u64, u as u64)
}

/// The greatest permitted speed at the place `x` (mm) and the speed `v` (mm per tick), at which full braking is
/// permitted.
pub fn next_speed(motor: &Motor, ahead: &Ahead, x: i64, v: i64) -> i64
    requires x { IsPlace x }
    requires v { IsSpeed v }
    requires braking { MayBrake motor.now ahead.now (nat_abs x) (nat_abs v) }
    ensures speed { result ≡ pos (next_speed_on motor.now ahead.now (nat_abs x) (nat_abs v)) }
    ensures range { IsSpeed result }
    ensures greatest { IsGreatestOn motor.now ahead.now (nat_abs x) (nat_abs v) (nat_abs result) }
{
    greatest_permitted(motor, ahead, x as u64, v as u64) as i64
}

/// The place (mm) and the speed (mm per tick) after the next tick, of a train at `place` and `speed` at which full
/// braking is permitted. It is permitted again after the move.
pub fn advance(motor: &Motor, ahead: &Ahead, place: u64, speed: u64) -> (u64, u64)
    requires place { place < 2 ^ 47 }
    requires speed { speed ≤ 100000 }
    requires braking { MayBrake motor.now ahead.now place speed }

    ensures speed { result.1 ≡ next_speed_on motor.now ahead.now place speed }
    ensures place { result.0 ≡ place + result.1 }
    ensures range { result.1 ≤ 100000 }
    ensures braking { MayBrake motor.now ahead.now result.0 result.1 }

    // The move ends within the authority, no point under it or the tail has a lower limit, and it is at least 1 where
    // authority is left.
    ensures in_authority { may_stop (end_of ahead.now.end) result.0 ≡ true }
    ensures limits { KeepsLimitsOn motor.now ahead.now place result.0 result.1 }
    ensures moves { ForSome (end_of ahead.now.end) (λ end. place < end) → 1 ≤ result.1 }
{
    let next = greatest_permitted(motor, ahead, place, speed);
    (place + next, next)
}

/// The place `x` (mm) and the speed `v` (mm per tick) after the next tick, as `advance` gives them.
pub fn step(motor: &Motor, ahead: &Ahead, x: i64, v: i64) -> (i64, i64)
    requires x { IsPlace x }
    requires v { IsSpeed v }
    requires braking { MayBrake motor.now ahead.now (nat_abs x) (nat_abs v) }

    ensures speed { result.1 ≡ pos (next_speed_on motor.now ahead.now (nat_abs x) (nat_abs v)) }
    ensures place { result.0 ≡ x +ℤ result.1 }
    ensures range { IsSpeed result.1 }
    ensures braking { MayBrake motor.now ahead.now (nat_abs result.0) (nat_abs result.1) }

    ensures in_authority { may_stop (end_of ahead.now.end) (nat_abs result.0) ≡ true }
    ensures limits { KeepsLimitsOn motor.now ahead.now (nat_abs x) (nat_abs result.0) (nat_abs result.1) }
    ensures moves { ForSome ahead.now.end (λ end. x <ℤ end) → pos 1 ≤ℤ result.1 }
{
    let (place, speed) = advance(motor, ahead, x as u64, v as u64);
    (place as i64, speed as i64)
}

/// Whether `next` is permitted at `place` and `speed`.
fn permits(motor: &Motor, ahead: &Ahead, place: u64, speed: u64, next: u64) -> bool
    requires place { place < 2 ^ 47 }
    requires speed { speed ≤ 100000 }
    ensures { result ≡ permitted_on motor.now ahead.now place speed next }
{
    next <= motor.reach(speed) && obstacle(motor, ahead, place, next).is_none()
}

/// What is in the way of a move by `speed` from `place` and then full braking.
fn obstacle(motor: &Motor, ahead: &Ahead, place: u64, speed: u64) -> Option<Obstacle>
    requires place { place < 2 ^ 47 }
    requires speed { speed ≤ 100000 }
    ensures none { is_none result ≡ brakes_on motor.now ahead.now place speed }
    ensures some { ForSome result (IsObstacleOn motor.now ahead.now place speed) }
{
    first_obstacle(
        ahead.spans,
        ahead.limit_of_authority(),
        motor.brake(),
        motor.tail(),
        place,
        speed,
    )
}

/// The greatest permitted speed, between full braking and the speed in reach. What is in the way of a speed says up to
/// which lower speed it is in the way, so that only those below are tried after it.
fn greatest_permitted(motor: &Motor, ahead: &Ahead, place: u64, speed: u64) -> u64
    requires place { place < 2 ^ 47 }
    requires speed { speed ≤ 100000 }
    requires braking { MayBrake motor.now ahead.now place speed }
    ensures speed { result ≡ next_speed_on motor.now ahead.now place speed }
    ensures permitted { permitted_on motor.now ahead.now place speed result ≡ true }
    ensures bound { result ≤ 100000 }
    ensures moves { ForSome (end_of ahead.now.end) (λ end. place < end) → 1 ≤ result }
{
    let brake = motor.brake();
    let mut low = speed.saturating_sub(brake);
    let mut high = motor.reach(speed) + 1;
    let mut cost: u64 = 0;
    while low + 1 < high {
        let guess = speed_to_try(low, high, cost / FAR_COST);
        let found = obstacle(motor, ahead, place, guess);
        cost = cost.saturating_add(cost_of(found, place, guess));
        match found {
            None => low = guess,
            Some(found) => high = found.least_forbidden(brake, place, low, guess),
        }
    }
    low
}

/// What a try counts for that had to look far ahead.
const FAR_COST: u64 = 4;

/// What a try counts for: more where it had to look at all spans up to the stop, or up to an obstacle farther than the
/// next moves.
fn cost_of(found: Option<Obstacle>, place: u64, speed: u64) -> u64
    requires place { place < 2 ^ 47 }
    requires speed { speed ≤ 100000 }
{
    let looks_far = match found {
        None => true,
        Some(obstacle) => obstacle.is_far(place, speed),
    };
    if looks_far { FAR_COST } else { 1 }
}

/// A speed between one that is permitted and one that is not, after so many tries that looked far ahead or as many that
/// cost as much: at first the greatest, since most trains go as fast as the first obstacles allow, then the least,
/// since others brake as fully as they can, and then the middle and the greatest in turn.
fn speed_to_try(low: u64, high: u64, tries: u64) -> u64
    requires { low + 1 < high }
    ensures above { low < result }
    ensures below { result < high }
{
    if tries == 1 {
        low + 1
    } else if tries > 1 && tries % 2 == 0 {
        low + (high - low) / 2
    } else {
        high - 1
    }
}
