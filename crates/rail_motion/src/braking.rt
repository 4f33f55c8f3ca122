//! The distance of full braking, in closed form.

ghost use Rattle.std.specs.Prelude.{◌≡◌, ◌<◌, ◌≤◌, ◌^◌, nat_abs, pos};
ghost use Rattle.rail_motion.specs.Braking.{faster_distance};
ghost use Rattle.rail_motion.specs.Ranges.{IsPerTick, IsSpeed};
ghost use Rattle.rail_spec.specs.Motion.{braking_distance};

/// The distance of full braking after a move by `u`, in mm: the sum of the slower moves that follow, for `u` and the
/// braking `b` in mm per tick.
pub fn brakes(u: i64, b: i64) -> i64
    requires u { IsSpeed u }
    requires b { IsPerTick b }
    ensures { result ≡ pos (braking_distance (nat_abs u) (nat_abs b) (nat_abs u)) }
{
    braking_distance(u as u64, b as u64) as i64
}

/// The distance of full braking after a move by `speed`: the sum of the slower moves that follow.
pub(crate) fn braking_distance(speed: u64, brake: u64) -> u64
    requires speed { speed ≤ 100000 }
    requires brake { 1 ≤ brake }
    ensures distance { result ≡ braking_distance speed brake speed }
    ensures bound { result < 2 ^ 40 }
{
    let moves = speed / brake;
    let twice = 2 * (moves * speed) - brake * (moves * (moves + 1));
    twice / 2
}

/// The distance of the moves that are faster than `limit`, of a move by `speed` and the slower ones of full braking.
pub(crate) fn faster_distance(speed: u64, brake: u64, limit: u64) -> u64
    requires speed { speed ≤ 100000 }
    requires brake { 1 ≤ brake }
    ensures distance { result ≡ faster_distance speed brake limit speed }
    ensures bound { result < 2 ^ 40 }
{
    let moves = speed.saturating_sub(limit).div_ceil(brake);
    let twice = 2 * (moves * speed) - brake * (moves * moves.saturating_sub(1));
    twice / 2
}
