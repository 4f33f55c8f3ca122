//! Steps of free moves.

ghost use Rattle.std.specs.Prelude.{◌≡◌, ◌<◌, ◌≤◌, ◌+◌, ◌^◌};
ghost use Rattle.free_spec.specs.Free.{steps, steps_from_stop};
ghost use Rattle.free_moves.specs.Moves.{free_on, waited_on};

use crate::moves::LegTrack;

impl LegTrack<'_> {
    /// The least ticks from a place to another, or one more than `most` where so many don't reach it.
    pub(crate) fn steps(&self, most: u64, from: u64, to: u64) -> u64
        requires at_most_86400 { most ≤ 86400 }
        requires to { to < 2 ^ 47 }
        ensures { result ≡ steps (free_on self.now) most from to }
    {
        let mut place = from;
        let mut speed = 0;
        let mut guess = 0;
        let mut ticks = 0;
        while ticks < most && place < to {
            let last = speed;
            speed = self.free(place, guess);
            guess = next_guess(last, speed);
            if speed == 0 {
                return most + 1;
            }
            place += speed;
            ticks += 1;
        }
        if place < to { most + 1 } else { ticks }
    }

    /// The same of a train that could stop at the first place, and gains its acceleration and its braking in each tick.
    pub(crate) fn steps_from_stop(&self, most: u64, from: u64, to: u64) -> u64
        requires at_most_86400 { most ≤ 86400 }
        requires to { to < 2 ^ 47 }
        ensures { result ≡ waited_on self.now most from to }
    {
        let gain = self.accel() + self.brake();
        let mut place = from;
        let mut speed = 0;
        let mut guess = 0;
        let mut ticks = 0;
        while ticks < most && place < to {
            let last = speed;
            speed = self.free(place, guess);
            guess = next_guess(last, speed);
            if speed == 0 {
                return most + 1;
            }
            ticks += 1;
            place = (place + speed).min(from + gain * (ticks * (ticks + 1)) / 2);
        }
        if place < to { most + 1 } else { ticks }
    }
}

/// What the speed may be after these two: it may change as much again.
fn next_guess(last: u64, speed: u64) -> u64 {
    speed.saturating_mul(2).saturating_sub(last)
}
