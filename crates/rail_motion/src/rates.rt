//! The numbers of a motor.

ghost use Rattle.std.specs.Prelude.{◌≡◌, ◌<◌, ◌≤◌, ◌^◌, nat_abs};
ghost use Rattle.rail_motion.specs.Motor.{rates_of};
ghost use Rattle.rail_spec.specs.Motion.{reach};

use crate::Motor;

impl Motor {
    /// How much speed the motor gains in a tick, in mm per tick.
    pub fn accel(&self) -> u64
        ensures rate { result ≡ nat_abs self.now.accel }
        ensures bound { result ≤ 100000 }
    {
        self.accel as u64
    }

    /// How much speed it loses in a tick by full braking, in mm per tick.
    pub fn brake(&self) -> u64
        ensures rate { result ≡ nat_abs self.now.brake }
        ensures at_least_one { 1 ≤ result }
        ensures bound { result ≤ 100000 }
    {
        self.brake as u64
    }

    /// How far behind its head limits bind the train, in mm.
    pub fn tail(&self) -> u64
        ensures length { result ≡ nat_abs self.now.tail }
        ensures bound { result < 2 ^ 47 }
    {
        self.tail as u64
    }

    /// The speed that may be reached in a tick.
    pub(crate) fn reach(&self, speed: u64) -> u64
        requires { speed ≤ 100000 }
        ensures reach { result ≡ reach (rates_of self.now) speed }
        ensures bound { result ≤ 100000 }
    {
        (speed + self.accel as u64).min(self.top as u64)
    }
}
