//! The motors of trains.

ghost use Rattle.std.specs.Prelude.{◌≡◌, ◌≤◌, ◌*◌, ◌/◌, nat_abs};
ghost use Rattle.rail_base.specs.Stations.{IsTrain};
ghost use Rattle.rail_motion.specs.Motor.{rates_of};
ghost use Rattle.rail_motion.specs.Ranges.{IsPerTick, IsPlace};
ghost use Rattle.rail_spec.specs.Dispatches.{binding_length, rates};

use rail_base::design::Design;
use rail_base::station::TrainNo;
use rail_motion::Motor;

/// What a train's vehicle can do in a tick, and how far behind its head limits bind it.
pub fn motor_of(design: &Design, train: TrainNo) -> Motor
    requires { IsTrain design.now.station train }
    ensures { rates_of result ≡ rates design.now.station train }
{
    let vehicle = design.vehicle_of(train);
    let tick_ms = design.station.tick_ms;
    Motor {
        accel: accel_per_tick(vehicle.accel_mm_s2, tick_ms),
        brake: accel_per_tick(vehicle.brake_mm_s2, tick_ms),
        top: speed_per_tick(vehicle.speed_mm_s, tick_ms),
        tail: binding_length(design, train),
    }
}

/// The mm per tick of a speed in mm/s.
fn speed_per_tick(speed: u32, tick_ms: u32) -> i64
    requires speed { speed ≤ 100000 }
    requires tick { tick_ms ≤ 1000 }
    requires moves { 1 ≤ speed * tick_ms / 1000 }
    ensures value { nat_abs result ≡ speed * tick_ms / 1000 }
    ensures range { IsPerTick result }
{
    (u64::from(speed) * u64::from(tick_ms) / 1000) as i64
}

/// The mm per tick that a speed gains or loses in a tick, of a rate in mm/s².
fn accel_per_tick(accel: u32, tick_ms: u32) -> i64
    requires accel { accel ≤ 100000 }
    requires tick { tick_ms ≤ 1000 }
    requires gains { 1 ≤ accel * tick_ms * tick_ms / 1000000 }
    ensures value { nat_abs result ≡ accel * tick_ms * tick_ms / 1000000 }
    ensures range { IsPerTick result }
{
    (u64::from(accel) * u64::from(tick_ms) * u64::from(tick_ms) / 1_000_000) as i64
}

/// How far behind its head limits bind a train, in mm: not at all in designs of version 1, and from version 2 on as far
/// as the train is long.
fn binding_length(design: &Design, train: TrainNo) -> i64
    requires { IsTrain design.now.station train }
    ensures value { nat_abs result ≡ binding_length design.now.station train }
    ensures range { IsPlace result }
{
    if design.station.version < 2 {
        return 0;
    }
    i64::from(design.vehicle_of(train).length_mm)
}
