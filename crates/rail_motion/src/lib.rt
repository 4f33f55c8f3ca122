//! Motion of one train in one tick.
//!
//! Places and lengths are in mm along the train's path, and speeds in mm per tick.
#![tactic(auto)]

ghost use Rattle.std.specs.Prelude.{◌≤◌};
ghost use Rattle.rail_motion.specs.Ranges.{IsPerTick, IsPlace};

mod ahead;
mod braking;
mod least;
mod obstacle;
mod obstacles;
mod rates;
mod slower;
mod speeds;

/// What a vehicle can do in a tick: how much speed it gains, how much it loses by full braking, and its top speed,
/// each in mm per tick; and how far behind its head, in mm, limits bind it.
#[derive(Clone, Copy, Debug)]
pub struct Motor {
    pub accel: i64,
    pub brake: i64,
    pub top: i64,
    pub tail: i64,
    ghost accel_range: { IsPerTick accel },
    ghost brake_range: { IsPerTick brake },
    ghost top_range: { IsPerTick top },
    ghost tail_range: { IsPlace tail },
}

/// A span of track up to a place (mm), with its speed limit (mm per tick). It begins where the one before ends.
#[derive(Clone, Copy, Debug)]
pub struct Span {
    pub end: i64,
    pub limit: i64,
    /// In how many spans the limit may be lower; before that it is not.
    pub slower_in: usize,
    /// In how many spans there is one with a limit that is no higher than those between.
    pub least_in: usize,
    ghost end_range: { IsPlace end },
    ghost limit_range: { IsPerTick limit },
    ghost slower_in_range: { 1 ≤ slower_in },
    ghost least_in_range: { 1 ≤ least_in },
}

pub use ahead::Ahead;
pub use braking::brakes;
pub use least::mark_least;
pub use slower::mark_slower;
pub use speeds::{advance, is_permitted, next_speed, step};
