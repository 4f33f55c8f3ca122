//! What can be in the way of a train.

ghost use Rattle.std.specs.Prelude.{◌<◌, ◌≤◌, ◌^◌};

/// The track past `start` up to `end` (mm), of which no move that is faster than `limit` (mm per tick) may cover a
/// point.
#[derive(Clone, Copy)]
pub(crate) struct Obstacle {
    pub(crate) start: u64,
    pub(crate) end: u64,
    pub(crate) limit: u64,
    ghost start_range: { start < 2 ^ 47 },
    ghost limit_range: { limit ≤ 100000 },
}
