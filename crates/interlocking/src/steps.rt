//! Numbers of steps.

ghost use Rattle.std.specs.Prelude.{◌≤◌};

/// How many steps a plan may have: from 1 to 256.
#[derive(Clone, Copy, Debug)]
pub struct Steps {
    pub count: u32,
    pub ghost at_least_one: { 1 ≤ count },
    pub ghost at_most_256: { count ≤ 256 },
}
