//! Certificates that name what the design has.

ghost use Rattle.std.specs.Prelude.{◌≡◌, ◌≤◌};
ghost use Rattle.bound_ticks.specs.Claims.{IsNamed, followed_of};

use bound_spec::Bound;
use interlocking::Interlocking;

/// A certificate that names what the design has, and how many ticks of each leg are counted.
#[derive(Clone, Copy)]
pub(crate) struct Claim<'a> {
    pub interlocking: &'a Interlocking,
    pub bound: &'a Bound,
    pub most: u64,
    pub ghost named: { IsNamed interlocking.now bound.now },
    pub ghost counted: { most ≡ followed_of interlocking.now bound.now },
    pub ghost at_most_86400: { most ≤ 86400 },
}
