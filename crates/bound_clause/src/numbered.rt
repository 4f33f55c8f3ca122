//! Certificates over the variables of the base.

ghost use Rattle.std.specs.Prelude.{◌≡◌, true};
ghost use Rattle.bound_spec.specs.Validity.{names_design};
ghost use Rattle.cone_clause.specs.Contentions.{over};

use bound_spec::Bound;
use cone_clause::Contention;
use interlocking::Steps;

/// A certificate that speaks of the design, and how many steps the plans have that its clause is for.
#[derive(Clone, Copy)]
pub(crate) struct NumberedBound<'a> {
    pub contention: Contention<'a>,
    pub steps: Steps,
    pub bound: &'a Bound,
    pub ghost known: { over contention names_design bound.now ≡ true },
}
