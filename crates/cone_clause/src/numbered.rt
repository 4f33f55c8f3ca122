//! Cones over the variables of the base.

ghost use Rattle.std.specs.Prelude.{◌≡◌, true};
ghost use Rattle.cone_form.specs.Fits.{fits};
ghost use Rattle.cone_clause.specs.Contentions.{among};
ghost use Rattle.cone_clause.specs.Numbered.{names_only};

use crate::contention::Contention;
use cone_spec::Cone;
use interlocking::Steps;

/// A cone that speaks of the design, of whose commands the base speaks, and how many steps the plans have that its
/// clause is for.
#[derive(Clone, Copy)]
pub(crate) struct NumberedCone<'a> {
    pub contention: Contention<'a>,
    pub steps: Steps,
    pub cone: &'a Cone,
    pub ghost known: { fits contention.interlocking.now cone.now ≡ true },
    pub ghost live: { names_only (among contention) cone.now ≡ true },
}
