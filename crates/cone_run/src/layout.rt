//! A cone that speaks of the design.

ghost use Rattle.std.specs.Prelude.{◌≡◌, true};
ghost use Rattle.cone_form.specs.Fits.{fits};

use cone_spec::Cone;
use interlocking::Interlocking;

/// A cone that speaks of the design.
#[derive(Clone, Copy)]
pub(crate) struct ConeLayout<'a> {
    pub interlocking: &'a Interlocking,
    pub cone: &'a Cone,
    pub ghost known: { fits interlocking.now cone.now ≡ true },
}
