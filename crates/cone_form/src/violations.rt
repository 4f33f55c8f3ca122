//! Whether a cone's violation names what there is.

ghost use Rattle.std.specs.Prelude.{◌≡◌, List};
ghost use Rattle.rail_base.specs.declared.station.Station.{Station};
ghost use Rattle.rail_base.specs.declared.route.Route.{Route};
ghost use Rattle.rail_base.specs.Admission.{is_visit};
ghost use Rattle.cone_spec.specs.declared.Cone.{Cone};
ghost use Rattle.cone_spec.specs.Validity.{only_path};
ghost use Rattle.cone_form.specs.Fits.{path_fits, violation_fits};

use crate::lookup::path;
use crate::trains::is_one_of;
use cone_spec::{Cone, ConeTrain};
use interlocking::Interlocking;
use rail_base::design::Design;
use rail_base::plan::Violation;
use rail_base::station::TrainNo;

/// Whether the violation names what there is.
pub fn violation_in_design(interlocking: &Interlocking, cone: &Cone) -> bool
    ensures { result ≡ violation_fits interlocking.now cone.now }
{
    let station = &interlocking.design.station;
    match cone.violation {
        Violation::Path { train, visit } => { path_in_design(interlocking, cone, train, visit) }
        Violation::Within { within } => is_one_of(within, station.withins.len()),
        Violation::Order { order } => is_one_of(order, station.orders.len()),
        Violation::Grant { train, command } => {
            is_one_of(train.0, station.trains.len()) && is_one_of(command, path(cone, train).len())
        }
        Violation::Visit { train, visit } => is_visit(&interlocking.design, train, visit),
    }
}

/// Whether the train has a visit of this number.
fn is_visit(design: &Design, train: TrainNo, visit: u32) -> bool
    ensures { result ≡ is_visit design.now.station train visit }
{
    is_one_of(train.0, design.station.trains.len())
        && is_one_of(visit, design.train(train).visits.len())
}

/// Whether there is one train alone, of which nothing but its path is said.
fn only_path(train: TrainNo, entries: &[ConeTrain]) -> bool
    ensures { (d : Station) (routes : List Route) (k : Cone) → result ≡ only_path d routes k train entries.now }
{
    match entries {
        [entry] => {
            entry.train.0 == train.0
                && entry.horizon == 0
                && entry.free == 0
                && entry.holder.is_none()
        }
        _ => false,
    }
}

/// Whether the train has the visit, and the cone says nothing but its path.
fn path_in_design(interlocking: &Interlocking, cone: &Cone, train: TrainNo, visit: u32) -> bool
    ensures { result ≡ path_fits interlocking.now cone.now train visit }
{
    if !is_visit(&interlocking.design, train, visit) {
        return false;
    }
    only_path(train, cone.trains.as_slice()) && cone.pairs.is_empty()
}
