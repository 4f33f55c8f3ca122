//! Whether what a cone says of its trains is possible in a design.

ghost use Rattle.std.specs.Prelude.{◌≡◌, true, IfOk, List, length, map};
ghost use Rattle.std.specs.List.{list_all};
ghost use Rattle.rail_base.specs.declared.station.Station.{Station};
ghost use Rattle.rail_base.specs.Admission.{is_from};
ghost use Rattle.rail_base.specs.declared.route.Route.{Route};
ghost use Rattle.rail_base.specs.Routes.{IsRoute};
ghost use Rattle.rail_spec.specs.Plans.{contend};
ghost use Rattle.cone_spec.specs.declared.Cone.{Cone};
ghost use Rattle.cone_spec.specs.Validity.{holder_in_path};
ghost use Rattle.interlocking.specs.declared.railway.Interlocking.{Interlocking};
ghost use Rattle.cone_form.specs.Fits.{each_holder_fits, each_pair_fits, each_train_fits, names_fit, train_fits};
ghost use Rattle.cone_form.specs.Marks.{MarkRoutes, marked_pair};

use crate::lookup::is_named;
use crate::marks::{is_marked, rows_of};
use crate::walk::is_walk;
use cone_spec::{Cone, ConeTrain};
use interlocking::Interlocking;
use rail_base::plan::Command;
use rail_base::route::{RouteNo, RouteTable};
use std::alloc::{AllocError, Global};

/// Whether what is said of each train is possible.
pub fn trains_in_design(interlocking: &Interlocking, cone: &Cone) -> bool
    ensures { result ≡ each_train_fits interlocking.now cone.now }
{
    for entry in cone.trains.as_slice() {
        if !train_in_design(interlocking, entry) {
            return false;
        }
    }
    true
}

/// Whether each holder is a command of the cone.
pub fn holders_in_paths(cone: &Cone) -> bool
    ensures { (i : Interlocking) → result ≡ each_holder_fits i cone.now }
{
    for entry in cone.trains.as_slice() {
        if !holder_in_path(cone, entry.holder) {
            return false;
        }
    }
    true
}

/// Whether each pair is of two commands of the cone that contend.
pub fn pairs_in_design(
    alloc: Global,
    interlocking: &Interlocking,
    cone: &Cone,
) -> Result<bool, AllocError>
    requires { each_train_fits interlocking.now cone.now ≡ true }
    ensures { IfOk result (λ b. b ≡ each_pair_fits interlocking.now cone.now) }
{
    if cone.pairs.is_empty() {
        return Ok(true);
    }
    let rows = rows_of(alloc, interlocking, cone)?;
    Ok(are_pairs(interlocking, rows.as_slice(), cone.pairs.as_slice()))
}

/// Whether a number is one of `many`, counted from 1.
pub(crate) fn is_one_of(number: u32, many: usize) -> bool
    ensures { result ≡ is_from 1 many number }
{
    1 <= number && number as usize <= many
}

/// Whether all routes are there.
fn are_routes(routes: &RouteTable, path: &[RouteNo]) -> bool
    ensures { result ≡ list_all (λ r. is_from 1 (length routes.now) r.0) path.now }
{
    path.iter().all(|route| is_one_of(route.0, routes.len()))
}

/// Whether the train and its routes are there, and its horizon is at most the design's.
fn names_fit(interlocking: &Interlocking, entry: &ConeTrain) -> bool
    ensures { result ≡ names_fit interlocking.now entry.now }
{
    is_one_of(entry.train.0, interlocking.design.station.trains.len())
        && are_routes(&interlocking.routes, entry.path.as_slice())
        && entry.horizon <= interlocking.design.horizon()
}

/// Whether what is said of one train is possible.
fn train_in_design(interlocking: &Interlocking, entry: &ConeTrain) -> bool
    ensures { (k : Cone) → result ≡ train_fits interlocking.now k entry.now }
{
    if !names_fit(interlocking, entry) {
        return false;
    }
    entry.free as usize <= entry.path.len() && is_walk(&interlocking.routes, entry.path.as_slice())
}

/// Whether a holder, if there is one, is a command of the cone.
fn holder_in_path(cone: &Cone, holder: Option<Command>) -> bool
    ensures { (d : Station) (routes : List Route) → result ≡ holder_in_path d routes cone.now holder }
{
    match holder {
        Some(command) => is_named(cone, command),
        None => true,
    }
}

/// Whether two commands are of different trains and share a section.
fn contend(interlocking: &Interlocking, first: Command, second: Command) -> bool
    requires first { IsRoute interlocking.now.routes first.route }
    requires second { IsRoute interlocking.now.routes second.route }
    ensures { result ≡ contend interlocking.now.routes first second }
{
    first.train != second.train && interlocking.share(first.route, second.route)
}

/// Whether two commands are marked and contend.
fn is_pair(interlocking: &Interlocking, rows: &[Vec<bool>], pair: (Command, Command)) -> bool
    requires { MarkRoutes interlocking.now.routes (map (λ row. row.items) rows.now) }
    ensures { result ≡ marked_pair interlocking.now.routes (map (λ row. row.items) rows.now) pair }
{
    is_marked(rows, pair.0) && is_marked(rows, pair.1) && contend(interlocking, pair.0, pair.1)
}

/// Whether each of these pairs is.
fn are_pairs(interlocking: &Interlocking, rows: &[Vec<bool>], listed: &[(Command, Command)]) -> bool
    requires { MarkRoutes interlocking.now.routes (map (λ row. row.items) rows.now) }
    ensures { result ≡ list_all (marked_pair interlocking.now.routes (map (λ row. row.items) rows.now)) listed.now }
{
    listed.iter().all(|pair| is_pair(interlocking, rows, *pair))
}
