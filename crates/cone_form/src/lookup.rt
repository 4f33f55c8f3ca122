//! What a cone says of a train, of a command and of two commands.

ghost use Rattle.std.specs.Prelude.{◌≡◌, MatchOption, find, option_map, take};
ghost use Rattle.rail_spec.specs.Plans.{is_command, is_train};
ghost use Rattle.cone_spec.specs.Cones.{free_path, has_route, is_free, is_named, named, unnamed};

use cone_spec::{Cone, ConeTrain};
use rail_base::plan::Command;
use rail_base::route::RouteNo;
use rail_base::station::TrainNo;

/// What the cone says of a train; None where it doesn't name it, so that its horizon is 0 and it has no command.
pub fn entry_of(cone: &Cone, train: TrainNo) -> Option<&ConeTrain>
    ensures entry { MatchOption result (named cone.now train ≡ unnamed train) (λ e. e.now ≡ named cone.now train) }
    ensures found { option_map (λ e. e.now) result ≡ find (λ e. is_train e.train train) cone.now.trains }
{
    for entry in cone.trains.as_slice() {
        if entry.train == train {
            return Some(entry);
        }
    }
    None
}

/// The routes of a train's path in the cone, in order.
pub fn path(cone: &Cone, train: TrainNo) -> &[RouteNo]
    ensures { result.now ≡ (named cone.now train).path }
{
    match entry_of(cone, train) {
        Some(entry) => entry.path.as_slice(),
        None => &[],
    }
}

/// The routes of its free commands, which come first.
pub fn free_path(cone: &Cone, train: TrainNo) -> &[RouteNo]
    ensures { result.now ≡ free_path cone.now train }
{
    match entry_of(cone, train) {
        Some(entry) => prefix(entry.path.as_slice(), entry.free as usize),
        None => &[],
    }
}

/// Whether the command is of the cone, free or waiting.
pub fn is_named(cone: &Cone, command: Command) -> bool
    ensures { result ≡ is_named cone.now command }
{
    has_route(path(cone, command.train), command.route)
}

/// Whether the command is a free one of the cone.
pub fn is_free(cone: &Cone, command: Command) -> bool
    ensures { result ≡ is_free cone.now command }
{
    has_route(free_path(cone, command.train), command.route)
}

/// Whether two commands are one.
pub(crate) fn is_command(one: Command, other: Command) -> bool
    ensures { result ≡ is_command one other }
{
    one == other
}

/// The first routes of a path, so many or all.
fn prefix(path: &[RouteNo], many: usize) -> &[RouteNo]
    ensures { result.now ≡ take many path.now }
{
    &path[..many.min(path.len())]
}

/// Whether a route is one of these.
fn has_route(routes: &[RouteNo], route: RouteNo) -> bool
    ensures { result ≡ has_route routes.now route }
{
    routes.iter().any(|other| other.0 == route.0)
}
