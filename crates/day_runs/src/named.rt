//! Whether a plan can be run.

ghost use Rattle.std.specs.Prelude.{◌≡◌, IsTrue, true};
ghost use Rattle.interlocking.specs.Plans.{IsWellFormed, names_only};
ghost use Rattle.rail_spec.specs.Feasible.{is_of};
ghost use Rattle.std.specs.List.{list_all};

use interlocking::Interlocking;
use rail_base::list::List;
use rail_base::plan::{Command, Plan};
use rail_plan::formed::well_formed;

/// The most steps of a plan.
const MOST_STEPS: u32 = 256;

/// Whether a plan names only what is there and is well formed.
pub(crate) fn can_be_run(interlocking: &Interlocking, plan: &Plan) -> bool
    ensures { IsTrue result → IsWellFormed interlocking.now 256 plan.now.steps }
{
    names_only(interlocking, plan) && well_formed(interlocking, plan, MOST_STEPS).is_none()
}

/// Whether a command names a train and a route.
fn is_of(interlocking: &Interlocking, command: Command) -> bool
    ensures { result ≡ is_of interlocking.now.design.station interlocking.now.routes command }
{
    let trains = interlocking.design.station.trains.len();
    let routes = interlocking.routes.len();
    1 <= command.train.0
        && command.train.0 as usize <= trains
        && 1 <= command.route.0
        && command.route.0 as usize <= routes
}

/// Whether each command of a step does.
fn all_are_of(interlocking: &Interlocking, step: &List<Command>) -> bool
    ensures { result ≡ list_all (is_of interlocking.now.design.station interlocking.now.routes) step.now }
{
    step.as_slice()
        .iter()
        .all(|command| is_of(interlocking, *command))
}

/// Whether each command of each step does.
fn all_steps_are_of(interlocking: &Interlocking, plan: &Plan) -> bool
    ensures { result ≡ list_all
        (list_all (is_of interlocking.now.design.station interlocking.now.routes)) plan.now.steps }
{
    plan.steps
        .as_slice()
        .iter()
        .all(|step| all_are_of(interlocking, step))
}

/// Whether each command of a plan does.
fn names_only(interlocking: &Interlocking, plan: &Plan) -> bool
    ensures { result ≡ names_only interlocking.now plan.now.steps }
{
    all_steps_are_of(interlocking, plan)
}
