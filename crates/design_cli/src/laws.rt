//! Laws of the answers, each the contract of a function that does nothing.

ghost use Rattle.design_cli.specs.Laws.{GoesThereAndBack, PlansRefuseAsSimulate, PrintsPlansWhereThereIsAVerdict};
ghost use Rattle.design_cli.specs.Laws.{PrintsWhereRoutesAreListed, RefusesAsRoutes};

/// Where `rcv routes` does not list the routes of a design, the answer is the same, by status and line.
pub fn refuses_as_routes()
    ensures { RefusesAsRoutes }
{}

/// Where it does, the answer has the status 0 and the lines of the design in the bytes.
pub fn prints_where_routes_are_listed()
    ensures { PrintsWhereRoutesAreListed }
{}

/// Where `rcv simulate` comes to no verdict on a plan, the answer that prints it with names is the same, by status and
/// line.
pub fn plans_refuse_as_simulate()
    ensures { PlansRefuseAsSimulate }
{}

/// Where it comes to one, the answer has the status 0 and the lines with names of the plan in the bytes.
pub fn prints_plans_where_there_is_a_verdict()
    ensures { PrintsPlansWhereThereIsAVerdict }
{}

/// A plan that is printed in one form is read from these lines, and printed in the other form as the plan that it is,
/// as long as they are no longer than a plan's file may be.
pub fn goes_there_and_back()
    ensures { GoesThereAndBack }
{}
