//! What the clause of a cone says of single commands.

ghost use Rattle.std.specs.Prelude.{◌≡◌, ◌++◌, All, OnOk, true};
ghost use Rattle.rail_base.specs.Routes.{IsRoute};
ghost use Rattle.cone_spec.specs.Cones.{named};
ghost use Rattle.cone_form.specs.Marks.{MarksPath};
ghost use Rattle.cone_clause.specs.Contentions.{among};
ghost use Rattle.cone_clause.specs.Spoken.{given_number, routes_in, said_of_commands, said_of_train, used_sign};

use crate::numbered::NumberedCone;
use crate::onward::{goes_further, is_closed};
use crate::signs::push_signed;
use cone_form::{has_mark, marks_of, path};
use rail_base::plan::Command;
use rail_base::route::{RouteNo, RouteTable, route_at};
use rail_base::station::TrainNo;
use sat_clause::Lit;
use std::alloc::{AllocError, Global};

impl NumberedCone<'_> {
    /// Puts what the clause says of all commands at its end, by train and then by route. It says nothing of a train
    /// without a path.
    pub(crate) fn push_used(&self, alloc: Global, clause: &mut Vec<Lit>) -> Result<(), AllocError>
        ensures { OnOk result (clause.new.items ≡ clause.old.items ++ said_of_commands self.now) }
    {
        let trains = self.contention.interlocking.design.station.trains.len();
        for number in 1..trains as u32 + 1 {
            let train = TrainNo(number);
            if !path(self.cone, train).is_empty() {
                self.push_used_of(alloc, clause, train)?;
            }
        }
        Ok(())
    }

    /// The number of the variable that a command that the base speaks of is given by the last step.
    fn used_number(&self, command: Command) -> u32
        requires { among self.now.contention command ≡ true }
        ensures { result ≡ given_number self.now command }
    {
        self.contention
            .used_number(self.steps, command)
            .unwrap_or(0)
    }

    /// Puts what the clause says of the commands of a train with a path at its end.
    fn push_used_of(
        &self,
        alloc: Global,
        clause: &mut Vec<Lit>,
        train: TrainNo,
    ) -> Result<(), AllocError>
        requires { All (IsRoute (routes_in self.now)) (named self.now.cone.now train).path }
        ensures { OnOk result (clause.new.items ≡ clause.old.items ++ said_of_train self.now train) }
    {
        let routes = &self.contention.interlocking.routes;
        let path = path(self.cone, train);
        let marks = marks_of(alloc, routes, path)?;
        let closed = is_closed(self.cone, train);
        for route in self.contention.pairs.commands().routes_of(train) {
            let command = Command {
                train,
                route: *route,
            };
            let sign = used_sign(routes, path, &marks, closed, *route);
            push_signed(clause, self.used_number(command), sign)?;
        }
        Ok(())
    }
}

/// Whether the clause says that a route of a train with this path is not used, or that it is, or neither.
fn used_sign(
    routes: &RouteTable,
    path: &[RouteNo],
    marks: &[bool],
    closed: bool,
    route: RouteNo,
) -> Option<bool>
    requires path { All (IsRoute routes.now) path.now }
    requires marks { MarksPath path.now marks.now }
    requires route { IsRoute routes.now route }
    ensures { result ≡ used_sign routes.now path.now closed route }
{
    if has_mark(marks, route) {
        return Some(true);
    }
    if closed && goes_further(routes, path, route_at(routes, route)) {
        return Some(false);
    }
    None
}
