//! The literals and the commands of an encoder.

ghost use Rattle.std.specs.Prelude.{◌≡◌, ◌≤◌, ◌++◌, All, IfOk, OnOk, length, filter};
ghost use Rattle.rail_base.specs.Routes.{IsRoute};
ghost use Rattle.rail_base.specs.Stations.{IsTrain};
ghost use Rattle.clause_spec.specs.Variables.{Given, yes, no, if_given};
ghost use Rattle.live_clause_spec.specs.Listed.{is_live_for};
ghost use Rattle.live_clause_spec.specs.Variables.{live_number, live_numbered};
ghost use Rattle.command_set.specs.Commands.{is_among};
ghost use Rattle.plan_encoding.specs.Encoders.{HasCommands, IsCommand, among, commands, station, table, written};
ghost use Rattle.plan_encoding.specs.Families.{routes_of};

use crate::encoder::Encoder;
use crate::links::push_if;
use rail_base::plan::Command;
use rail_base::route::RouteNo;
use rail_base::station::TrainNo;
use sat_clause::Lit;
use std::alloc::{AllocError, Global};

impl Encoder<'_> {
    /// The literal that a command is given by a step.
    pub fn given_lit(&self, command: Command, step: u32) -> Lit
        requires command { IsCommand self.now command }
        requires step { step ≤ self.now.steps.count }
        ensures { result ≡ among self.now live_numbered (yes (Given command step)) }
    {
        Lit {
            var: self.given_number(command, step),
            negated: false,
        }
    }

    /// The literal that a command is not given by a step.
    pub fn not_given_lit(&self, command: Command, step: u32) -> Lit
        requires command { IsCommand self.now command }
        requires step { step ≤ self.now.steps.count }
        ensures { result ≡ among self.now live_numbered (no (Given command step)) }
    {
        Lit {
            var: self.given_number(command, step),
            negated: true,
        }
    }

    /// Puts the literal that a command is given by a step at the end of a clause; for step 0 there is none.
    pub fn push_if_given(
        &self,
        clause: &mut Vec<Lit>,
        command: Command,
        step: u32,
    ) -> Result<(), AllocError>
        requires command { IsCommand self.now command }
        requires step { step ≤ self.now.steps.count }
        ensures { OnOk result (clause.new.items ≡ clause.old.items ++ written self.now (if_given command step)) }
    {
        if step > 0 {
            clause.push(self.given_lit(command, step))?;
        }
        Ok(())
    }

    /// The commands that the base speaks of, by train and then by route.
    pub fn commands(&self) -> &[Command]
        ensures value { result.now ≡ commands self.now }
        ensures known { All (IsCommand self.now) result.now }
        ensures bound { length result.now ≤ 256000 }
    {
        self.pairs.commands().commands()
    }

    /// The routes of a train's commands, in order.
    pub fn routes_of(&self, train: TrainNo) -> &[RouteNo]
        requires train { IsTrain (station self.now) train }
        ensures value { result.now ≡ routes_of self.now train }
        ensures known { HasCommands self.now train result.now }
    {
        self.pairs.commands().routes_of(train)
    }

    /// Those of the routes for which the train has a command.
    pub fn routes_among(
        &self,
        alloc: Global,
        train: TrainNo,
        routes: &[RouteNo],
    ) -> Result<Vec<RouteNo>, AllocError>
        requires train { IsTrain (station self.now) train }
        requires routes { All (IsRoute (table self.now)) routes.now }
        ensures value { IfOk result (λ rs. rs.items
            ≡ filter (is_live_for (is_among (commands self.now)) train) routes.now) }
        ensures known { IfOk result (λ rs. HasCommands self.now train rs.items) }
    {
        let mut among = Vec::new(alloc);
        for route in routes {
            let command = Command {
                train,
                route: *route,
            };
            push_if(&mut among, *route, self.pairs.commands().contains(command))?;
        }
        Ok(among)
    }

    /// The number of the variable that a command is given by a step.
    pub fn given_number(&self, command: Command, step: u32) -> u32
        requires command { IsCommand self.now command }
        requires step { step ≤ self.now.steps.count }
        ensures { result ≡ among self.now live_number (Given command step) }
    {
        let place = self.pairs.commands().number(command).unwrap_or(0);
        place * self.steps.count + step
    }
}
