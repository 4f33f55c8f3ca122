//! What a certificate says of the places of its legs.

ghost use Rattle.std.specs.Prelude.{OnOk, map};
ghost use Rattle.bound_clause.specs.Said.{said_of_leg, said_of_legs, said_of_place, used_by};
ghost use Rattle.bound_clause.specs.Spoken.{Adds};

use crate::numbered::NumberedBound;
use crate::remainder::Remainder;
use bound_spec::{Leg, Place};
use rail_base::plan::Command;
use rail_base::route::RouteNo;
use rail_base::station::TrainNo;
use std::alloc::AllocError;

impl NumberedBound<'_> {
    /// Puts what is said of the places of all legs at the end.
    pub(crate) fn push_legs(&self, clause: &mut Remainder) -> Result<(), AllocError>
        ensures { OnOk result (Adds self.now clause.old clause.new (said_of_legs self.now.bound.now)) }
    {
        for leg in self.bound.legs.as_slice() {
            self.push_leg(clause, leg)?;
        }
        Ok(())
    }

    /// Puts that a train uses each of some routes at the end of a clause.
    fn push_used(
        &self,
        clause: &mut Remainder,
        train: TrainNo,
        routes: &[RouteNo],
    ) -> Result<(), AllocError>
        ensures { OnOk result (Adds self.now clause.old clause.new (map (used_by train) routes.now)) }
    {
        for number in routes {
            let route = *number;
            self.say_used(clause, Command { train, route }, false)?;
        }
        Ok(())
    }

    /// Puts what is said of one place of a train at the end.
    fn push_place(
        &self,
        clause: &mut Remainder,
        train: TrainNo,
        place: &Place,
    ) -> Result<(), AllocError>
        ensures { OnOk result (Adds self.now clause.old clause.new (said_of_place train place.now)) }
    {
        match place {
            Place::Named { route } => {
                let route = *route;
                self.say_used(clause, Command { train, route }, true)
            }
            Place::Among { without, .. } => self.push_used(clause, train, without.as_slice()),
        }
    }

    /// Puts what is said of the places of one leg at the end.
    fn push_leg(&self, clause: &mut Remainder, leg: &Leg) -> Result<(), AllocError>
        ensures { OnOk result (Adds self.now clause.old clause.new (said_of_leg leg.now)) }
    {
        for place in leg.places.as_slice() {
            self.push_place(clause, leg.train, place)?;
        }
        Ok(())
    }
}
