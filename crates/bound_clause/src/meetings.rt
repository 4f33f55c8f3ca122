//! What a certificate says of the order of the commands where two legs meet.

ghost use Rattle.std.specs.Prelude.{◌≡◌, [], ◌∷◌, OnOk};
ghost use Rattle.rail_base.specs.Members.{In};
ghost use Rattle.bound_spec.specs.Certificates.{first_of_leg, is_named_place, last_of_leg};
ghost use Rattle.bound_spec.specs.Clauses.{meet_named};
ghost use Rattle.bound_clause.specs.Said.{said_after, said_between, said_of_meetings, said_of_pair};
ghost use Rattle.bound_clause.specs.Spoken.{ContendAll, ContendWithAll, pairs_in, Adds};

use crate::numbered::NumberedBound;
use crate::remainder::Remainder;
use bound_spec::{Leg, Place, first_routes, last_routes};
use rail_base::plan::Command;
use rail_base::route::RouteNo;
use std::alloc::AllocError;

impl NumberedBound<'_> {
    /// Puts what is said of the commands with which legs meet at the end.
    pub(crate) fn push_meetings(&self, clause: &mut Remainder) -> Result<(), AllocError>
        ensures { OnOk result (Adds self.now clause.old clause.new (said_of_meetings self.now.bound.now.legs)) }
    {
        let legs = self.bound.legs.as_slice();
        for index in 1..legs.len() {
            self.push_between(clause, &legs[index - 1], &legs[index])?;
        }
        Ok(())
    }

    /// Puts what is said of the last command of one leg and the first of the next at the end.
    fn push_meeting(
        &self,
        clause: &mut Remainder,
        named: bool,
        last: Command,
        first: Command,
    ) -> Result<(), AllocError>
        requires { In (last, first) (pairs_in self.now) }
        ensures { OnOk result (Adds self.now clause.old clause.new (said_of_pair named last first ∷ [])) }
    {
        if named {
            self.say_before(clause, (last, first), true)
        } else {
            self.say_before(clause, (first, last), false)
        }
    }

    /// Puts what is said of one last command of a leg and each first one of the next at the end of a clause.
    fn push_after(
        &self,
        clause: &mut Remainder,
        named: bool,
        last: Command,
        next: &Leg,
    ) -> Result<(), AllocError>
        requires { ContendWithAll (pairs_in self.now) last next.now }
        ensures { OnOk result (Adds self.now clause.old clause.new (said_after named last next.now)) }
    {
        for number in first_routes(next) {
            let first = Command {
                train: next.train,
                route: *number,
            };
            self.push_meeting(clause, named, last, first)?;
        }
        Ok(())
    }

    /// Puts what is said of the commands with which two legs meet at the end.
    fn push_between(&self, clause: &mut Remainder, leg: &Leg, next: &Leg) -> Result<(), AllocError>
        requires { ContendAll (pairs_in self.now) leg.now next.now }
        ensures { OnOk result (Adds self.now clause.old clause.new (said_between leg.now next.now)) }
    {
        let named = meet_named(leg, next);
        for number in last_routes(leg) {
            let last = Command {
                train: leg.train,
                route: *number,
            };
            self.push_after(clause, named, last, next)?;
        }
        Ok(())
    }
}

/// Whether a place names its route.
fn is_named_place(place: &Place) -> bool
    ensures { result ≡ is_named_place place.now }
{
    matches!(place, Place::Named { .. })
}

/// Whether a leg's first place names its route.
fn is_first_named(leg: &Leg) -> bool
    ensures { result ≡ is_named_place (first_of_leg leg.now) }
{
    match leg.places.as_slice().first() {
        Some(place) => is_named_place(place),
        None => false,
    }
}

/// Whether a leg's last place names its route.
fn is_last_named(leg: &Leg) -> bool
    ensures { result ≡ is_named_place (last_of_leg leg.now) }
{
    match leg.places.as_slice().last() {
        Some(place) => is_named_place(place),
        None => false,
    }
}

/// Whether the places at which two legs meet each name their route.
fn meet_named(leg: &Leg, next: &Leg) -> bool
    ensures { result ≡ meet_named leg.now next.now }
{
    is_last_named(leg) && is_first_named(next)
}
