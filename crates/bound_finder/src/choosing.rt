//! Which routes a place of a leg may have.

use crate::routes::{has_route, leads_to, starts_at_boundary, starts_like};
use crate::search::BoundSearch;
use bound_chains::goals::Goal;
use bound_chains::known::{contend_over_own, route};
use bound_chains::paths::Span;
use bound_spec::Origin;
use cone_form::is_named;
use leg_targets::Visit;
use rail_base::plan::Command;
use rail_base::route::{Finish, RouteNo, Start};
use rail_base::station::TrainNo;
use std::alloc::AllocError;

/// How far places are widened.
#[derive(Clone, Copy, PartialEq, Eq)]
pub(crate) enum Breadth {
    /// To all routes that may be used there.
    Whole,
    /// To those that start where the train's own route does, except at the first place of a leg.
    Alike,
    /// To no more than has to be.
    Own,
}

/// A chain that is widened.
#[derive(Clone, Copy)]
pub(crate) struct Form<'a> {
    pub goal: &'a Goal,
    pub origin: &'a Origin,
    pub legs: &'a [Span],
    pub breadth: Breadth,
    /// No leg gets more choices of one route for each place.
    pub most_choices: usize,
}

/// The first place of a leg that waits for another.
#[derive(Drop)]
pub(crate) struct Meeting {
    pub train: TrainNo,
    pub routes: Vec<RouteNo>,
}

/// A leg that is widened, and what it meets.
#[derive(Clone, Copy)]
pub(crate) struct Wide<'a, 'b> {
    pub form: Form<'a>,
    pub train: TrainNo,
    pub walk: &'b [RouteNo],
    /// The visit from whose place its ticks are counted.
    pub from: Option<Visit>,
    /// The leg before it, with its train and walk.
    pub before: Option<(TrainNo, &'b [RouteNo])>,
    /// What the leg before it counts from.
    pub before_from: Option<Visit>,
    /// The first place of the leg behind it.
    pub next: Option<&'a Meeting>,
    /// The ticks of this leg and of the one before, while nothing is widened, and how many of them may be lost.
    pub ticks: u64,
    pub ticks_before: u64,
    pub slack: u64,
}

/// The routes that a place gets and that it keeps out, the least ticks of the leg over them, and of the leg before.
#[derive(Drop)]
pub(crate) struct Choice {
    pub routes: Vec<RouteNo>,
    pub without: Vec<RouteNo>,
    pub ticks: u64,
    pub before: u64,
}

impl Wide<'_, '_> {
    /// Whether this is the leg's last place.
    pub(crate) fn is_last(&self, place: usize) -> bool {
        self.walk.len() <= place.saturating_add(1)
    }

    /// How many ticks are lost.
    pub(crate) fn loss(&self, ticks: u64, before: u64) -> u64 {
        let own = self.ticks.saturating_sub(ticks);
        let other = self.ticks_before.saturating_sub(before);
        own.saturating_add(other)
    }
}

impl BoundSearch<'_> {
    /// Whether a train uses a route by the cone from which ticks are counted: it names it, or one that no other can
    /// follow.
    pub(crate) fn is_known(&self, form: &Form<'_>, train: TrainNo, number: RouteNo) -> bool {
        if form.names(train, number) {
            return true;
        }
        let Some(route) = route(self.chains.interlocking, number) else {
            return false;
        };
        let Start::Signal(signal) = route.start else {
            return false;
        };
        let before = self.chains.tables.before(route.start);
        let is_only = self.chains.tables.after(Finish::Signal(signal)).len() == 1;
        is_only && before.iter().any(|before| form.names(train, *before))
    }

    /// Whether the plan gives a train a route.
    pub(crate) fn is_used(&self, train: TrainNo, route: RouteNo) -> bool {
        self.chains.paths.step(Command { train, route }).is_some()
    }

    /// The least ticks of a leg with a route at a place, over its own routes before and these walks behind; none where
    /// on one of them nothing is known.
    pub(crate) fn ticks_with(
        &mut self,
        wide: &Wide<'_, '_>,
        place: usize,
        route: RouteNo,
        later: &[Vec<RouteNo>],
    ) -> Result<Option<u64>, AllocError> {
        let mut least = u64::MAX;
        let mut walk = Vec::new(self.chains.alloc);
        for own in wide.walk.iter().take(place) {
            walk.push(*own)?;
        }
        if let Some(own) = walk.as_slice().last() {
            if !leads_to(self.chains.interlocking, *own, &[route]) {
                return Ok(Some(least));
            }
        }
        walk.push(route)?;
        let length = walk.len();
        for rest in later {
            if !leads_to(self.chains.interlocking, route, rest.as_slice()) {
                continue;
            }
            walk.truncate(length);
            walk.extend_from_slice(rest.as_slice())?;
            match self.ticks_of_walk(wide, walk.as_slice())? {
                Some(ticks) => least = least.min(ticks),
                None => return Ok(None),
            }
        }
        Ok(Some(least))
    }

    /// The routes of a list that a place may have, and the rest kept out; none where one that the plan uses may not be
    /// had.
    pub(crate) fn choice(
        &mut self,
        wide: &Wide<'_, '_>,
        place: usize,
        later: &[Vec<RouteNo>],
        list: &[RouteNo],
        most: usize,
    ) -> Result<Option<Choice>, AllocError> {
        let mut choice = Choice {
            routes: Vec::new(self.chains.alloc),
            without: Vec::new(self.chains.alloc),
            ticks: u64::MAX,
            before: u64::MAX,
        };
        for route in list {
            if self.is_used(wide.train, *route)
                && !self.try_route(wide, place, later, &mut choice, *route)?
            {
                return Ok(None);
            }
        }
        for route in list {
            if self.is_used(wide.train, *route) {
                continue;
            }
            let widens = wide.form.breadth != Breadth::Own && choice.routes.len() < most;
            if !widens || !self.try_route(wide, place, later, &mut choice, *route)? {
                choice.without.push(*route)?;
            }
        }
        if choice.routes.len() > most {
            return Ok(None);
        }
        choice.routes.sort()?;
        Ok(Some(choice))
    }

    /// Whether a train uses a route after another command is given.
    fn is_after(&self, command: Command, earlier: Command) -> bool {
        match (
            self.chains.paths.step(command),
            self.chains.paths.step(earlier),
        ) {
            (Some(step), Some(other)) => other < step,
            _ => true,
        }
    }

    /// Whether a route of a leg's first place may be the first of a path, or make the visit with which the leg begins.
    fn may_begin(&self, wide: &Wide<'_, '_>, route: RouteNo) -> bool {
        if wide.before.is_some() {
            return true;
        }
        let Some(visit) = wide.form.goal.begins_with() else {
            return true;
        };
        if visit.number <= 1 {
            return starts_at_boundary(self.chains.interlocking, route);
        }
        has_route(self.chains.tables.visit(visit.train, visit.number), route)
    }

    /// Whether a route of a leg's first place has a section that what the leg waits for goes over, and is not used
    /// before that.
    fn may_wait(&self, wide: &Wide<'_, '_>, route: RouteNo) -> bool {
        let Some((train, walk)) = wide.before else {
            return true;
        };
        let Some(last) = walk.last() else {
            return false;
        };
        let earlier = Command {
            train,
            route: *last,
        };
        let own = Command {
            train: wide.train,
            route,
        };
        contend_over_own(self.chains.interlocking, earlier, own) && self.is_after(own, earlier)
    }

    /// Whether all that wait for the leg have a section that a route of its last place goes over, and none of them is
    /// used before it.
    fn may_release(&self, wide: &Wide<'_, '_>, route: RouteNo) -> bool {
        let Some(next) = wide.next else {
            return true;
        };
        let own = Command {
            train: wide.train,
            route,
        };
        next.routes.iter().all(|other| {
            let later = Command {
                train: next.train,
                route: *other,
            };
            contend_over_own(self.chains.interlocking, own, later) && self.is_after(later, own)
        })
    }

    /// Whether a route starts where the leg's own route does.
    fn is_alike(&self, wide: &Wide<'_, '_>, place: usize, route: RouteNo) -> bool {
        match wide.walk.get(place) {
            Some(own) => starts_like(self.chains.interlocking, route, *own),
            None => false,
        }
    }

    /// Whether a route may be one of a place, apart from the ticks.
    fn admits(&self, wide: &Wide<'_, '_>, place: usize, route: RouteNo) -> bool {
        if place > 0 {
            if starts_at_boundary(self.chains.interlocking, route) {
                return false;
            }
            if wide.form.breadth == Breadth::Alike && !self.is_alike(wide, place, route) {
                return false;
            }
        } else if !self.may_begin(wide, route) || !self.may_wait(wide, route) {
            return false;
        }
        !wide.is_last(place) || self.may_release(wide, route)
    }

    /// The least ticks of a leg on one walk.
    fn ticks_of_walk(
        &mut self,
        wide: &Wide<'_, '_>,
        walk: &[RouteNo],
    ) -> Result<Option<u64>, AllocError> {
        let Some(next) = wide.next else {
            return match wide.form.goal.to {
                Some(to) => self.chains.ticks_to_visit(wide.train, walk, wide.from, to),
                None => Ok(Some(0)),
            };
        };
        let mut least = u64::MAX;
        for route in &next.routes {
            match self
                .chains
                .ticks_to_release(wide.train, walk, wide.from, *route)?
            {
                Some(ticks) => least = least.min(ticks),
                None => return Ok(None),
            }
        }
        Ok(Some(least))
    }

    /// The least ticks of the leg before one to where it has released what a route waits for.
    fn ticks_before(
        &mut self,
        wide: &Wide<'_, '_>,
        place: usize,
        route: RouteNo,
    ) -> Result<Option<u64>, AllocError> {
        if place > 0 {
            return Ok(Some(wide.ticks_before));
        }
        match wide.before {
            Some((train, walk)) => self
                .chains
                .ticks_to_release(train, walk, wide.before_from, route),
            None => Ok(Some(wide.ticks_before)),
        }
    }

    /// Adds a route to a choice where that leaves the legs long enough; whether it did.
    fn try_route(
        &mut self,
        wide: &Wide<'_, '_>,
        place: usize,
        later: &[Vec<RouteNo>],
        choice: &mut Choice,
        route: RouteNo,
    ) -> Result<bool, AllocError> {
        if !self.admits(wide, place, route) {
            return Ok(false);
        }
        let Some(ticks) = self.ticks_with(wide, place, route, later)? else {
            return Ok(false);
        };
        let Some(before) = self.ticks_before(wide, place, route)? else {
            return Ok(false);
        };
        let ticks = ticks.min(choice.ticks);
        let before = before.min(choice.before);
        if wide.loss(ticks, before) > wide.slack {
            return Ok(false);
        }
        choice.routes.push(route)?;
        choice.ticks = ticks;
        choice.before = before;
        Ok(true)
    }
}

impl Form<'_> {
    /// Whether the cone from which ticks are counted names a train's command with a route.
    fn names(&self, train: TrainNo, route: RouteNo) -> bool {
        match self.origin {
            Origin::Cone { cone, .. } => is_named(cone, Command { train, route }),
            Origin::Visit | Origin::Start | Origin::FirstTick => false,
        }
    }
}
