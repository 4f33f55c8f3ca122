//! Chains as certificates, with places that are widened from the last to the first.

ghost use Rattle.std.specs.Prelude.{◌<◌, length};

use crate::choosing::{Breadth, Choice, Form, Meeting, Wide};
use crate::routes::{has_route, leads_to, starts_at_boundary};
use crate::search::BoundSearch;
use bound_chains::known::route;
use bound_chains::paths::{Paths, Span};
use bound_spec::{Leg, Place};
use interlocking::Interlocking;
use rail_base::list::List;
use rail_base::route::{Finish, RouteNo};
use rail_base::station::TrainNo;
use std::alloc::{AllocError, Global};

/// Each stretch of each track is looked at in each tick; of a certificate that asks for more looks fewer ticks are
/// known.
const MOST_LOOKS: u64 = 33_554_432;

/// A leg that was widened, its least ticks and those of the leg before, and how many stretches its tracks have.
#[derive(Drop)]
struct Widened {
    leg: Leg,
    first: Meeting,
    ticks: u64,
    before: u64,
    stretches: u64,
}

impl BoundSearch<'_> {
    /// The legs of a chain's certificate, none where they can't be had in this breadth.
    pub(crate) fn legs(&mut self, form: &Form<'_>) -> Result<Option<List<Leg>>, AllocError> {
        let Some(mut ticks) = self.own_ticks(form)? else {
            return Ok(None);
        };
        let Some(mut slack) = slack(form, ticks.as_slice()) else {
            return Ok(None);
        };
        let mut legs = Vec::new(self.chains.alloc);
        let mut next: Option<Meeting> = None;
        let mut stretches = 0u64;
        for index in (0..form.legs.len()).rev() {
            let wide = self.wide(form, index, next.as_ref(), ticks.as_slice(), slack);
            let Some(widen) = self.widen(&wide)? else {
                return Ok(None);
            };
            let Widened {
                leg,
                first,
                ticks: own,
                before,
                stretches: more,
            } = widen;
            slack = slack.saturating_sub(wide.loss(own, before));
            set_ticks(&mut ticks, index, own);
            if index > 0 {
                set_ticks(&mut ticks, index - 1, before);
            }
            stretches = stretches.saturating_add(more);
            next = Some(first);
            legs.push(leg)?;
        }
        if !self.is_long(form, ticks.as_slice(), stretches) {
            return Ok(None);
        }
        Ok(Some(reverse_list(self.chains.alloc, legs)?))
    }

    /// The train of some commands in a row.
    fn train(&self, span: Span) -> TrainNo {
        match self.chains.paths.given.get(span.first) {
            Some(given) => given.command.train,
            None => TrainNo(0),
        }
    }

    /// The routes that start where one ends.
    fn after(&self, number: RouteNo) -> &[RouteNo] {
        match route(self.chains.interlocking, number) {
            Some(route) => self.chains.tables.after(route.finish),
            None => &[],
        }
    }

    /// How many stretches the tracks of a walk have, by itself and with each route that may follow.
    fn stretches_of_walk(&self, walk: &[RouteNo]) -> u64 {
        let mut own = 0u64;
        for number in walk {
            own = own.saturating_add(stretches_of_route(self.chains.interlocking, *number));
        }
        let mut count = own;
        if let Some(last) = walk.last() {
            for next in self.after(*last) {
                let more = stretches_of_route(self.chains.interlocking, *next);
                count = count.saturating_add(own).saturating_add(more);
            }
        }
        count
    }

    /// How many those of all walks have, each to so many places.
    fn stretches(&self, walks: &[Vec<RouteNo>], places: usize) -> u64 {
        let mut count = 0u64;
        for walk in walks {
            count = count.saturating_add(self.stretches_of_walk(walk.as_slice()));
        }
        count.saturating_mul(places as u64)
    }

    /// Adds the routes that end where one starts, unless they are there.
    fn add_before(&self, list: &mut Vec<RouteNo>, number: RouteNo) -> Result<(), AllocError> {
        let Some(route) = route(self.chains.interlocking, number) else {
            return Ok(());
        };
        for before in self.chains.tables.before(route.start) {
            if !has_route(list.as_slice(), *before) {
                list.push(*before)?;
            }
        }
        Ok(())
    }

    /// The routes of which a train uses one just before one of these.
    fn list_before(&self, next: &[RouteNo]) -> Result<Vec<RouteNo>, AllocError> {
        let mut list = Vec::new(self.chains.alloc);
        for route in next {
            self.add_before(&mut list, *route)?;
        }
        list.sort()?;
        Ok(list)
    }

    /// The best choice for the last place of a leg that another waits for: from the routes on which some visit can be
    /// made.
    fn choice_of_visits(
        &mut self,
        wide: &Wide<'_, '_>,
        place: usize,
        later: &[Vec<RouteNo>],
        own: RouteNo,
        most: usize,
    ) -> Result<Option<Choice>, AllocError> {
        let tables = self.chains.tables;
        let mut best = None;
        for list in tables.visits(wide.train) {
            if has_route(list.as_slice(), own) {
                let choice = self.choice(wide, place, later, list.as_slice(), most)?;
                best = better(best, choice);
            }
        }
        Ok(best)
    }

    /// The best choice for a place.
    fn best_choice(
        &mut self,
        wide: &Wide<'_, '_>,
        place: usize,
        later: &[Vec<RouteNo>],
        next: &[RouteNo],
        most: usize,
    ) -> Result<Option<Choice>, AllocError> {
        let Some(own) = wide.walk.get(place) else {
            return Ok(None);
        };
        if !wide.is_last(place) {
            let list = self.list_before(next)?;
            return self.choice(wide, place, later, list.as_slice(), most);
        }
        if wide.next.is_some() {
            return self.choice_of_visits(wide, place, later, *own, most);
        }
        let tables = self.chains.tables;
        match wide.form.goal.to {
            Some(to) => {
                let list = tables.visit(to.train, to.number);
                self.choice(wide, place, later, list, most)
            }
            None => Ok(None),
        }
    }

    /// Whether a visit can be made on no other route that goes on than the named one.
    fn is_visited(&self, wide: &Wide<'_, '_>, own: RouteNo) -> bool {
        let Some(to) = wide.form.goal.to else {
            return true;
        };
        if starts_at_boundary(self.chains.interlocking, own) {
            return true;
        }
        self.chains.tables.visit(to.train, to.number).iter().all(|other| *other == own
            || !goes_on(self.chains.interlocking, *other))
    }

    /// Whether the place may just name the leg's own route.
    fn may_be_named(
        &self,
        wide: &Wide<'_, '_>,
        place: usize,
        own: RouteNo,
        next: &[RouteNo],
    ) -> bool {
        if !wide.is_last(place) {
            return next
                .iter()
                .all(|route| leads_to(self.chains.interlocking, own, &[*route]));
        }
        wide.next.is_some() || self.is_visited(wide, own)
    }

    /// The choice of the leg's own route alone.
    fn own_choice(
        &mut self,
        wide: &Wide<'_, '_>,
        place: usize,
        later: &[Vec<RouteNo>],
        own: RouteNo,
    ) -> Result<Option<Choice>, AllocError> {
        let Some(ticks) = self.ticks_with(wide, place, own, later)? else {
            return Ok(None);
        };
        Ok(Some(Choice {
            routes: vec![in self.chains.alloc; own]?,
            without: Vec::new(self.chains.alloc),
            ticks,
            before: wide.ticks_before,
        }))
    }

    /// A place with its choice, none where there is none: the own route named where that is all.
    fn place(
        &mut self,
        wide: &Wide<'_, '_>,
        place: usize,
        later: &[Vec<RouteNo>],
        next: &[RouteNo],
        most: usize,
    ) -> Result<Option<(Place, Choice)>, AllocError> {
        let Some(own) = wide.walk.get(place) else {
            return Ok(None);
        };
        let named = self.may_be_named(wide, place, *own, next);
        let is_known = self.is_known(&wide.form, wide.train, *own);
        if !named || (wide.form.breadth != Breadth::Own && !is_known) {
            if let Some(choice) = self.best_choice(wide, place, later, next, most)? {
                let has_own = has_route(choice.routes.as_slice(), *own);
                if has_own && (!named || choice.routes.len() > 1) {
                    let place = Place::Among {
                        routes: List::from_vec(copy_routes(
                            self.chains.alloc,
                            choice.routes.as_slice(),
                        )?),
                        without: List::from_vec(copy_routes(
                            self.chains.alloc,
                            choice.without.as_slice(),
                        )?),
                    };
                    return Ok(Some((place, choice)));
                }
            }
        }
        if !named {
            return Ok(None);
        }
        let choice = self.own_choice(wide, place, later, *own)?;
        Ok(choice.map(|choice| (Place::Named { route: *own }, choice)))
    }

    /// A leg with its places, none where one of them can't be had.
    fn widen(&mut self, wide: &Wide<'_, '_>) -> Result<Option<Widened>, AllocError> {
        let alloc = self.chains.alloc;
        let targets = match wide.next {
            Some(next) => next.routes.len(),
            None => 1,
        };
        let mut most = wide.form.most_choices.checked_div(targets).unwrap_or(1);
        let mut walks = vec![in alloc; Vec::new(alloc)]?;
        let mut places = Vec::new(alloc);
        let mut next = Vec::new(alloc);
        let mut ticks = wide.ticks;
        let mut before = wide.ticks_before;
        for index in (0..wide.walk.len()).rev() {
            let Some((place, choice)) = self.place(
                wide,
                index,
                walks.as_slice(),
                next.as_slice(),
                most,
            )?
            else {
                return Ok(None);
            };
            places.push(place)?;
            let Choice {
                routes,
                without: _,
                ticks: least,
                before: least_before,
            } = choice;
            most = most.checked_div(routes.len()).unwrap_or(0).max(1);
            walks = longer(
                alloc,
                self.chains.interlocking,
                routes.as_slice(),
                walks.as_slice(),
            )?;
            next = routes;
            ticks = least;
            before = least_before;
        }
        Ok(Some(Widened {
            leg: Leg {
                train: wide.train,
                places: reverse_list(alloc, places)?,
            },
            first: Meeting {
                train: wide.train,
                routes: next,
            },
            ticks,
            before,
            stretches: self.stretches(walks.as_slice(), targets),
        }))
    }

    /// The least ticks of each leg while nothing is widened, none where of one nothing is known.
    fn own_ticks(&mut self, form: &Form<'_>) -> Result<Option<Vec<u64>>, AllocError> {
        let mut all = Vec::new(self.chains.alloc);
        let paths = self.chains.paths;
        for (index, span) in form.legs.iter().enumerate() {
            let walk = paths.walk(*span);
            let train = self.train(*span);
            let from = if index == 0 {
                form.goal.from_place()
            } else {
                None
            };
            let ticks = match (form.legs.get(index.saturating_add(1)), form.goal.to) {
                (Some(next), _) => match paths.routes.get(next.first) {
                    Some(route) => self.chains.ticks_to_release(train, walk, from, *route)?,
                    None => None,
                },
                (None, Some(to)) => self.chains.ticks_to_visit(train, walk, from, to)?,
                (None, None) => Some(0),
            };
            match ticks {
                Some(ticks) => all.push(ticks)?,
                None => return Ok(None),
            }
        }
        Ok(Some(all))
    }

    /// Whether the legs are still long enough if no more than so many stretches are looked at.
    fn is_long(&self, form: &Form<'_>, ticks: &[u64], stretches: u64) -> bool {
        let most = MOST_LOOKS.checked_div(stretches).unwrap_or(0);
        form.goal.takes_any() || form.goal.least <= total(ticks, most)
    }
}

/// A copy of routes.
fn copy_routes(alloc: Global, routes: &[RouteNo]) -> Result<Vec<RouteNo>, AllocError> {
    let mut copy = Vec::new(alloc);
    copy.extend_from_slice(routes)?;
    Ok(copy)
}

/// The values in reverse order.
fn reverse_list<T: Drop>(alloc: Global, items: Vec<T>) -> Result<List<T>, AllocError> {
    let mut items = items;
    let mut list = List::new(alloc);
    for _item in 0..items.len() {
        if let Some(item) = items.pop() {
            list.push(item)?;
        }
    }
    Ok(list)
}

/// The walks of which the first route is one of these.
fn longer(
    alloc: Global,
    interlocking: &Interlocking,
    routes: &[RouteNo],
    later: &[Vec<RouteNo>],
) -> Result<Vec<Vec<RouteNo>>, AllocError> {
    let mut walks = Vec::new(alloc);
    for route in routes {
        for walk in later {
            if leads_to(interlocking, *route, walk.as_slice()) {
                let mut longer = vec![in alloc; *route]?;
                longer.extend_from_slice(walk.as_slice())?;
                walks.push(longer)?;
            }
        }
    }
    Ok(walks)
}

/// The better of two choices: that which keeps fewer routes out, and then that with more routes.
fn better(one: Option<Choice>, other: Option<Choice>) -> Option<Choice> {
    match (one, other) {
        (Some(one), Some(other)) => {
            let fewer = other.without.len() < one.without.len();
            let same = other.without.len() == one.without.len();
            if fewer || (same && other.routes.len() > one.routes.len()) {
                Some(other)
            } else {
                Some(one)
            }
        }
        (Some(one), None) => Some(one),
        (None, other) => other,
    }
}

/// How many stretches the track of a route has.
fn stretches_of_route(interlocking: &Interlocking, number: RouteNo) -> u64 {
    match route(interlocking, number) {
        Some(route) => route.edges.len() as u64,
        None => 0,
    }
}

/// Whether a route ends at a signal.
fn goes_on(interlocking: &Interlocking, number: RouteNo) -> bool {
    match route(interlocking, number) {
        Some(route) => matches!(route.finish, Finish::Signal(_)),
        None => false,
    }
}

/// The ticks of a leg, by its place.
fn ticks_at(ticks: &[u64], index: usize) -> u64 {
    ticks.get(index).copied().unwrap_or(0)
}

/// Sets the ticks of a leg.
fn set_ticks(ticks: &mut [u64], index: usize, value: u64) {
    if let Some(place) = ticks.get_mut(index) {
        *place = value;
    }
}

impl<'a> BoundSearch<'a> {
    /// A leg before it is widened.
    fn wide<'b>(
        &self,
        form: &Form<'b>,
        index: usize,
        next: Option<&'b Meeting>,
        ticks: &[u64],
        slack: u64,
    ) -> Wide<'b, 'a>
        requires { index < length form.now.legs.now }
    {
        let paths: &'a Paths = self.chains.paths;
        let span = form.legs[index];
        let mut wide = Wide {
            form: *form,
            train: self.train(span),
            walk: paths.walk(span),
            from: None,
            before: None,
            before_from: None,
            next,
            ticks: ticks_at(ticks, index),
            ticks_before: 0,
            slack,
        };
        if index == 0 {
            wide.from = form.goal.from_place();
            return wide;
        }
        let span = form.legs[index - 1];
        wide.before = Some((self.train(span), paths.walk(span)));
        wide.ticks_before = ticks_at(ticks, index - 1);
        if index == 1 {
            wide.before_from = form.goal.from_place();
        }
        wide
    }
}

/// The ticks of legs that wait for each other, where of each no more than the most are known.
fn total(ticks: &[u64], most: u64) -> u64 {
    let mut total = (ticks.len() as u64).saturating_sub(1);
    for own in ticks {
        total = total.saturating_add((*own).min(most));
    }
    total
}

/// How many ticks may be lost; none where they are too few.
fn slack(form: &Form<'_>, ticks: &[u64]) -> Option<u64> {
    if form.goal.takes_any() {
        return Some(u64::MAX);
    }
    total(ticks, u64::MAX).checked_sub(form.goal.least)
}
