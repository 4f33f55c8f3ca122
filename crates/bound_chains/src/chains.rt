//! The longest chains of commands that wait for each other, layer by layer.

ghost use Rattle.std.specs.Prelude.{◌<◌, IfOk, IfSome, length};

use crate::goals::Goal;
use crate::known::{route, visit_place};
use crate::links::Link;
use crate::paths::Span;
use crate::search::ChainSearch;
use interlocking::Interlocking;
use leg_targets::Visit;
use rail_base::route::RouteNo;
use std::alloc::{AllocError, Global};

/// A certificate has no more places, so a chain has no more legs.
const MOST_PLACES: usize = 64;

/// What the best chain of a layer to a command is worth, and its last link; none for a chain without links.
#[derive(Clone, Copy)]
struct Arrival {
    worth: u64,
    link: Option<Link>,
}

/// The last leg of a chain, and what it is worth.
#[derive(Clone, Copy)]
struct End {
    span: Span,
    worth: u64,
}

impl ChainSearch<'_> {
    /// The legs, one at the least, of the chain of fewest links that is long enough for a goal to fail, and of these
    /// the longest; none where there is none, or it has more than 64 places.
    ///
    /// # Errors
    ///
    /// Want of memory alone.
    pub fn chain(&mut self, goal: &Goal, links: &[Link]) -> Result<Option<Vec<Span>>, AllocError>
        ensures { IfOk result (λ found. IfSome found (λ legs. 0 < length legs.items)) }
    {
        let Some(mut layer) = self.first_layer(goal)? else {
            return Ok(None);
        };
        let ends = self.ends(goal, None)?;
        let mut best = vec![in self.alloc; 0; layer.len()]?;
        let mut layers = Vec::new(self.alloc);
        for _links in 0..MOST_PLACES {
            let next = match (layers.is_empty(), goal.from_place()) {
                (true, Some(visit)) => {
                    let own = self.ends_from(goal, visit)?;
                    if let Some(last) = best_end(goal, layer.as_slice(), own.as_slice()) {
                        return self.chain_of(layers, layer, last);
                    }
                    let own = self.links_of_visit(links, visit)?;
                    grow_arrivals(self.alloc, goal, layer.as_slice(), &own, &mut best)?
                }
                _ => {
                    if let Some(last) = best_end(goal, layer.as_slice(), ends.as_slice()) {
                        return self.chain_of(layers, layer, last);
                    }
                    grow_arrivals(self.alloc, goal, layer.as_slice(), links, &mut best)?
                }
            };
            layers.push(layer)?;
            match next {
                Some(next) => layer = next,
                None => return Ok(None),
            }
        }
        Ok(None)
    }

    /// The command with which the first leg of a goal begins, where it begins with a visit.
    fn first_of_goal(&self, visit: Visit) -> Option<usize> {
        let (first, end) = self.paths.span(visit.train);
        if visit.number <= 1 {
            return if first < end { Some(first) } else { None };
        }
        let routes = self.tables.visit(visit.train, visit.number);
        if visit.number > 2 && !is_made_at_end(self.interlocking, visit, routes) {
            return None;
        }
        for index in first..end {
            let route = *self.paths.routes.get(index)?;
            if routes.iter().any(|other| *other == route) {
                return Some(index);
            }
        }
        None
    }

    /// The chains without links, if there are any: that of the command with which the first leg begins, or all.
    fn first_layer(&self, goal: &Goal) -> Result<Option<Vec<Option<Arrival>>>, AllocError> {
        let start = Some(Arrival {
            worth: 0,
            link: None,
        });
        let count = self.paths.given.len();
        let Some(visit) = goal.begins_with() else {
            return Ok(Some(vec![in self.alloc; start; count]?));
        };
        let Some(first) = self.first_of_goal(visit) else {
            return Ok(None);
        };
        let mut layer = vec![in self.alloc; None; count]?;
        if let Some(place) = layer.get_mut(first) {
            *place = start;
        }
        Ok(Some(layer))
    }

    /// The last legs of a goal, with ticks from the grant of their first command, or from a visit's place on their
    /// first route.
    fn ends(&mut self, goal: &Goal, from: Option<Visit>) -> Result<Vec<End>, AllocError> {
        let mut ends = Vec::new(self.alloc);
        let Some(last) = self.last_of_goal(goal) else {
            return Ok(ends);
        };
        let Some(to) = goal.to else {
            let span = Span { first: last, last };
            ends.push(End { span, worth: 0 })?;
            return Ok(ends);
        };
        let (start, _) = self.paths.span(goal.train);
        let paths = self.paths;
        for first in start..last.saturating_add(1) {
            let span = Span { first, last };
            let ticks = self.ticks_to_visit(goal.train, paths.walk(span), from, to)?;
            if let Some(ticks) = ticks {
                let worth = worth(goal, span, ticks);
                ends.push(End { span, worth })?;
            }
        }
        Ok(ends)
    }

    /// The last legs that are the first too, with ticks from a visit's place.
    fn ends_from(&mut self, goal: &Goal, visit: Visit) -> Result<Vec<End>, AllocError> {
        if goal.train != visit.train {
            return Ok(Vec::new(self.alloc));
        }
        self.ends(goal, Some(visit))
    }

    /// The links of the first leg where ticks are counted from a visit's place.
    fn links_of_visit(&mut self, links: &[Link], visit: Visit) -> Result<Vec<Link>, AllocError> {
        match self.first_of_goal(visit) {
            Some(first) => self.links_from(links, first, visit),
            None => Ok(Vec::new(self.alloc)),
        }
    }

    /// The legs of a chain over layers, where they have few places.
    fn chain_of(
        &self,
        layers: Vec<Vec<Option<Arrival>>>,
        layer: Vec<Option<Arrival>>,
        last: Span,
    ) -> Result<Option<Vec<Span>>, AllocError>
        ensures { IfOk result (λ found. IfSome found (λ legs. 0 < length legs.items)) }
    {
        let mut layers = layers;
        layers.push(layer)?;
        let legs = legs(self.alloc, layers.as_slice(), last)?;
        Ok(if are_few(legs.as_slice()) {
            Some(legs)
        } else {
            None
        })
    }
}

/// How many commands these are.
fn count(span: Span) -> usize {
    span.last.saturating_add(1).saturating_sub(span.first)
}

/// What a leg is worth: its ticks, or where any will do, how few places it has.
fn worth(goal: &Goal, span: Span, ticks: u64) -> u64 {
    if goal.takes_any() {
        return (MOST_PLACES as u64).saturating_sub(count(span) as u64);
    }
    ticks
}

/// The arrivals one link further on, where they are worth more than any before.
fn grow_arrivals(
    alloc: Global,
    goal: &Goal,
    layer: &[Option<Arrival>],
    links: &[Link],
    best: &mut Vec<u64>,
) -> Result<Option<Vec<Option<Arrival>>>, AllocError> {
    let mut next = vec![in alloc; None; layer.len()]?;
    let mut grows = false;
    for link in links {
        let Some(Some(arrival)) = layer.get(link.span.first) else {
            continue;
        };
        let Some(known) = best.get_mut(link.next) else {
            continue;
        };
        let worth = arrival
            .worth
            .saturating_add(worth(goal, link.span, link.ticks))
            .saturating_add(1);
        if worth <= *known {
            continue;
        }
        if let Some(place) = next.get_mut(link.next) {
            *known = worth;
            *place = Some(Arrival {
                worth,
                link: Some(*link),
            });
            grows = true;
        }
    }
    Ok(if grows { Some(next) } else { None })
}

/// The last leg with which a chain of a layer is worth most, where that is enough.
fn best_end(goal: &Goal, layer: &[Option<Arrival>], ends: &[End]) -> Option<Span> {
    let mut best: Option<(u64, Span)> = None;
    for end in ends {
        let Some(Some(arrival)) = layer.get(end.span.first) else {
            continue;
        };
        let worth = arrival.worth.saturating_add(end.worth);
        let better = match best {
            Some((known, _)) => known < worth,
            None => true,
        };
        if better && goal.least <= worth {
            best = Some((worth, end.span));
        }
    }
    let (_, span) = best?;
    Some(span)
}

/// The legs of the chain that ends with one.
fn legs(alloc: Global, layers: &[Vec<Option<Arrival>>], last: Span) -> Result<Vec<Span>, AllocError>
    ensures { IfOk result (λ legs. 0 < length legs.items) }
{
    let mut legs = vec![in alloc; last]?;
    let mut first = last.first;
    for layer in layers.iter().rev() {
        let Some(Some(arrival)) = layer.get(first) else {
            break;
        };
        let Some(link) = arrival.link else {
            break;
        };
        legs.push(link.span)?;
        first = link.span.first;
    }
    legs.as_mut_slice().reverse();
    Ok(legs)
}

/// Whether the legs have no more places than a certificate may have.
fn are_few(legs: &[Span]) -> bool {
    let mut places = 0usize;
    for leg in legs {
        places = places.saturating_add(count(*leg));
    }
    places <= MOST_PLACES
}

/// Whether a visit is made where a route ends, and the path with it.
fn is_made_at_end_of(interlocking: &Interlocking, visit: Visit, number: RouteNo) -> bool {
    let Some(route) = route(interlocking, number) else {
        return false;
    };
    route.exits() && visit_place(interlocking, visit, &[number]) == Some(route.length_mm())
}

/// Whether a visit can only be made where the path ends.
fn is_made_at_end(interlocking: &Interlocking, visit: Visit, routes: &[RouteNo]) -> bool {
    routes
        .iter()
        .all(|number| is_made_at_end_of(interlocking, visit, *number))
}
