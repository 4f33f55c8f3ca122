//! Which commands of a plan wait for which, and how long that takes.

use crate::goals::Goal;
use crate::known::{contend_over_own, count_trains};
use crate::paths::{Given, Span};
use crate::search::ChainSearch;
use leg_targets::Visit;
use rail_base::route::RouteNo;
use rail_base::station::TrainNo;
use std::alloc::AllocError;

/// A command that waits for the last of some commands of another train, and the least ticks from the grant of their
/// first to where the last has released what the command waits for.
#[derive(Clone, Copy)]
pub struct Link {
    pub(crate) span: Span,
    pub(crate) next: usize,
    pub(crate) ticks: u64,
}

impl ChainSearch<'_> {
    /// All links of a plan, by the command that waits.
    ///
    /// # Errors
    ///
    /// Want of memory alone.
    pub fn links(&mut self) -> Result<Vec<Link>, AllocError> {
        let mut links = Vec::new(self.alloc);
        let paths = self.paths;
        for (next, given) in paths.given.iter().enumerate() {
            for number in 1..count_trains(self.interlocking) + 1 {
                let train = TrainNo(number);
                if train != given.command.train {
                    self.push_links(&mut links, train, next, given)?;
                }
            }
        }
        Ok(links)
    }

    /// The links from one command, with ticks that are counted from a visit's place.
    pub(crate) fn links_from(
        &mut self,
        links: &[Link],
        first: usize,
        visit: Visit,
    ) -> Result<Vec<Link>, AllocError> {
        let mut own = Vec::new(self.alloc);
        let paths = self.paths;
        for link in links {
            if link.span.first != first {
                continue;
            }
            let Some(next) = paths.routes.get(link.next) else {
                continue;
            };
            let walk = paths.walk(link.span);
            let ticks = self.ticks_to_release(visit.train, walk, Some(visit), *next)?;
            if let Some(ticks) = ticks {
                own.push(Link { ticks, ..*link })?;
            }
        }
        Ok(own)
    }

    /// The last command of a goal's last leg: the first with which its visit can be made, or the one that is to be
    /// granted.
    pub(crate) fn last_of_goal(&self, goal: &Goal) -> Option<usize> {
        let (first, end) = self.paths.span(goal.train);
        for index in first..end {
            let route = *self.paths.routes.get(index)?;
            if self.ends_goal(goal, route) {
                return Some(index);
            }
        }
        None
    }

    /// The last command of a train that stands before another and contends with it over a section that the train goes
    /// over.
    fn last_before(&self, train: TrainNo, next: &Given) -> Option<usize> {
        let (first, end) = self.paths.span(train);
        for index in (first..end).rev() {
            let given = self.paths.given.get(index)?;
            if given.step < next.step
                && contend_over_own(self.interlocking, given.command, next.command)
            {
                return Some(index);
            }
        }
        None
    }

    /// Adds the links from each command of a train up to the last one for which another waits.
    fn push_links(
        &mut self,
        links: &mut Vec<Link>,
        train: TrainNo,
        next: usize,
        given: &Given,
    ) -> Result<(), AllocError> {
        let Some(last) = self.last_before(train, given) else {
            return Ok(());
        };
        let (start, _) = self.paths.span(train);
        for first in start..last.saturating_add(1) {
            let span = Span { first, last };
            let paths = self.paths;
            let walk = paths.walk(span);
            let route = given.command.route;
            if let Some(ticks) = self.ticks_to_release(train, walk, None, route)? {
                links.push(Link { span, next, ticks })?;
            }
        }
        Ok(())
    }

    /// Whether a goal's last leg may end with a route.
    fn ends_goal(&self, goal: &Goal, route: RouteNo) -> bool {
        match (goal.to, goal.requirement) {
            (Some(to), _) => self
                .tables
                .visit(to.train, to.number)
                .iter()
                .any(|other| *other == route),
            (None, bound_spec::Requirement::Grant { command }) => command.route == route,
            (None, _) => false,
        }
    }
}
