//! Finders of lower bounds.

ghost use Rattle.std.specs.Prelude.{◌≡◌, ◌<◌, true, All, IfOk, IfSome, length};
ghost use Rattle.bound_spec.specs.Validity.{names_design};
ghost use Rattle.interlocking.specs.Plans.{on};

use crate::choosing::{Breadth, Form};
use crate::routes::has_route;
use crate::search::BoundSearch;
use bound_chains::goals::{Goal, goals};
use bound_chains::known::contend;
use bound_chains::links::Link;
use bound_chains::paths::{Given, Paths, Span};
use bound_chains::search::ChainSearch;
use bound_chains::tables::Tables;
use bound_chains::ticks::Ticks;
use bound_design::names_design;
use bound_spec::{Bound, Leg, Origin};
use interlocking::Interlocking;
use rail_base::history::History;
use rail_base::list::List;
use rail_base::plan::{Plan, Violation};
use std::alloc::{AllocError, Global};

/// No leg gets more choices of one route for each place, in turn, until its ticks can still be followed.
const MOST_CHOICES: [usize; 3] = [256, 16, 2];

/// No more widened bounds are proposed.
const MOST_BOUNDS: usize = 3;

/// Looks for lower bounds by which plans fail. Keeps the least ticks that it has found out, which are those of one
/// design.
#[derive(Drop)]
pub struct Finder {
    alloc: Global,
    tables: Option<Tables>,
    ticks: Ticks,
}

/// A chain that shows a goal to fail, and its widened bound with how many literals that has.
#[derive(Drop)]
struct Candidate {
    goal: Goal,
    legs: Vec<Span>,
    bound: Bound,
    size: usize,
}

impl Finder {
    /// A finder that knows nothing yet.
    pub fn new(alloc: Global) -> Finder {
        Finder {
            alloc,
            tables: None,
            ticks: Ticks::new(alloc),
        }
    }

    /// Bounds that may exclude a plan that fails in this way, the best first. What they name is there in the design;
    /// each is still to be judged and tried against the plan. `Err` where memory ran out; the finder may then be used
    /// on.
    pub fn bounds(
        &mut self,
        interlocking: &Interlocking,
        plan: &Plan,
        history: &History,
        violation: Violation,
    ) -> Result<Vec<Bound>, AllocError>
        ensures { IfOk result (λ bounds. All (λ bound. on interlocking.now names_design bound ≡ true) bounds.items) }
    {
        if self.tables.is_none() {
            self.tables = Some(Tables::of(self.alloc, interlocking)?);
        }
        let Some(tables) = &self.tables else {
            return Ok(Vec::new(self.alloc));
        };
        let paths = Paths::of(self.alloc, interlocking, plan)?;
        let goals = goals(self.alloc, interlocking, &paths, violation)?;
        let ticks = &mut self.ticks;
        let chains = ChainSearch::of(self.alloc, interlocking, tables, &paths, history, ticks)?;
        let mut search = BoundSearch { chains };
        let found = search.candidates(goals.as_slice())?;
        let bounds = search.in_order(found)?;
        in_design(self.alloc, interlocking, bounds)
    }
}

/// Those of which the design has all that they name, in order.
fn in_design(
    alloc: Global,
    interlocking: &Interlocking,
    bounds: Vec<Bound>,
) -> Result<Vec<Bound>, AllocError>
    ensures { IfOk result (λ kept. All (λ bound. on interlocking.now names_design bound ≡ true) kept.items) }
{
    let mut kept = Vec::new(alloc);
    for bound in bounds {
        if names_design(alloc, interlocking, &bound)? {
            kept.push(bound)?;
        }
    }
    Ok(kept)
}

impl BoundSearch<'_> {
    /// Whether no command stands before the first of a train that makes a goal's first visit there.
    fn begins_at_once(&self, goal: &Goal) -> bool {
        let Some(from) = goal.from else {
            return false;
        };
        if from.number != 1 {
            return false;
        }
        let (first, end) = self.chains.paths.span(from.train);
        if end <= first {
            return false;
        }
        let routes = self.chains.tables.visit(from.train, 1);
        self.chains
            .paths
            .commands(from.train)
            .iter()
            .filter(|given| has_route(routes, given.command.route))
            .all(|given| self.waits_for_none(given))
    }

    /// Whether no command of another train that contends with one stands before it.
    fn waits_for_none(&self, own: &Given) -> bool {
        self.chains.paths.given.iter().all(|given| {
            own.step <= given.step || !contend(self.chains.interlocking, given.command, own.command)
        })
    }

    /// The legs of a chain's bound in a breadth, with as many choices as can be followed.
    fn legs_in<'b>(
        &mut self,
        goal: &'b Goal,
        origin: &'b Origin,
        legs: &'b [Span],
        breadth: Breadth,
    ) -> Result<Option<List<Leg>>, AllocError> {
        for most_choices in MOST_CHOICES {
            let form = Form {
                goal,
                origin,
                legs,
                breadth,
                most_choices,
            };
            if let Some(legs) = self.legs(&form)? {
                return Ok(Some(legs));
            }
        }
        Ok(None)
    }

    /// A chain's bound in a breadth.
    fn bound_in(
        &mut self,
        goal: &Goal,
        legs: &[Span],
        breadth: Breadth,
    ) -> Result<Option<Bound>, AllocError> {
        let Some(origin) = self.chains.origin(goal)? else {
            return Ok(None);
        };
        let legs = self.legs_in(goal, &origin, legs, breadth)?;
        Ok(legs.map(|legs| Bound {
            requirement: goal.requirement,
            origin,
            legs,
        }))
    }

    /// A chain's bound as wide as can be had.
    fn widest(&mut self, goal: &Goal, legs: &[Span]) -> Result<Option<Bound>, AllocError> {
        for breadth in [Breadth::Whole, Breadth::Alike, Breadth::Own] {
            if let Some(bound) = self.bound_in(goal, legs, breadth)? {
                return Ok(Some(bound));
            }
        }
        Ok(None)
    }

    /// A goal with each beginning from which its ticks may be counted, the best first.
    fn beginnings(&self, goal: &Goal) -> Result<Vec<Goal>, AllocError> {
        let mut goals = vec![in self.chains.alloc; *goal]?;
        if self.begins_at_once(goal) {
            goals.push(goal.from_first_tick())?;
        }
        if let Some(from) = goal.from
            && let Some(tick) = self.chains.visit_tick(from)
        {
            goals.push(goal.from_cone(tick))?;
        }
        Ok(goals)
    }

    /// The chain that shows a goal to fail, with its bound, if there is one.
    fn candidate(&mut self, goal: Goal, links: &[Link]) -> Result<Option<Candidate>, AllocError> {
        let Some(legs) = self.chains.chain(&goal, links)? else {
            return Ok(None);
        };
        let Some(bound) = self.widest(&goal, legs.as_slice())? else {
            return Ok(None);
        };
        let size = self.size(&goal, &bound);
        Ok(Some(Candidate {
            goal,
            legs,
            bound,
            size,
        }))
    }

    /// The same from the first beginning that gives one.
    fn first_candidate(
        &mut self,
        goal: &Goal,
        links: &[Link],
    ) -> Result<Option<Candidate>, AllocError> {
        for goal in self.beginnings(goal)? {
            if let Some(found) = self.candidate(goal, links)? {
                return Ok(Some(found));
            }
        }
        Ok(None)
    }

    /// The chains of all goals that have one, each with its bound.
    fn candidates(&mut self, goals: &[Goal]) -> Result<Vec<Candidate>, AllocError> {
        let links = self.chains.links()?;
        let mut all = Vec::new(self.chains.alloc);
        for goal in goals {
            if let Some(found) = self.first_candidate(goal, links.as_slice())? {
                all.push(found)?;
            }
        }
        Ok(all)
    }

    /// The bounds of these, the shortest first, and behind them the shortest as it is without being widened.
    fn in_order(&mut self, found: Vec<Candidate>) -> Result<Vec<Bound>, AllocError> {
        let mut found = found;
        let mut bounds = Vec::new(self.chains.alloc);
        let mut last = None;
        for index in 0..MOST_BOUNDS {
            let Some(least) = least_of(found.as_slice()) else {
                break;
            };
            let Candidate {
                goal,
                legs,
                bound,
                size: _,
            } = found.swap_remove(least);
            if index == 0 {
                last = self.bound_in(&goal, legs.as_slice(), Breadth::Own)?;
            }
            bounds.push(bound)?;
        }
        if let Some(bound) = last {
            bounds.push(bound)?;
        }
        Ok(bounds)
    }
}

/// Which has the fewest literals.
fn least_of(found: &[Candidate]) -> Option<usize>
    ensures { IfSome result (λ index. index < length found.now) }
{
    let mut least: Option<(usize, usize)> = None;
    for (index, one) in found.iter().enumerate() {
        let is_less = match least {
            Some((_, size)) => one.size < size,
            None => true,
        };
        if is_less {
            least = Some((index, one.size));
        }
    }
    let (index, _) = least?;
    Some(index)
}
