//! A search for the least time of a within: less and less is asked for.

ghost use Rattle.std.specs.Prelude.{◌≡◌, ◌≤◌, ◌++◌, ◌∷◌, [], IfOk, IfErr, length};
ghost use Rattle.verify_loop.specs.declared.outcome.Outcome.TheVariants.{Infeasible};
ghost use Rattle.verify_loop.specs.Tightening.{as_tried, asked_for, steps_of, ticks_from, ticks_taken};
ghost use Rattle.verify_loop.specs.Lessening.{in_ticks};
ghost use Rattle.rail_require.specs.Ticks.{visit_tick};
ghost use Rattle.rail_base.specs.Stations.{horizon, within_of};

use crate::asked::{Asked, TimeSearch};
use crate::least_time::Tightest;
use crate::outcome::{Aim, Outcome, Tried, Wanted};
use crate::rounds::{PlanSearch, SearchState, Stop, TimeAsked};
use greatest_time::with_max_ms;
use interlocking::Interlocking;
use rail_base::history::{History, Verdict};
use rail_base::plan::Plan;
use rail_outside::Sink;
use rail_require::visit_tick;
use std::alloc::{AllocError, Global};

/// How many ticks after its first visit a within's second comes, in a history; none where it comes no later.
fn ticks_between(interlocking: &Interlocking, within: u32, history: &History) -> u64
    requires from_1 { 1 ≤ within }
    requires there { within ≤ length interlocking.now.design.station.withins }
    ensures { let own = within_of interlocking.now.design.station within in result
        ≡ ticks_from (visit_tick history.now own.from_train own.from_visit)
        (visit_tick history.now own.to_train own.to_visit) }
{
    let own = interlocking.design.station.withins.as_slice()[within as usize - 1];
    let history = history.as_slice();
    let from = visit_tick(history, own.from_train, own.from_visit);
    let to = visit_tick(history, own.to_train, own.to_visit);
    match (from, to) {
        (Some(from), Some(to)) => to.saturating_sub(from),
        _ => 0,
    }
}

/// Adds plans that were run where so many ticks were asked for.
fn add_tried(tried: Vec<Tried>, ticks: u64, plans: Vec<Plan>) -> Result<Vec<Tried>, AllocError>
    ensures { IfOk result (λ all. as_tried all.items
        ≡ as_tried tried.items ++ asked_for ticks (steps_of plans.items)) }
{
    let mut tried = tried;
    for plan in plans {
        tried.push(Tried { ticks, plan })?;
    }
    Ok(tried)
}

impl TimeSearch<'_> {
    ghost use Rattle.verify_loop.specs.Asking.{HasBegun, IsEarlyEnd};
    ghost use Rattle.verify_loop.specs.Tightening.{aim_of};
    ghost use Rattle.verify_loop.specs.Lessening.{EndsTightest, IsAsked, IsAtEnd, IsAtPlan, IsTimeSearch};
    ghost use Rattle.verify_loop.specs.Lessening.{HasBegunTo, LeadsOn, TellsLess, quickest, untimed};
    ghost use Rattle.verify_loop.specs.Tightening.{IsLeast, IsLeastTime};

    /// The search from its first clauses alone, where it could begin with them.
    pub(crate) fn run_from<P: Sink>(
        &self,
        asked: Asked,
        begun: Result<SearchState, Outcome>,
        progress: &mut P,
    ) -> Tightest
        requires asked { IsAsked self.now asked }
        requires all_ticks { asked.ticks ≡ horizon asked.interlocking.design.station }
        requires none_tried { asked.tried.items ≡ [] }
        requires begun { let d = asked.interlocking.design.station in
            IfOk begun (λ s. HasBegun (aim_of self.now.base) d self.now.numbering.now.steps self.now.budgets s []) }
        requires ended { let d = asked.interlocking.design.station in
            IfErr begun (IsEarlyEnd (aim_of self.now.base) d self.now.numbering.now.steps self.now.budgets) }
        ensures says { EndsTightest self.now asked result }
        ensures tells { TellsLess self.now asked (P.puts progress.old) (P.puts progress.new) }
    {
        match begun {
            Ok(search) => match self.with_orders(&asked, search) {
                Ok(search) => self.run(asked, search, progress),
                Err(outcome) => self.after_end(asked, outcome),
            },
            Err(outcome) => self.after_end(asked, outcome),
        }
    }

    /// A search that has the first clauses alone, with what orders say.
    fn with_orders(&self, asked: &Asked, search: SearchState) -> Result<SearchState, Outcome>
        requires { HasBegunTo self.now asked.now search }
        ensures begun { IfOk result (IsTimeSearch self.now asked.now) }
        ensures ends { IfErr result (IsAtEnd self.now asked.now) }
    {
        let time = TimeAsked {
            within: self.within,
            ticks: asked.ticks,
        };
        let plan_search = PlanSearch {
            alloc: self.alloc,
            interlocking: &asked.interlocking,
            aim: Aim {
                base: self.base,
                wanted: Wanted::Any,
            },
            time: Some(time),
            tried: asked.tried.as_slice(),
            numbering: self.numbering,
            budgets: self.budgets,
        };
        plan_search.with_orders(search)
    }

    /// Question after question, each of which but the last leads to one for less time.
    fn run<P: Sink>(&self, asked: Asked, search: SearchState, progress: &mut P) -> Tightest
        requires { IsTimeSearch self.now asked search }
        ensures says { EndsTightest self.now asked result }
        ensures tells { TellsLess self.now asked (P.puts progress.old) (P.puts progress.new) }
    {
        let mut asked = asked;
        let mut search = search;
        'times: loop {
            match self.ask(asked, search, progress) {
                Ok((next, state)) => {
                    asked = next;
                    search = state;
                }
                Err(end) => return end,
            }
        }
    }

    /// One question, whether a plan is feasible where the within allows so many ticks, and what follows.
    fn ask<P: Sink>(
        &self,
        asked: Asked,
        search: SearchState,
        progress: &mut P,
    ) -> Result<(Asked, SearchState), Tightest>
        requires { IsTimeSearch self.now asked search }
        ensures leads_on { IfOk result (LeadsOn self.now asked) }
        ensures ends { IfErr result (EndsTightest self.now asked) }
        ensures tells { TellsLess self.now asked (P.puts progress.old) (P.puts progress.new) }
    {
        let time = TimeAsked {
            within: self.within,
            ticks: asked.ticks,
        };
        let plan_search = PlanSearch {
            alloc: self.alloc,
            interlocking: &asked.interlocking,
            aim: Aim {
                base: self.base,
                wanted: Wanted::Any,
            },
            time: Some(time),
            tried: asked.tried.as_slice(),
            numbering: self.numbering,
            budgets: self.budgets,
        };
        match plan_search.run_rounds(search, progress) {
            Stop::Met {
                search,
                plan,
                history,
                tick,
            } => self.after_plan(asked, search, plan, history, tick),
            Stop::Over(outcome) => Err(self.after_end(asked, outcome)),
        }
    }

    /// What follows of a plan that meets the design, in which all is done at this tick.
    fn after_plan(
        &self,
        asked: Asked,
        search: SearchState,
        plan: Plan,
        history: History,
        tick: u64,
    ) -> Result<(Asked, SearchState), Tightest>
        requires { IsAtPlan self.now asked search plan.steps history tick }
        ensures leads_on { IfOk result (LeadsOn self.now asked) }
        ensures ends { IfErr result (EndsTightest self.now asked) }
    {
        let taken = ticks_between(&asked.interlocking, self.within, &history);
        if taken == 0 {
            let verdict = Verdict::Met { history, tick };
            return Err(self.least(asked.interlocking, 0, plan, verdict, None));
        }
        self.ask_less(asked, search, plan, history, tick, taken)
    }

    /// The question whether a tick less than this plan takes is enough.
    fn ask_less(
        &self,
        asked: Asked,
        search: SearchState,
        plan: Plan,
        history: History,
        tick: u64,
        taken: u64,
    ) -> Result<(Asked, SearchState), Tightest>
        requires at { IsAtPlan self.now asked search plan.steps history tick }
        requires takes { taken ≡ ticks_taken asked.interlocking.design.station self.now.within plan.steps }
        requires some { 1 ≤ taken }
        ensures leads_on { IfOk result (LeadsOn self.now asked) }
        ensures ends { IfErr result (EndsTightest self.now asked) }
    {
        // The sum stays within these.
        let _ticks = self.budgets.ticks;
        let Asked {
            interlocking,
            ticks,
            tried,
            ..
        } = asked;
        let SearchState {
            solver,
            failed,
            sum,
            steps,
            finder,
        } = search;
        let Ok(tried) = tried_with(tried, ticks, failed, plan) else {
            return Err(Tightest::Memory);
        };
        let Ok(interlocking) = with_ticks(self.alloc, interlocking, self.within, taken - 1) else {
            return Err(Tightest::Memory);
        };
        let shown = Some(Verdict::Met { history, tick });
        let asked = Asked {
            interlocking,
            ticks: taken - 1,
            tried,
            shown,
        };
        let search = SearchState {
            solver,
            failed: Vec::new(self.alloc),
            sum: sum + tick,
            steps,
            finder,
        };
        Ok((asked, search))
    }

    /// What follows of an end of the search.
    fn after_end(&self, asked: Asked, outcome: Outcome) -> Tightest
        requires { IsAtEnd self.now asked outcome }
        ensures { EndsTightest self.now asked result }
    {
        let ticks = asked.ticks;
        match outcome {
            Outcome::Plan { .. } => unreachable!(),
            Outcome::Infeasible { log } => self.after_denial(asked, log),
            Outcome::ConflictsSpent {
                log,
                clause,
                hints,
                failed,
            } => match add_tried(asked.tried, ticks, failed) {
                Ok(tried) => Tightest::ConflictsSpent {
                    log,
                    clause,
                    hints,
                    ticks,
                    tried,
                },
                Err(_) => Tightest::Memory,
            },
            Outcome::TicksSpent {
                failed,
                sum,
                at_hand,
            } => match add_tried(asked.tried, ticks, failed) {
                Ok(tried) => Tightest::TicksSpent {
                    sum,
                    at_hand,
                    ticks,
                    tried,
                },
                Err(_) => Tightest::Memory,
            },
            Outcome::LogSpent {
                log,
                bytes,
                next,
                failed,
            } => match add_tried(asked.tried, ticks, failed) {
                Ok(tried) => Tightest::LogSpent {
                    log,
                    bytes,
                    next,
                    ticks,
                    tried,
                },
                Err(_) => Tightest::Memory,
            },
            Outcome::TooLarge { literals } => Tightest::TooLarge { literals },
            Outcome::Memory => Tightest::Memory,
        }
    }

    /// What follows where it is shown that so many ticks are too few.
    fn after_denial(&self, asked: Asked, log: Vec<u8>) -> Tightest
        requires { IsAtEnd self.now asked (Infeasible log) }
        ensures { EndsTightest self.now asked result }
    {
        let Asked {
            interlocking,
            ticks,
            tried,
            shown,
        } = asked;
        let Some(verdict) = shown else {
            return Tightest::Infeasible { log };
        };
        let mut tried = tried;
        let Some(last) = tried.pop() else {
            unreachable!();
        };
        self.least(interlocking, ticks + 1, last.plan, verdict, Some(log))
    }

    /// The answer that so many ticks are the least.
    fn least(
        &self,
        interlocking: Interlocking,
        ticks: u64,
        plan: Plan,
        verdict: Verdict,
        log: Option<Vec<u8>>,
    ) -> Tightest
        requires from_1 { 1 ≤ self.now.within }
        requires there { self.now.within ≤ length interlocking.design.station.withins }
        requires by_horizon { ticks ≤ horizon interlocking.design.station }
        requires time { let s = untimed interlocking.design.station self.now.within in
            IsLeastTime self.now.base s self.now.within self.now.numbering.now.steps ticks plan verdict }
        requires least { let s = untimed interlocking.design.station self.now.within in
            IsLeast self.now.base s self.now.within self.now.numbering.now.steps self.now.budgets ticks plan.steps log }
        ensures { quickest self.now interlocking.design.station result }
    {
        match with_ticks(self.alloc, interlocking, self.within, ticks) {
            Ok(interlocking) => Tightest::Least {
                interlocking,
                ticks,
                plan,
                verdict,
                log,
            },
            Err(_) => Tightest::Memory,
        }
    }
}

/// The interlocking of the design in which the within allows so many ticks.
pub(crate) fn with_ticks(
    alloc: Global,
    interlocking: Interlocking,
    within: u32,
    ticks: u64,
) -> Result<Interlocking, AllocError>
    requires from_1 { 1 ≤ within }
    requires there { within ≤ length interlocking.design.station.withins }
    requires by_horizon { ticks ≤ horizon interlocking.design.station }
    ensures { IfOk result (λ i. i.design.station ≡ in_ticks interlocking.design.station within ticks) }
{
    let _horizon = interlocking.design.horizon();
    let tick_ms = interlocking.design.station.tick_ms;
    with_max_ms(alloc, interlocking, within, ticks as u32 * tick_ms)
}

/// Adds plans that failed and one that met the design, where so many ticks were asked for.
fn tried_with(
    tried: Vec<Tried>,
    ticks: u64,
    failed: Vec<Plan>,
    met: Plan,
) -> Result<Vec<Tried>, AllocError>
    ensures { IfOk result (λ all. as_tried all.items
        ≡ as_tried tried.items ++ asked_for ticks (steps_of failed.items ++ met.steps ∷ [])) }
{
    let mut tried = add_tried(tried, ticks, failed)?;
    tried.push(Tried { ticks, plan: met })?;
    Ok(tried)
}
