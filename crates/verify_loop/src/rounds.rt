//! A search, round after round.

ghost use Rattle.std.specs.Prelude.{◌≡◌, ◌≤◌, ◌<◌, ◌+◌, [], ◌∷◌, IfOk, IfErr, None, true};
ghost use Rattle.verify_loop.specs.Bases.{IsNumberingFor};
ghost use Rattle.verify_loop.specs.Outcomes.{IsOutcome, first_clauses};
ghost use Rattle.verify_loop.specs.Quests.{by_itself};
ghost use Rattle.verify_loop.specs.Searching.{state_in};
ghost use Rattle.verify_loop.specs.Telling.{IsProgress};
ghost use Rattle.proof_judge.specs.Judged.{names_within};
ghost use Rattle.rail_spec.specs.Feasible.{IsInfeasible};
ghost use Rattle.plan_exclusion.specs.Failures.{FailsSo};
ghost use Rattle.sat_core.specs.Runs.{Ends};
ghost use Rattle.clause_spec.specs.Laws.{HasFewLiterals};

use crate::outcome::{Aim, Budgets, Outcome, Tried};
use crate::progress::{Progress, none_before, progress_line};
use bound_finder::Finder;
use cone_clause::Contention;
use interlocking::Interlocking;
use log_recorder::Text;
use plan_decoder::decode;
use plan_encoding::Numbering;
use plan_exclusion::FailedPlan;
use plan_run::simulate;
use proof_judge::{ByDesign, EvidenceLine};
use rail_base::history::{History, Verdict};
use rail_base::plan::{Plan, Violation};
use rail_outside::Sink;
use sat_clause::Lit;
use sat_core::{Answer, Assignment, Recorder, Solver};
use std::alloc::{AllocError, Global};

/// After so many derived clauses at the most it is told how far a search is.
const LINES: u64 = 1000;

/// A search that goes on.
#[derive(Drop)]
pub(crate) struct SearchState {
    /// It holds the clauses, and its recorder the log.
    pub solver: Solver<Text>,
    /// The plans that failed so far.
    pub failed: Vec<Plan>,
    /// How many ticks they took.
    pub sum: u64,
    /// A plan of at most so many steps is looked for. Where one of the fewest is wanted, there is none of fewer.
    pub steps: u32,
    /// It looks for bounds by which plans fail.
    pub finder: Finder,
}

/// What is asked of a within.
#[derive(Clone, Copy, Debug, PartialEq, Eq)]
pub(crate) struct TimeAsked {
    /// The within, from 1 on.
    pub within: u32,
    /// How many ticks it allows.
    pub ticks: u64,
}

/// How a search stops.
#[derive(Drop)]
pub(crate) enum Stop {
    /// At a plan that meets the design. All is done at the tick, and the search may go on.
    Met {
        search: SearchState,
        plan: Plan,
        history: History,
        tick: u64,
    },
    /// At its end.
    Over(Outcome),
}

/// What is searched, and what may be spent.
#[derive(Clone, Copy)]
pub(crate) struct PlanSearch<'a> {
    pub alloc: Global,
    pub interlocking: &'a Interlocking,
    pub aim: Aim,
    /// How many ticks a within allows, where less and less is asked for; none of a search by itself.
    pub time: Option<TimeAsked>,
    /// The plans that were run where it allowed more.
    pub tried: &'a [Tried],
    pub numbering: &'a Numbering,
    pub budgets: Budgets,
    pub ghost numbers: { IsNumberingFor aim.base interlocking.now numbering.now },
    pub ghost at_least_one: { 1 ≤ numbering.now.steps },
    pub ghost at_most_256: { numbering.now.steps ≤ 256 },
    pub ghost named: { names_within aim.base interlocking.now.design.station ≡ true },
    pub ghost fits: { HasFewLiterals (first_clauses (by_itself aim interlocking.now.design.station numbering.now.steps)
        interlocking.now.design.station numbering.now.steps) },
}

impl PlanSearch<'_> {
    ghost use Rattle.verify_loop.specs.Asking.{EndsWith, Excludes, GoesOn, IsAtPlan, IsDenied, IsOpen, IsSearch, StopsAt};
    ghost use Rattle.verify_loop.specs.Asking.{AreValuesFor, IsAdded, IsLeftOut, ShowsSome, TellsHowFar, WasFound, With};
    ghost use Rattle.verify_loop.specs.Asking.{IsBeginning, IsFirst};
    ghost use Rattle.verify_loop.specs.Telling.{TellsHowFar as TellsAlone};
    ghost use Rattle.verify_loop.specs.Asking.{given_by, most_steps, station_of, ticks_of, variables};

    /// Round after round, each of which but the last excludes a plan that fails.
    pub(crate) fn run_rounds<P: Sink>(&self, search: SearchState, progress: &mut P) -> Stop
        requires { IsSearch self.now search }
        ensures stops { StopsAt self.now result }
        ensures tells { TellsHowFar self.now (P.puts progress.old) (P.puts progress.new) }
    {
        let mut search = search;
        'rounds: loop {
            match self.refine(search, progress) {
                Ok(next) => search = next,
                Err(stop) => return stop,
            }
        }
    }

    /// How far the search is.
    fn progress(&self, search: &SearchState) -> Progress
        requires { IsSearch self.now search.now }
        ensures { With self.now (λ m. IsProgress m (station_of self.now) (most_steps self.now) result) }
    {
        Progress {
            none_of: none_before(self.aim.wanted, search.steps),
            lines: search.solver.derives(),
            failed: search.failed.as_slice().len() as u64,
            ticks: search.sum,
        }
    }

    /// Tells how far the search is. Where there is no memory, or the sink fails, the line is left out.
    fn tell<P: Sink>(&self, search: &SearchState, progress: &mut P)
        requires { IsSearch self.now search.now }
        ensures { TellsHowFar self.now (P.puts progress.old) (P.puts progress.new) }
    {
        if let Ok(line) = progress_line(self.alloc, self.progress(search)) {
            let _ = progress.put(line.as_slice());
        }
    }

    /// The commands that the base speaks of.
    fn contention(&self) -> Contention<'_>
        ensures interlocking { result.interlocking.now ≡ self.now.interlocking.now }
        ensures commands { result.pairs.now.commands ≡ self.now.numbering.now.commands }
        ensures pairs { result.pairs.now.pairs ≡ self.now.numbering.now.pairs }
    {
        Contention {
            interlocking: self.interlocking,
            pairs: self.numbering.pairs(),
        }
    }

    /// What the design says of cones and bounds.
    pub(crate) fn by_design(&self) -> ByDesign<'_>
        ensures interlocking { result.contention.interlocking.now ≡ self.now.interlocking.now }
        ensures pairs { result.contention.pairs.now.pairs ≡ self.now.numbering.now.pairs }
        ensures kind { result.kind ≡ self.now.aim.base }
        ensures steps { result.steps.count ≡ self.now.numbering.now.steps }
    {
        ByDesign {
            contention: self.contention(),
            kind: self.aim.base,
            steps: self.numbering.steps(),
        }
    }

    /// What excludes a plan that was found and fails.
    fn exclusion_of<'b>(
        &self,
        finder: &mut Finder,
        plan: &'b Plan,
        values: &'b Assignment,
        history: &'b History,
        tick: u64,
        violation: Violation,
    ) -> Result<EvidenceLine, AllocError>
        requires found { WasFound self.now plan.now.steps }
        requires are_values { AreValuesFor self.now values.now plan.now.steps }
        requires fails { FailsSo self.now.interlocking.now.design.station plan.now.steps history.now tick violation }
        ensures { IfOk result (Excludes self.now plan.now.steps) }
    {
        let failed = FailedPlan {
            contention: self.contention(),
            kind: self.aim.base,
            steps: self.numbering.steps(),
            plan,
            values,
            history,
            tick,
            violation,
        };
        failed.exclusion(self.alloc, finder)
    }

    /// The search with the clause of a cone or a bound, and its log with the line, where there is room for it.
    pub(crate) fn add_line(
        &self,
        search: SearchState,
        line: &EvidenceLine,
    ) -> Result<SearchState, Outcome>
        requires shown { ShowsSome self.now line.now }
        requires vars { search.solver.vars ≡ (variables self.now).count }
        ensures added { IfOk result (IsAdded search line.now) }
        ensures left { IfErr result (IsLeftOut search line.now) }
    {
        let mut search = search;
        let bytes = line.line.as_slice();
        let next = bytes.len() as u64 + 1;
        if !search.solver.recorder().room(next) {
            let log = log_of(search.solver);
            let bytes = log.as_slice().len() as u64;
            return Err(Outcome::LogSpent {
                log,
                bytes,
                next,
                failed: search.failed,
            });
        }
        match search.solver.add_clause(bytes, line.clause.as_slice()) {
            Ok(_id) => Ok(search),
            Err(_) => Err(Outcome::Memory),
        }
    }

    /// The search with the clause that excludes a plan that fails at this tick, where the log has room for its line.
    fn exclude_plan(
        &self,
        search: SearchState,
        plan: Plan,
        tick: u64,
        exclusion: &EvidenceLine,
    ) -> Result<SearchState, Outcome>
        requires state { IsAtPlan self.now search plan.steps }
        requires excludes { Excludes self.now plan.steps exclusion.now }
        requires tick { tick ≡ ticks_of self.now plan.steps }
        requires at_least_one { 1 ≤ tick }
        requires left { search.sum + tick ≤ self.now.budgets.ticks }
        ensures goes_on { IfOk result (GoesOn self.now search) }
        ensures ends { IfErr result (EndsWith self.now) }
    {
        // The sum stays within these.
        let _ticks = self.budgets.ticks;
        let mut search = match self.add_line(search, exclusion) {
            Ok(search) => search,
            Err(outcome) => return Err(outcome),
        };
        let Ok(()) = search.failed.push(plan) else {
            return Err(Outcome::Memory);
        };
        search.sum += tick;
        Ok(search)
    }

    /// What follows of a plan that was found, which these values give, and fails so.
    fn after_failure(
        &self,
        search: SearchState,
        plan: Plan,
        values: &Assignment,
        history: &History,
        tick: u64,
        violation: Violation,
    ) -> Result<SearchState, Outcome>
        requires at { IsAtPlan self.now search plan.steps }
        requires are_values { AreValuesFor self.now values.now plan.steps }
        requires fails { FailsSo (station_of self.now) plan.steps history.now tick violation }
        requires tick { tick ≡ ticks_of self.now plan.steps }
        requires at_least_one { 1 ≤ tick }
        requires left { search.sum + tick ≤ self.now.budgets.ticks }
        ensures goes_on { IfOk result (GoesOn self.now search) }
        ensures ends { IfErr result (EndsWith self.now) }
    {
        let mut search = search;
        let finder = &mut search.finder;
        match self.exclusion_of(finder, &plan, values, history, tick, violation) {
            Ok(exclusion) => self.exclude_plan(search, plan, tick, &exclusion),
            Err(_) => Err(Outcome::Memory),
        }
    }

    /// What follows of the run of a plan that was found, which these values give.
    fn time_plan(
        &self,
        search: SearchState,
        plan: Plan,
        values: &Assignment,
    ) -> Result<SearchState, Stop>
        requires at { IsAtPlan self.now search plan.steps }
        requires are_values { AreValuesFor self.now values.now plan.steps }
        ensures goes_on { IfOk result (GoesOn self.now search) }
        ensures stops { IfErr result (StopsAt self.now) }
    {
        let left = self.budgets.ticks - search.sum;
        match simulate(self.alloc, self.interlocking, &plan, left) {
            Ok(Verdict::Met { history, tick }) => Err(Stop::Met {
                search,
                plan,
                history,
                tick,
            }),
            Ok(
                Verdict::Failed {
                    history,
                    tick,
                    violation,
                },
            ) => match self.after_failure(search, plan, values, &history, tick, violation) {
                Ok(next) => Ok(next),
                Err(outcome) => Err(Stop::Over(outcome)),
            },
            Ok(Verdict::Undecided) => Err(Stop::Over(Outcome::TicksSpent {
                failed: search.failed,
                sum: search.sum,
                at_hand: plan,
            })),
            Err(_) => Err(Stop::Over(Outcome::Memory)),
        }
    }

    /// The search for a plan of one step more, where it is known that there is none of these.
    fn longer(&self, search: SearchState) -> SearchState
        requires state { IsSearch self.now search }
        requires known { IsInfeasible self.now.interlocking.now.design.station search.steps }
        requires less { search.steps < self.now.numbering.now.steps }
        ensures { GoesOn self.now search result }
    {
        let mut search = search;
        let _steps = self.numbering.steps().count;
        search.steps += 1;
        search
    }

    /// What follows where the solver shows that there is no plan of so many steps.
    fn after_denial<P: Sink>(
        &self,
        search: SearchState,
        core: &[Lit],
        progress: &mut P,
    ) -> Result<SearchState, Outcome>
        requires { IsDenied self.now search core.now }
        ensures goes_on { IfOk result (GoesOn self.now search) }
        ensures ends { IfErr result (EndsWith self.now) }
        ensures tells { TellsHowFar self.now (P.puts progress.old) (P.puts progress.new) }
    {
        if core.is_empty() || search.steps == self.numbering.steps().count {
            return Err(Outcome::Infeasible {
                log: log_of(search.solver),
            });
        }
        let search = self.longer(search);
        self.tell(&search, progress);
        Ok(search)
    }

    /// The literal that all is given by a step.
    fn by_step(&self, step: u32) -> Lit
        requires { step ≤ self.now.numbering.now.steps }
        ensures { result ≡ given_by self.now step }
    {
        self.numbering.selector(step)
    }

    /// Asks the solver for values that give a plan of so many steps.
    fn put_to(&self, solver: &mut Solver<Text>, steps: u32, left: u64) -> Answer
        requires vars { solver.old.vars ≡ (variables self.now).count }
        requires at_least_one { 1 ≤ steps }
        requires within { steps ≤ self.now.numbering.now.steps }
        ensures run { let before = state_in solver.old.arena solver.old.recorder solver.old.learnt.items solver.old.derives in
            let after = state_in solver.new.arena solver.new.recorder solver.new.learnt.items solver.new.derives in
            Ends before after (given_by self.now steps ∷ []) solver.old.vars left result }
        ensures vars { solver.new.vars ≡ solver.old.vars }
    {
        solver.solve(&[self.by_step(steps)], left)
    }

    /// One question to the solver, whether there is a plan of so many steps, and what follows of its answer. It is put
    /// again after a thousand derived clauses, so that it can be told how far the search is.
    fn solve_round<P: Sink>(
        &self,
        search: SearchState,
        progress: &mut P,
    ) -> Result<SearchState, Stop>
        requires state { IsSearch self.now search }
        requires unsaid { IsOpen self.now search }
        ensures goes_on { IfOk result (GoesOn self.now search) }
        ensures stops { IfErr result (StopsAt self.now) }
        ensures tells { TellsHowFar self.now (P.puts progress.old) (P.puts progress.new) }
    {
        let mut search = search;
        let left = self.budgets.conflicts - search.solver.derives();
        let allowed = left.min(LINES);
        match self.put_to(&mut search.solver, search.steps, allowed) {
            Answer::Sat(values) => {
                self.tell(&search, progress);
                match decode(self.alloc, self.numbering, &values) {
                    Ok(plan) => self.time_plan(search, plan, &values),
                    Err(_) => Err(Stop::Over(Outcome::Memory)),
                }
            }
            Answer::Unsat(core) => {
                match self.after_denial(search, core.clause.as_slice(), progress) {
                    Ok(next) => Ok(next),
                    Err(outcome) => Err(Stop::Over(outcome)),
                }
            }
            Answer::Spent { clause, hints } => {
                self.tell(&search, progress);
                if allowed < left {
                    return Ok(search);
                }
                Err(Stop::Over(Outcome::ConflictsSpent {
                    log: log_of(search.solver),
                    clause,
                    hints,
                    failed: search.failed,
                }))
            }
            Answer::Full { bytes, next } => {
                self.tell(&search, progress);
                Err(Stop::Over(Outcome::LogSpent {
                    log: log_of(search.solver),
                    bytes,
                    next,
                    failed: search.failed,
                }))
            }
            Answer::Memory => Err(Stop::Over(Outcome::Memory)),
        }
    }

    /// A search by itself, from its first clauses alone.
    pub(crate) fn run_alone<P: Sink>(&self, search: SearchState, progress: &mut P) -> Outcome
        requires alone { self.now.time ≡ None }
        requires first { IsFirst self.now }
        requires begun { IsBeginning self.now search [] }
        ensures says { IsOutcome self.now.aim (station_of self.now) (most_steps self.now) self.now.budgets result }
        ensures tells { TellsAlone self.now.aim (station_of self.now) (most_steps self.now)
            (P.puts progress.old) (P.puts progress.new) }
    {
        match self.with_orders(search) {
            Ok(search) => self.outcome(self.run_rounds(search, progress)),
            Err(outcome) => outcome,
        }
    }

    /// What the stop of a search by itself says.
    fn outcome(&self, stop: Stop) -> Outcome
        requires alone { self.now.time ≡ None }
        requires stops { StopsAt self.now stop }
        ensures { IsOutcome self.now.aim (station_of self.now) (most_steps self.now) self.now.budgets result }
    {
        match stop {
            Stop::Met {
                plan,
                history,
                tick,
                ..
            } => Outcome::Plan {
                plan,
                verdict: Verdict::Met { history, tick },
            },
            Stop::Over(outcome) => outcome,
        }
    }

    /// One question to the solver, unless a clause says already that there is no plan of so many steps.
    fn refine<P: Sink>(&self, search: SearchState, progress: &mut P) -> Result<SearchState, Stop>
        requires { IsSearch self.now search }
        ensures goes_on { IfOk result (GoesOn self.now search) }
        ensures stops { IfErr result (StopsAt self.now) }
        ensures tells { TellsHowFar self.now (P.puts progress.old) (P.puts progress.new) }
    {
        let most = self.numbering.steps().count;
        if search.steps < most && search.solver.is_refuted(self.by_step(search.steps)) {
            return Ok(self.longer(search));
        }
        self.solve_round(search, progress)
    }
}

/// The log of a solver that is done.
fn log_of(solver: Solver<Text>) -> Vec<u8>
    ensures { result ≡ solver.recorder.bytes }
{
    solver.into_recorder().into_bytes()
}
