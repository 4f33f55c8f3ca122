//! A search whose recorder stops at chosen calls, and which then goes on as if nothing had been.

ghost use Rattle.std.specs.Prelude.{◌≡◌, IfOk};
ghost use Rattle.interlocking.specs.Plans.{IsRunnable};
ghost use Rattle.clause_spec.specs.declared.question.BaseKind.TheVariants.{Plain};
ghost use Rattle.plan_encoding.specs.Bases.{IsBaseOf};

use crate::adding::SearchState;
use anyhow::{Result, bail, ensure};
use bound_spec::Evidence;
use clause_spec::{BaseKind, Question};
use cone_clause::Contention;
use halting::Halting;
use interlocking::{Interlocking, Steps};
use log_checker::Refuter;
use log_recorder::Text;
use plan_decoder::decode;
use plan_encoding::{Base, base};
use plan_run::simulate;
use plan_text::writing::write_plan;
use proof_judge::ByDesign;
use proof_log::{Head, Line, write_head, write_line};
use rail_base::history::Verdict;
use rail_base::plan::Plan;
use rail_plan::reading::read_plan;
use sat_clause::Lit;
use sat_core::{Answer, Assignment, Recorder, Solver};
use std::alloc::Global;
use timing_refuter::slice;

/// The most rounds of a search.
const ROUNDS: u32 = 1000;

/// The most ticks of a run, and the most bytes of a log.
const MOST: u64 = 1_000_000;

/// How a search ended.
#[derive(Drop)]
pub(crate) struct Ended {
    /// The bytes of the recorder.
    pub(crate) log: Vec<u8>,
    /// How many calls the recorder took that may want memory.
    pub(crate) calls: u64,
    /// How often memory was wanting.
    pub(crate) refused: u64,
}

/// What is searched.
#[derive(Clone, Copy)]
struct PlanSearch<'a> {
    alloc: Global,
    interlocking: &'a Interlocking,
    base: &'a Base,
    ghost numbers: { let i = interlocking.now in
        IsBaseOf Plain i.design.station i.routes base.now.numbering.steps base.now },
}

/// Looks for a plan of so many steps, where the recorder stops at these calls, until it is shown that there is none.
///
/// # Errors
///
/// Want of memory that was not asked for, a plan that is met, and a round in which a budget is spent.
pub(crate) fn refute(
    alloc: Global,
    interlocking: &Interlocking,
    steps: Steps,
    stops: &[u64],
) -> Result<Ended> {
    let base = base(alloc, interlocking, steps)?;
    let plan_search = PlanSearch {
        alloc,
        interlocking,
        base: &base,
    };
    let mut search = plan_search.start(stops)?;
    for _ in 0..ROUNDS {
        if plan_search.refine(&mut search)? {
            let refused = search.refused;
            let recorder = search.solver.into_recorder();
            let calls = recorder.calls();
            let log = recorder.into_inner().into_bytes();
            return Ok(Ended {
                log,
                calls,
                refused,
            });
        }
    }
    bail!("too many rounds")
}

impl PlanSearch<'_> {
    /// The plan that these values give, as its text reads back.
    fn plan_of(&self, values: &Assignment) -> Result<Plan>
        ensures { IfOk result (λ p. IsRunnable self.now.interlocking.now 256 p.steps) }
    {
        let plan = decode(self.alloc, &self.base.numbering, values)?;
        let text = write_plan(self.alloc, &self.interlocking.design, &plan)?;
        Ok(read_plan(self.alloc, self.interlocking, text.as_slice())?)
    }

    /// The slice of a plan that fails.
    fn evidence(&self, plan: &Plan) -> Result<Evidence>
        requires { IsRunnable self.now.interlocking.now 256 plan.now.steps }
    {
        match simulate(self.alloc, self.interlocking, plan, MOST)? {
            Verdict::Failed {
                history,
                tick,
                violation,
            } => {
                let cone = slice(
                    self.alloc,
                    self.interlocking,
                    plan,
                    &history,
                    tick,
                    violation,
                )?;
                Ok(Evidence::Cone(cone))
            }
            _ => bail!("a plan is met or not decided"),
        }
    }

    /// The clause that evidence shows.
    fn clause_of(&self, evidence: &Evidence) -> Result<Vec<Lit>> {
        let contention = Contention {
            interlocking: self.interlocking,
            pairs: self.base.numbering.pairs(),
        };
        let design = ByDesign {
            contention,
            kind: BaseKind::Plain,
            steps: self.base.numbering.steps(),
        };
        match design.clause_of(self.alloc, evidence) {
            Ok(clause) => Ok(clause),
            Err(_) => bail!("a slice is not valid"),
        }
    }

    /// Excludes the plan that these values give.
    fn exclude(&self, search: &mut SearchState, values: &Assignment) -> Result<()> {
        let plan = self.plan_of(values)?;
        let evidence = self.evidence(&plan)?;
        let clause = self.clause_of(&evidence)?;
        let line = write_line(self.alloc, &Line::Refute { evidence })?;
        search.add(line.as_slice(), clause.as_slice())
    }

    /// One round, and whether it shows that there is no plan.
    fn refine(&self, search: &mut SearchState) -> Result<bool> {
        let most = self.base.numbering.steps().count;
        let step = search.step;
        ensure!(step <= most, "too many steps");
        let selector = self.base.numbering.selector(step);
        match search.solve_under(selector)? {
            Answer::Sat(values) => {
                self.exclude(search, &values)?;
                Ok(false)
            }
            Answer::Unsat(core) => {
                if core.clause.is_empty() || step == most {
                    return Ok(true);
                }
                search.step = step + 1;
                Ok(false)
            }
            Answer::Memory => {
                search.refused = search.refused.saturating_add(1);
                Ok(false)
            }
            _ => bail!("a budget is spent"),
        }
    }

    /// The clauses of the base, given to a solver whose recorder stops at these calls.
    fn start(&self, stops: &[u64]) -> Result<SearchState> {
        let question = Question {
            version: u64::from(self.interlocking.design.station.version),
            steps: u64::from(self.base.numbering.steps().count),
            base: BaseKind::Plain,
        };
        let line = write_head(self.alloc, Head::Of(question))?;
        let Ok(text) = Text::new(self.alloc, MOST, line.as_slice()) else {
            bail!("a log has no room for its head");
        };
        let vars = self.base.numbering.variables(BaseKind::Plain).count;
        let solver = Solver::new(self.alloc, Halting::new(self.alloc, text, stops)?, vars)?;
        let mut search = SearchState {
            solver,
            vars,
            step: 1,
            refused: 0,
        };
        let clauses = &self.base.clauses;
        for done in 0..clauses.count() {
            let id = done + 1;
            ensure!(clauses.live(id), "a clause of the base is not live");
            search.add(&[], clauses.clause(id))?;
        }
        Ok(search)
    }
}
