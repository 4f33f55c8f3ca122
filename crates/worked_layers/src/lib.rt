//! Worked examples below the commands: runs and searches whose budgets no command gives, clauses and normal plans for
//! which none asks, and each plan run from event to event and tick by tick.
#![tactic(auto)]

use anyhow::{Result, bail, ensure};
use clause_spec::{BaseKind, Turns};
use infra_reader::read_design;
use interlocking::{Interlocking, Steps};
use plan_encoding::{base, base_of};
use rail_base::history::{TrainHistory, Verdict};
use rail_base::plan::Plan;
use rail_outside::NullSink;
use rail_plan::normal::normalise;
use rail_plan::reading::read_plan;
use rail_routes::interlocking;
use sat_clause::Lit;
use std::alloc::Global;
use verify_loop::{Aim, Budgets, Outcome, Wanted, verify};
use worked_examples::{Behind, Row, Run, Search, Text};

/// How many runs, searches, lists of clauses and normal plans of a worked example are not what they have to be; each is
/// named.
pub fn wrong_layers(rt: &impl Print, alloc: Global, row: &Row<'_>, texts: &[Text]) -> Result<u64> {
    if row.runs.is_empty()
        && row.searches.is_empty()
        && row.behind.is_empty()
        && row.normalised.is_none()
    {
        return Ok(0);
    }
    let design = read_design(alloc, bytes_of(texts, "design.toml"))?;
    let interlocking = interlocking(alloc, design)?;
    let plan = bytes_of(texts, "plan.json");
    let runs = wrong_runs(rt, alloc, &interlocking, row, plan)?;
    let searches = wrong_searches(rt, alloc, &interlocking, row)?;
    let behind = wrong_behind(rt, alloc, &interlocking, row)?;
    let normalised = wrong_normalised(rt, alloc, &interlocking, row, plan)?;
    Ok(
        runs.saturating_add(searches)
            .saturating_add(behind)
            .saturating_add(normalised),
    )
}

/// Whether a plan shows the same from event to event and tick by tick, up to the horizon: the verdict, its tick, its
/// violation and what happened to each train. `None` where the files of a worked example have no plan to be run.
pub fn runs_both_ways(alloc: Global, texts: &[Text]) -> Result<Option<bool>> {
    let Ok(design) = read_design(alloc, bytes_of(texts, "design.toml")) else {
        return Ok(None);
    };
    let Ok(interlocking) = interlocking(alloc, design) else {
        return Ok(None);
    };
    let Ok(plan) = read_plan(alloc, &interlocking, bytes_of(texts, "plan.json")) else {
        return Ok(None);
    };
    let ticks = interlocking.design.horizon();
    let by_events = plan_run::simulate(alloc, &interlocking, &plan, ticks)?;
    let by_ticks = tick_sim::simulate(alloc, &interlocking, &plan, ticks)?;
    Ok(Some(is_same(&by_events, &by_ticks)))
}

/// Whether two verdicts are one.
fn is_same(one: &Verdict, other: &Verdict) -> bool {
    match (one, other) {
        (
            Verdict::Met { history, tick },
            Verdict::Met {
                history: histories,
                tick: at,
            },
        ) => tick == at && are_same(history.as_slice(), histories.as_slice()),
        (
            Verdict::Failed {
                history,
                tick,
                violation,
            },
            Verdict::Failed {
                history: histories,
                tick: at,
                violation: way,
            },
        ) => {
            tick == at && violation == way && are_same(history.as_slice(), histories.as_slice())
        }
        _ => false,
    }
}

/// Whether the same happened to all trains.
fn are_same(history: &[TrainHistory], other: &[TrainHistory]) -> bool {
    history.len() == other.len()
        && history
            .iter()
            .zip(other.iter())
            .all(|(one, other)| is_same_train(one, other))
}

/// Whether the same happened to two trains.
fn is_same_train(one: &TrainHistory, other: &TrainHistory) -> bool {
    one.grants.as_slice() == other.grants.as_slice()
        && one.passes.as_slice() == other.passes.as_slice()
        && one.releases.as_slice() == other.releases.as_slice()
        && one.holds.as_slice() == other.holds.as_slice()
        && one.visits.as_slice() == other.visits.as_slice()
        && one.dwells.as_slice() == other.dwells.as_slice()
}

/// The bytes of a file of a worked example; none where it has no such file.
fn bytes_of<'a>(texts: &'a [Text], name: &str) -> &'a [u8] {
    match texts.iter().find(|file| file.name == name) {
        Some(file) => file.text.as_bytes(),
        None => &[],
    }
}

/// Whether a plan is met at the tick that is named, or where none is named nothing is decided.
fn ends(verdict: &Verdict, met: Option<u64>) -> bool {
    match verdict {
        Verdict::Met { tick, .. } => met == Some(*tick),
        Verdict::Failed { .. } => false,
        Verdict::Undecided => met.is_none(),
    }
}

/// Whether a run shows what it has to, from event to event and tick by tick.
fn shows(alloc: Global, interlocking: &Interlocking, plan: &[u8], run: &Run) -> Result<bool> {
    let plan = read_plan(alloc, interlocking, plan)?;
    let by_events = plan_run::simulate(alloc, interlocking, &plan, run.ticks)?;
    let by_ticks = tick_sim::simulate(alloc, interlocking, &plan, run.ticks)?;
    Ok(ends(&by_events, run.met) && ends(&by_ticks, run.met))
}

/// Whether a search ends for want of room in its log, and says what it has to.
fn lacks_room(alloc: Global, interlocking: &Interlocking, search: &Search) -> Result<bool> {
    ensure!(
        1 <= search.steps && search.steps <= 256,
        "steps out of range"
    );
    let steps = Steps {
        count: search.steps,
    };
    let budgets = Budgets {
        conflicts: 1000,
        ticks: 1000,
        log_bytes: search.log_bytes,
    };
    let aim = Aim {
        base: BaseKind::Plain,
        wanted: Wanted::Fewest,
    };
    let mut unseen = NullSink;
    match verify(alloc, interlocking, steps, aim, budgets, &mut unseen) {
        Outcome::LogSpent { bytes, next, .. } => {
            Ok(bytes == search.bytes && search.next.is_none_or(|wanted| wanted == next))
        }
        _ => Ok(false),
    }
}

/// The literals of a clause, with a space between each and the next.
fn clause_text(alloc: Global, clause: &[Lit]) -> Result<String> {
    let mut text = String::new(alloc);
    for lit in clause {
        let gap = if text.is_empty() { "" } else { " " };
        let sign = if lit.negated { "-" } else { "" };
        let var = lit.var;
        write!(text, "{gap}{sign}{var}")?;
    }
    Ok(text)
}

/// The base of a name.
fn kind_of(name: &str) -> Result<BaseKind> {
    match name {
        "sorted" => Ok(BaseKind::Sorted),
        "normal" => Ok(BaseKind::Normal),
        "live" => Ok(BaseKind::Live(Turns::All)),
        _ => bail!("a base is sorted, normal or live"),
    }
}

/// Whether a base has just the clauses that are named behind those of the plain base.
fn come_behind(alloc: Global, interlocking: &Interlocking, behind: &Behind<'_>) -> Result<bool> {
    ensure!(
        1 <= behind.steps && behind.steps <= 256,
        "steps out of range"
    );
    let steps = Steps {
        count: behind.steps,
    };
    let before = base(alloc, interlocking, steps)?.clauses.count();
    let listed = base_of(alloc, interlocking, steps, kind_of(behind.base)?)?.clauses;
    if listed.count() != before.saturating_add(behind.clauses.len() as u64) {
        return Ok(false);
    }
    for (place, wanted) in behind.clauses.iter().enumerate() {
        let id = before.saturating_add(place as u64).saturating_add(1);
        if !listed.live(id) || clause_text(alloc, listed.clause(id))?.as_str() != *wanted {
            return Ok(false);
        }
    }
    Ok(true)
}

/// How many runs of a worked example do not what they have to; each is named.
fn wrong_runs(
    rt: &impl Print,
    alloc: Global,
    interlocking: &Interlocking,
    row: &Row<'_>,
    plan: &[u8],
) -> Result<u64> {
    let mut wrong = 0u64;
    for run in row.runs.iter() {
        if !shows(alloc, interlocking, plan, run)? {
            println!(rt; "{}: {} ticks show something else", row.name, run.ticks)?;
            wrong = wrong.saturating_add(1);
        }
    }
    Ok(wrong)
}

/// How many searches of a worked example do not what they have to; each is named.
fn wrong_searches(
    rt: &impl Print,
    alloc: Global,
    interlocking: &Interlocking,
    row: &Row<'_>,
) -> Result<u64> {
    let mut wrong = 0u64;
    for search in row.searches.iter() {
        if !lacks_room(alloc, interlocking, search)? {
            println!(rt;
                "{}: a log of {} bytes ends otherwise",
                row.name, search.log_bytes
            )?;
            wrong = wrong.saturating_add(1);
        }
    }
    Ok(wrong)
}

/// Whether two plans are one.
fn is_same_plan(one: &Plan, other: &Plan) -> bool {
    let (one, other) = (one.steps.as_slice(), other.steps.as_slice());
    one.len() == other.len()
        && one
            .iter()
            .zip(other.iter())
            .all(|(step, other)| step.as_slice() == other.as_slice())
}

/// How many plans are not normalised as they have to be: one at most, which is named.
fn wrong_normalised(
    rt: &impl Print,
    alloc: Global,
    interlocking: &Interlocking,
    row: &Row<'_>,
    plan: &[u8],
) -> Result<u64> {
    let Some(wanted) = row.normalised else {
        return Ok(0);
    };
    let plan = read_plan(alloc, interlocking, plan)?;
    let wanted = read_plan(alloc, interlocking, wanted.as_bytes())?;
    if is_same_plan(&normalise(alloc, interlocking, &plan)?, &wanted) {
        return Ok(0);
    }
    println!(rt; "{}: the plan is normalised otherwise", row.name)?;
    Ok(1)
}

/// How many lists of clauses of a worked example are not as they have to be; each is named.
fn wrong_behind(
    rt: &impl Print,
    alloc: Global,
    interlocking: &Interlocking,
    row: &Row<'_>,
) -> Result<u64> {
    let mut wrong = 0u64;
    for behind in row.behind.iter() {
        if !come_behind(alloc, interlocking, behind)? {
            println!(rt; "{}: {} steps have other clauses", row.name, behind.steps)?;
            wrong = wrong.saturating_add(1);
        }
    }
    Ok(wrong)
}
