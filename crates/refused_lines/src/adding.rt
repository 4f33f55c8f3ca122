//! Clauses given to a solver whose recorder may want memory.

ghost use Rattle.std.specs.Prelude.{◌≡◌, IsTrue, length};
ghost use Rattle.std.specs.List.{list_all};
ghost use Rattle.refused_lines.specs.Variables.{is_in};
ghost use Rattle.sat_core.specs.Texts.{added_line};
ghost use Rattle.sat_trail.specs.Trails.{AllIn};

use anyhow::{Result, ensure};
use halting::Halting;
use log_recorder::Text;
use sat_clause::Lit;
use sat_core::{Answer, Recorder, Solver};

/// The most derived lines of an answer.
const MOST_LINES: u64 = 1_000_000;

/// A solver whose recorder stops at chosen calls.
pub(crate) type HaltingSolver = Solver<Halting<Text>>;

impl SearchState {
    /// Gives the solver a clause with its line, once more where memory was wanting the first time.
    pub(crate) fn add(&mut self, line: &[u8], clause: &[Lit]) -> Result<()> {
        let vars = self.vars;
        if is_added(&mut self.solver, vars, line, clause)? {
            return Ok(());
        }
        self.refused = self.refused.saturating_add(1);
        ensure!(
            is_added(&mut self.solver, vars, line, clause)?,
            "memory is wanting"
        );
        Ok(())
    }

    /// Asks the solver for values that make a literal true.
    pub(crate) fn solve_under(&mut self, assumed: Lit) -> Result<Answer> {
        let vars = self.vars;
        ensure!(are_in(vars, &[assumed]), "the literal is of no variable");
        Ok(self.solver.solve(&[assumed], MOST_LINES))
    }
}

/// Whether a literal is of one of so many variables.
fn is_in(vars: u32, lit: Lit) -> bool
    ensures { result ≡ is_in vars lit }
{
    1 <= lit.var && lit.var <= vars
}

/// Whether each literal is.
fn all_are_in(vars: u32, clause: &[Lit]) -> bool
    ensures { result ≡ list_all (is_in vars) clause.now }
{
    clause.iter().all(|lit| is_in(vars, *lit))
}

/// Whether a clause may be given to a solver of so many variables.
fn are_in(vars: u32, clause: &[Lit]) -> bool
    ensures { IsTrue result → AllIn vars clause.now }
{
    all_are_in(vars, clause)
}

/// How many bytes a line takes in a log, with its end; none where it is empty.
fn line_length(line: &[u8]) -> u64
    ensures { result ≡ length (added_line line.now) }
{
    if line.is_empty() {
        return 0;
    }
    line.len() as u64 + 1
}

/// A search that goes on.
#[derive(Drop)]
pub(crate) struct SearchState {
    pub(crate) solver: HaltingSolver,
    /// How many variables there are.
    pub(crate) vars: u32,
    /// A plan of so many steps is looked for.
    pub(crate) step: u32,
    /// How often memory was wanting.
    pub(crate) refused: u64,
    pub(crate) ghost same: { solver.vars ≡ vars },
}

/// Gives a solver a clause with its line, and says whether memory sufficed.
fn is_added(solver: &mut HaltingSolver, vars: u32, line: &[u8], clause: &[Lit]) -> Result<bool>
    requires { solver.old.vars ≡ vars }
    ensures { solver.new.vars ≡ solver.old.vars }
{
    ensure!(are_in(vars, clause), "a literal is of no variable");
    ensure!(
        solver.recorder().room(line_length(line)),
        "the log has no room"
    );
    Ok(solver.add_clause(line, clause).is_ok())
}
