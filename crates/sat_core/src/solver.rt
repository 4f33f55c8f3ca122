ghost use Rattle.std.specs.Prelude.{◌≡◌, ◌≤◌, ◌+◌, ◌++◌, ◌∷◌, [], true, length, IsTrue, IsFalse, OnOk, OnErr, IfOk};
ghost use Rattle.std.specs.Prelude.{IfErr, IfNone, ◌^◌, ◌%◌};
ghost use Rattle.sat_clause.specs.declared.follow.Follow.TheVariants.{Yes};
ghost use Rattle.sat_clause.specs.Hints.{follow_of};
ghost use Rattle.sat_clause.specs.Closed.{IsConsistent};
ghost use Rattle.sat_trail.specs.Forced.{VarsUpTo};
ghost use Rattle.sat_trail.specs.Trails.{AllIn, depth};
ghost use Rattle.sat_trail.specs.Standing.{IsIncreasing};
ghost use Rattle.sat_core.specs.Kept.{Holds};
ghost use Rattle.sat_core.specs.Texts.{added_line, derive_line, has_room, has_room_for};
ghost use Rattle.sat_core.specs.Faults.{IsFault, IsFaultAt};
ghost use Rattle.sat_core.specs.Units.{HasUnit};
ghost use Rattle.sat_core.specs.Lines.{ascends, live_among};
ghost use Rattle.sat_clause.specs.Clauses.{opposite};

use crate::assignment::Assignment;
use crate::attaching::attach_all;
use crate::keep::keep;
use crate::order::Order;
use crate::recorder::{RecordFault, Recorder};
use crate::restarts::Restarts;
use crate::round::{resume, run_round};
use crate::round_end::RoundEnd;
use crate::spans::Spans;
use crate::units::{has_unit, is_idle};
use sat_clause::{Arena, Lit};
use sat_trail::{Learnt, Trail};
use std::alloc::{AllocError, Global};

/// Clauses of variables from 1 to their count, and the recorder that is told of each.
#[derive(Drop)]
pub struct Solver<R: Recorder> {
    alloc: Global,
    arena: Arena,
    trail: Trail,
    order: Order,
    restarts: Restarts,
    recorder: R,
    vars: u32,
    derives: u64,
    learnt: Vec<u64>,
    spans: Spans,
    live: u64,
    room: u64,
    ghost counted_alike: { R.count recorder ≡ length arena },
    ghost holds: { Holds arena trail vars },
    ghost counted: { derives ≤ length arena },
    ghost lines: { trail.parts.lines ≡ derives },
    ghost ascending: { ascends 0 learnt.items (length arena) ≡ true },
    ghost alive: { live ≤ live_among arena learnt.items },
}

/// A clause of at most so many literals is not forgotten.
const SHORT: usize = 4;

/// How many derived clauses are kept before some are forgotten.
const FEWEST: u64 = 1000;

/// A clause of negated assumptions that follows from the clauses.
#[derive(Drop)]
pub struct Core {
    /// The literals, in increasing order of their variables.
    pub clause: Vec<Lit>,
}

/// What a call of `solve` ends with.
#[derive(Drop)]
pub enum Answer {
    /// Values under which all clauses and all assumptions are true.
    Sat(Assignment),
    /// The last line derives this clause, so no values make all clauses and all assumptions true.
    Unsat(Core),
    /// As many lines were recorded as were allowed. This is the next one, which was not recorded.
    Spent {
        /// The literals, in increasing order of their variables.
        clause: Vec<Lit>,
        /// The numbers of the clauses by which it follows.
        hints: Vec<u64>,
    },
    /// The recorder had no room for the next line.
    Full {
        /// The bytes that were recorded.
        bytes: u64,
        /// The bytes of the next line, with its end.
        next: u64,
    },
    /// There was no memory.
    Memory,
}

impl<R: Recorder> Solver<R> {
    /// No clause yet. The recorder may not have counted one either; it is dropped where there is no memory.
    pub fn new(alloc: Global, recorder: R, vars: u32) -> Result<Solver<R>, AllocError>
        requires { R.count recorder ≡ 0 }
        ensures clauses { IfOk result (λ s. s.arena ≡ []) }
        ensures learnt { IfOk result (λ s. s.learnt.items ≡ []) }
        ensures recorder { IfOk result (λ s. s.recorder ≡ recorder) }
        ensures vars { IfOk result (λ s. s.vars ≡ vars) }
        ensures derives { IfOk result (λ s. s.derives ≡ 0) }
        ensures level { IfOk result (λ s. depth s.trail.steps ≡ 0) }
    {
        let trail = Trail::new(alloc, vars)?;
        let order = Order::new(alloc, vars)?;
        Ok(Solver {
            alloc,
            arena: Arena::new(alloc),
            trail,
            order,
            restarts: Restarts::new(),
            recorder,
            vars,
            derives: 0,
            learnt: Vec::new(alloc),
            spans: Spans::new(alloc),
            live: 0,
            room: FEWEST,
        })
    }

    /// The clauses of an arena, none of them derived. The recorder counts them, and may have counted none before; it is
    /// dropped with them where there is no memory.
    pub fn over(
        alloc: Global,
        arena: Arena,
        recorder: R,
        vars: u32,
    ) -> Result<Solver<R>, AllocError>
        requires none { R.count recorder ≡ 0 }
        requires in_vars { VarsUpTo arena vars }
        ensures clauses { IfOk result (λ s. s.arena ≡ arena) }
        ensures learnt { IfOk result (λ s. s.learnt.items ≡ []) }
        ensures text { IfOk result (λ s. R.text s.recorder ≡ R.text recorder) }
        ensures limit { IfOk result (λ s. R.limit s.recorder ≡ R.limit recorder) }
        ensures vars { IfOk result (λ s. s.vars ≡ vars) }
        ensures derives { IfOk result (λ s. s.derives ≡ 0) }
        ensures level { IfOk result (λ s. depth s.trail.steps ≡ 0) }
    {
        let mut recorder = recorder;
        recorder.skip(arena.count())?;
        let mut trail = Trail::new(alloc, vars)?;
        attach_all(&arena, &mut trail)?;
        let order = Order::new(alloc, vars)?;
        Ok(Solver {
            alloc,
            arena,
            trail,
            order,
            restarts: Restarts::new(),
            recorder,
            vars,
            derives: 0,
            learnt: Vec::new(alloc),
            spans: Spans::new(alloc),
            live: 0,
            room: FEWEST,
        })
    }

    /// The recorder as it stands.
    pub fn recorder(&self) -> &R
        ensures { result.now ≡ self.now.recorder }
    {
        &self.recorder
    }

    /// Gives the recorder back.
    pub fn into_recorder(self) -> R
        ensures { result ≡ self.recorder }
    {
        self.recorder
    }

    /// How many derived clauses were recorded.
    pub fn derives(&self) -> u64
        ensures { result ≡ self.now.derives }
    {
        self.derives
    }

    /// Whether a live clause is the one literal that negates this one. Then no model makes the literal true.
    pub fn is_refuted(&self, lit: Lit) -> bool
        ensures yes { IsTrue result → HasUnit (self.now.arena) (opposite lit) }
        ensures no { IsFalse result → HasUnit (self.now.arena) (opposite lit) → ⊥ }
    {
        has_unit(
            &self.arena,
            Lit {
                var: lit.var,
                negated: !lit.negated,
            },
        )
    }

    /// Adds a clause with its line, and gives the clause's number, in solver and recorder alike.
    /// Where there is no memory neither has it. The recorder has to have room for the line.
    pub fn add_clause(&mut self, line: &[u8], clause: &[Lit]) -> Result<u64, AllocError>
        requires in_vars { AllIn self.old.vars clause.now }
        requires room { has_room_for (R.limit self.old.recorder)
            (R.text self.old.recorder) (added_line line.now) ≡ true }
        ensures clauses { OnOk result (self.new.arena
            ≡ self.old.arena ++ (clause.now, true) ∷ []) }
        ensures id { IfOk result (λ id. id ≡ length (self.new.arena)) }
        ensures text { OnOk result (R.text self.new.recorder ≡ R.text self.old.recorder ++ added_line line.now) }
        ensures err { OnErr result ((self.new.arena ≡ self.old.arena)
            × (R.text self.new.recorder ≡ R.text self.old.recorder)) }
        ensures limit { R.limit self.new.recorder ≡ R.limit self.old.recorder }
        ensures learnt { self.new.learnt.items ≡ self.old.learnt.items }
        ensures vars { self.new.vars ≡ self.old.vars }
        ensures level { depth self.new.trail.steps ≡ depth self.old.trail.steps }
        ensures derives { self.new.derives ≡ self.old.derives }
    {
        let id = keep(&mut self.arena, &mut self.trail, clause)?;
        match self.recorder.add(line) {
            Ok(()) => Ok(id),
            Err(RecordFault::Memory) => {
                self.trail.detach(&self.arena, id);
                self.arena.pop();
                Err(AllocError)
            }
            Err(RecordFault::Full { .. }) => unreachable!(),
        }
    }
}

impl<R: Recorder> Solver<R> {
    ghost use Rattle.sat_core.specs.Runs.{IsRoundEnd, Ends, IsEnd, IsStep, IsRecorded, IsForgot, Forgot};
    ghost use Rattle.sat_core.specs.Solvers.{state_in};
    ghost use Rattle.sat_core.specs.Sparing.{IsSparing, IsInParts};
    ghost use Rattle.sat_core.specs.Lines.{MayForget};
    ghost use Rattle.sat_trail.specs.Attached.{is_among, IsBehindNone};
    ghost use Rattle.sat_core.specs.Answers.{IsFinal, IsLearntBeyond};

    /// Looks for values under which all clauses and assumptions are true, recording at most `left` lines.
    /// No two assumptions may be opposites. After each answer the solver stands at no assumption, and may be asked
    /// again. From the question to the first derive line, between two, and after the last, at most as many decisions
    /// are made as there are variables, each while the earlier ones stand: so the search begins anew only beside a
    /// derive line.
    pub fn solve(&mut self, assumptions: &[Lit], left: u64) -> Answer
        requires assumed { AllIn self.old.vars assumptions.now }
        requires consistent { IsConsistent assumptions.now }
        ensures run { Ends (state_in self.old) (state_in self.new) assumptions.now self.old.vars left result }
        ensures vars { self.new.vars ≡ self.old.vars }
        ensures level { depth self.new.trail.steps ≡ 0 }
        ensures sparing { IsSparing self.old.vars self.new.trail }
        ensures parts { IsInParts self.old.trail self.new.trail self.new.derives }
    {
        self.begin();
        let answer = self.search(assumptions, left);
        self.go_back(0);
        answer
    }

    /// Counts decisions anew, as a question begins.
    fn begin(&mut self)
        ensures state { state_in self.new ≡ state_in self.old }
        ensures vars { self.new.vars ≡ self.old.vars }
        ensures undecided { self.new.trail.pace.made ≡ 0 }
        ensures questions { self.new.trail.parts.questions ≡ (self.old.trail.parts.questions + 1) % 2 ^ 64 }
    {
        self.trail.begin_question();
    }

    /// Takes off the levels above the one given.
    fn go_back(&mut self, level: u32)
        ensures state { state_in self.new ≡ state_in self.old }
        ensures recorder { self.new.recorder ≡ self.old.recorder }
        ensures same_learnt { self.new.learnt.items ≡ self.old.learnt.items }
        ensures vars { self.new.vars ≡ self.old.vars }
        ensures depth { depth self.new.trail.steps ≤ level }
        ensures pace { self.new.trail.pace ≡ self.old.trail.pace }
        ensures parts { self.new.trail.parts ≡ self.old.trail.parts }
    {
        self.order.free(self.trail.steps(), level);
        self.trail.back(level);
    }

    /// Adds a clause that follows by its hints, and records it.
    fn record(
        &mut self,
        clause: &[Lit],
        hints: &[u64],
        level: u32,
        levels: u32,
    ) -> Result<(), RecordFault>
        requires follows { follow_of self.old.arena clause.now hints.now ≡ Yes }
        requires increasing { IsIncreasing clause.now }
        requires in_vars { AllIn self.old.vars clause.now }
        ensures recorded { OnOk result (IsRecorded (state_in self.old) (state_in self.new) clause.now hints.now) }
        ensures err { OnErr result (state_in self.new ≡ state_in self.old) }
        ensures fault { IfErr result
            (IsFaultAt (R.limit self.old.recorder) (R.text self.old.recorder) (derive_line clause.now hints.now)) }
        ensures vars { self.new.vars ≡ self.old.vars }
        ensures undecided { OnOk result (self.new.trail.pace.made ≡ 0) }
        ensures questions { self.new.trail.parts.questions ≡ self.old.trail.parts.questions }
    {
        self.order.raise_all(&self.arena, hints);
        let level = if self.restarts.begins() { 0 } else { level };
        self.go_back(level);
        if self.learnt.reserve(1).is_err() {
            return Err(RecordFault::Memory);
        }
        let Ok(id) = keep(&mut self.arena, &mut self.trail, clause) else {
            return Err(RecordFault::Memory);
        };
        if let Err(fault) = self.recorder.derive(clause, hints) {
            self.trail.detach(&self.arena, id);
            self.arena.pop();
            return Err(fault);
        }
        self.spans.note(self.learnt.len(), levels);
        self.learnt.push_reserved(id);
        self.live = self.live.saturating_add(1);
        self.derives += 1;
        self.trail.begin_line(self.derives);
        Ok(())
    }

    /// Whether a derived clause is long, behind no literal, and at least half of the derived ones stay live without it.
    fn may_forget(&self, id: u64) -> bool
        requires { is_among self.now.learnt.items id ≡ true }
        ensures may { IsTrue result → MayForget (self.now.arena) (self.now.learnt.items) id }
        ensures idle { IsTrue result → IsBehindNone self.now.trail.steps id }
    {
        if !self.arena.live(id) {
            return false;
        }
        if self.arena.clause(id).len() <= SHORT {
            return false;
        }
        let rest = self.live.saturating_sub(1);
        let half = self.learnt.len() as u64 / 2;
        if half >= rest {
            return false;
        }
        is_idle(self.trail.steps(), id)
    }

    /// Forgets a derived clause.
    fn forget(&mut self, id: u64) -> Result<(), RecordFault>
        requires may { MayForget self.old.arena (self.old.learnt.items) id }
        requires idle { IsBehindNone self.old.trail.steps id }
        ensures gone { OnOk result (IsForgot (state_in self.old) (state_in self.new) id) }
        ensures err { OnErr result (state_in self.new ≡ state_in self.old) }
        ensures same_learnt { self.new.learnt.items ≡ self.old.learnt.items }
        ensures vars { self.new.vars ≡ self.old.vars }
        ensures pace { self.new.trail.pace ≡ self.old.trail.pace }
        ensures parts { self.new.trail.parts ≡ self.old.trail.parts }
    {
        self.recorder.forget(id)?;
        self.trail.detach(&self.arena, id);
        self.arena.forget(id);
        self.live = self.live.saturating_sub(1);
        Ok(())
    }

    /// Forgets the derived clause at a place where it may be forgotten.
    fn forget_if_long(&mut self, place: usize) -> Result<(), RecordFault>
        ensures gone { (assumptions : _) → Forgot assumptions (state_in self.old) (state_in self.new) }
        ensures same_learnt { self.new.learnt.items ≡ self.old.learnt.items }
        ensures vars { self.new.vars ≡ self.old.vars }
        ensures pace { self.new.trail.pace ≡ self.old.trail.pace }
        ensures parts { self.new.trail.parts ≡ self.old.trail.parts }
    {
        if place >= self.learnt.len() {
            return Ok(());
        }
        let id = self.learnt[place];
        if !self.may_forget(id) {
            return Ok(());
        }
        self.forget(id)
    }

    /// Forgets long derived clauses, those of most levels first, where there are many. It ends where the recorder has
    /// no room.
    fn forget_some(&mut self)
        ensures gone { (assumptions : _) → Forgot assumptions (state_in self.old) (state_in self.new) }
        ensures vars { self.new.vars ≡ self.old.vars }
        ensures pace { self.new.trail.pace ≡ self.old.trail.pace }
        ensures parts { self.new.trail.parts ≡ self.old.trail.parts }
    {
        if self.live <= self.room {
            return;
        }
        self.room = self.live.saturating_add(FEWEST);
        self.go_back(0);
        let Ok(places) = self
            .spans
            .least_worth(self.alloc, &self.arena, &self.learnt)
        else {
            return;
        };
        let mut done = 0;
        'old: while done < places.len() {
            if self.forget_if_long(places[done]).is_err() {
                return;
            }
            done += 1;
        }
        self.room = self.live.saturating_add(self.live / 8 + FEWEST);
    }

    /// Step after step, each of which but the last ends with a line.
    fn search(&mut self, assumptions: &[Lit], left: u64) -> Answer
        requires assumed { AllIn self.old.vars assumptions.now }
        requires consistent { IsConsistent assumptions.now }
        requires undecided { self.old.trail.pace.made ≡ 0 }
        ensures run { Ends (state_in self.old) (state_in self.new) assumptions.now self.old.vars left result }
        ensures vars { self.new.vars ≡ self.old.vars }
        ensures questions { self.new.trail.parts.questions ≡ self.old.trail.parts.questions }
    {
        'derive: for done in 0..=left {
            if let Some(answer) = self.step(assumptions, done == left) {
                return answer;
            }
        }
        unreachable!()
    }

    /// One round, and the line that it ends with, unless this is the last step. There is no answer where a line was
    /// recorded.
    fn step(&mut self, assumptions: &[Lit], last: bool) -> Option<Answer>
        requires assumed { AllIn self.old.vars assumptions.now }
        requires consistent { IsConsistent assumptions.now }
        requires undecided { self.old.trail.pace.made ≡ 0 }
        ensures step { IsStep (state_in self.old) (state_in self.new) assumptions.now self.old.vars last result }
        ensures vars { self.new.vars ≡ self.old.vars }
        ensures undecided { IfNone result (self.new.trail.pace.made ≡ 0) }
        ensures questions { self.new.trail.parts.questions ≡ self.old.trail.parts.questions }
    {
        match self.round(assumptions) {
            Err(AllocError) => Some(Answer::Memory),
            Ok(RoundEnd::Model(values)) => Some(Answer::Sat(values)),
            Ok(RoundEnd::Final(why)) => Some(self.finish(why, assumptions, last)),
            Ok(RoundEnd::New(why)) => self.analyze(why, assumptions, last),
        }
    }

    /// Records the line of negated assumptions that a run ends with, unless no line is left.
    fn finish(&mut self, why: Learnt, _assumptions: &[Lit], last: bool) -> Answer
        requires assumed { AllIn self.old.vars _assumptions.now }
        requires final_ { IsFinal self.old.arena _assumptions.now why.clause.items why.hints.items }
        ensures end { IsEnd (state_in self.old) (state_in self.new) _assumptions.now self.old.vars last result }
        ensures vars { self.new.vars ≡ self.old.vars }
        ensures questions { self.new.trail.parts.questions ≡ self.old.trail.parts.questions }
    {
        if last {
            return Answer::Spent {
                clause: why.clause,
                hints: why.hints,
            };
        }
        match self.record(
            &why.clause,
            &why.hints,
            why.level.saturating_sub(1),
            why.levels,
        ) {
            Ok(()) => Answer::Unsat(Core { clause: why.clause }),
            Err(RecordFault::Full { bytes, next }) => Answer::Full { bytes, next },
            Err(RecordFault::Memory) => Answer::Memory,
        }
    }

    /// Records a new line, unless no line is left.
    fn analyze(&mut self, why: Learnt, _assumptions: &[Lit], last: bool) -> Option<Answer>
        requires in_vars { AllIn self.old.vars why.clause.items }
        requires learnt { IsLearntBeyond self.old.arena _assumptions.now
            why.clause.items why.hints.items }
        ensures step { IsStep (state_in self.old) (state_in self.new) _assumptions.now self.old.vars last result }
        ensures vars { self.new.vars ≡ self.old.vars }
        ensures undecided { IfNone result (self.new.trail.pace.made ≡ 0) }
        ensures questions { self.new.trail.parts.questions ≡ self.old.trail.parts.questions }
    {
        if last {
            return Some(Answer::Spent {
                clause: why.clause,
                hints: why.hints,
            });
        }
        match self.record(
            &why.clause,
            &why.hints,
            why.level.saturating_sub(1),
            why.levels,
        ) {
            Ok(()) => {
                self.forget_some();
                None
            }
            Err(RecordFault::Full { bytes, next }) => Some(Answer::Full { bytes, next }),
            Err(RecordFault::Memory) => Some(Answer::Memory),
        }
    }

    /// One round, up to values for all variables or to a clause that follows.
    fn round(&mut self, assumptions: &[Lit]) -> Result<RoundEnd, AllocError>
        requires assumed { AllIn self.old.vars assumptions.now }
        requires consistent { IsConsistent assumptions.now }
        requires undecided { self.old.trail.pace.made ≡ 0 }
        ensures state { state_in self.new ≡ state_in self.old }
        ensures vars { self.new.vars ≡ self.old.vars }
        ensures parts { self.new.trail.parts ≡ self.old.trail.parts }
        ensures found { IfOk result (λ f. IsRoundEnd self.old.arena assumptions.now self.old.vars f) }
    {
        if let Some(found) = resume(
            self.alloc,
            &self.arena,
            &mut self.trail,
            &mut self.order,
            self.vars,
            assumptions,
        )? {
            return Ok(found);
        }
        self.go_back(0);
        run_round(
            self.alloc,
            &self.arena,
            &mut self.trail,
            &mut self.order,
            self.vars,
            assumptions,
        )
    }
}
