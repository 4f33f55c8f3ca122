//! How bases are made: all clauses are emitted twice, first to count their literals, then to keep them; those that a
//! base has beside them are emitted once.

ghost use Rattle.std.specs.Prelude.{◌≡◌, [], true, IfOk, OnOk, IfErr};
ghost use Rattle.alike_clause_spec.specs.Turns.{turn_pairs};
ghost use Rattle.clause_spec.specs.declared.question.BaseKind.TheVariants.{Live, Normal, Plain};
ghost use Rattle.command_set.specs.Commands.{AreCommandsOf, is_among};
ghost use Rattle.plan_encoding.specs.Bases.{AreRefused, IsBaseOf, IsOver, IsRefused, plain_base};
ghost use Rattle.plan_encoding.specs.Bases.{plain_clauses, speaks_of, turns_base};
ghost use Rattle.plan_encoding.specs.Encoders.{Emits, Stops, among};
ghost use Rattle.plan_encoding.specs.Normal.{normal_part};
ghost use Rattle.plan_encoding.specs.Numberings.{IsNumberingOf};
ghost use Rattle.plan_encoding.specs.Sinks.{Emitted, FaultSays, emitted};

use crate::encoder::Encoder;
use crate::normal::NormalEncoder;
use crate::numbering::{Base, Numbering, number_variables};
use crate::sink::{BaseFault, ClauseSink};
use clause_spec::{BaseKind, Turns};
use command_set::CommandSet;
use interlocking::{Interlocking, Steps};
use live_contending::ContendingPairs;
use rail_alike::{neighbors, neighbors_beside};
use rail_base::design::Design;
use rail_base::list::List;
use rail_base::station::TrainNo;
use std::alloc::{AllocError, Global};

/// The base of a design and its routes, for plans of up to so many steps: the clauses that the model of each feasible
/// plan makes true, numbered from 1.
///
/// # Errors
///
/// `TooLarge` exactly where the clauses have more than 16,000,000 literals; `Memory` where memory is wanting.
pub fn base(alloc: Global, interlocking: &Interlocking, steps: Steps) -> Result<Base, BaseFault>
    ensures base { IfOk result (IsBaseOf Plain interlocking.now.design.station interlocking.now.routes steps.count) }
    ensures fault { IfErr result (IsRefused Plain interlocking.now.design.station interlocking.now.routes steps.count) }
{
    let commands = CommandSet::all(alloc, interlocking)?;
    plain_over(alloc, interlocking, steps, commands)
}

/// The plain clauses over the live commands of a design alone, with those that these trains come in turn.
fn live_base(
    alloc: Global,
    interlocking: &Interlocking,
    steps: Steps,
    turns: Turns,
) -> Result<Base, BaseFault>
    ensures base { IfOk result
        (IsBaseOf (Live turns) interlocking.now.design.station interlocking.now.routes steps.count) }
    ensures fault { IfErr result
        (IsRefused (Live turns) interlocking.now.design.station interlocking.now.routes steps.count) }
{
    let commands = CommandSet::live(alloc, interlocking)?;
    let base = plain_over(alloc, interlocking, steps, commands)?;
    with_turns(alloc, interlocking, base, turns)
}

/// The plain clauses over commands of a design, where all others are never given.
fn plain_over(
    alloc: Global,
    interlocking: &Interlocking,
    steps: Steps,
    commands: CommandSet,
) -> Result<Base, BaseFault>
    requires { AreCommandsOf interlocking.now.design.station interlocking.now.routes commands }
    ensures base { IfOk result
        (IsOver commands plain_base interlocking.now.design.station interlocking.now.routes steps.count) }
    ensures fault { IfErr result (AreRefused
        (plain_base (is_among commands) interlocking.now.design.station interlocking.now.routes steps.count)) }
{
    let pairs = ContendingPairs::new(alloc, interlocking, commands)?;
    let encoder = Encoder {
        interlocking,
        steps,
        pairs: &pairs,
    };
    let sink = encoder.emit_twice(alloc)?;
    let literals = sink.literals();
    Ok(Base {
        numbering: number_variables(steps, pairs),
        clauses: sink.into_clauses(),
        literals,
    })
}

impl Encoder<'_> {
    /// A sink with all plain clauses, for which room was made.
    fn emit_twice(&self, alloc: Global) -> Result<ClauseSink, BaseFault>
        ensures ok { IfOk result (λ sink. Emits self.now (among self.now plain_clauses)
            (record { keep = true; literals = 0; clauses = [] }) sink) }
        ensures err { IfErr result (Stops self.now (among self.now plain_clauses)
            (record { keep = true; literals = 0; clauses = [] })) }
    {
        let tables = self.tables(alloc)?;
        let mut count = ClauseSink::new(alloc, false);
        tables.emit_all(alloc, &mut count)?;
        let mut sink = count.with_room(alloc)?;
        tables.emit_all(alloc, &mut sink)?;
        Ok(sink)
    }
}

/// Each train with the next one that is like it: of all of them, or of those that a within doesn't name.
fn pairs_in_turn(
    alloc: Global,
    design: &Design,
    turns: Turns,
) -> Result<List<(TrainNo, TrainNo)>, AllocError>
    ensures { IfOk result (λ pairs. pairs ≡ turn_pairs turns design.now.station) }
{
    match turns {
        Turns::All => neighbors(alloc, design),
        Turns::Beside { within } => neighbors_beside(alloc, design, within),
    }
}

/// A base with the clauses that each of these trains comes in turn with the next one that is like it. Where a plan is
/// feasible, the model of some plan of no more steps makes all of them true.
fn with_turns(
    alloc: Global,
    interlocking: &Interlocking,
    base: Base,
    turns: Turns,
) -> Result<Base, BaseFault>
    requires base { IsOver base.numbering.commands plain_base
        interlocking.now.design.station interlocking.now.routes base.numbering.steps base }
    ensures base { IfOk result (IsOver base.numbering.commands (turns_base turns)
        interlocking.now.design.station interlocking.now.routes base.numbering.steps) }
    ensures fault { IfErr result (AreRefused (turns_base turns (is_among base.numbering.commands)
        interlocking.now.design.station interlocking.now.routes base.numbering.steps)) }
{
    let Base {
        numbering,
        clauses,
        literals,
    } = base;
    let turn_pairs = pairs_in_turn(alloc, &interlocking.design, turns)?;
    let mut sink = ClauseSink::behind(clauses, literals);
    let encoder = Encoder {
        interlocking,
        steps: numbering.steps(),
        pairs: numbering.pairs(),
    };
    encoder.emit_turns(alloc, &mut sink, turn_pairs.as_slice())?;
    let literals = sink.literals();
    Ok(Base {
        numbering,
        clauses: sink.into_clauses(),
        literals,
    })
}

/// A base with the clauses of normal plans. Where a plan is feasible, some plan of no more steps has values that make
/// all of them true.
fn with_normal(alloc: Global, interlocking: &Interlocking, base: Base) -> Result<Base, BaseFault>
    requires base { IsBaseOf Plain interlocking.now.design.station interlocking.now.routes base.numbering.steps base }
    ensures base { IfOk result
        (IsBaseOf Normal interlocking.now.design.station interlocking.now.routes base.numbering.steps) }
    ensures fault { IfErr result
        (IsRefused Normal interlocking.now.design.station interlocking.now.routes base.numbering.steps) }
{
    let Base {
        numbering,
        clauses,
        literals,
    } = base;
    let mut sink = ClauseSink::behind(clauses, literals);
    emit_normal(alloc, interlocking, &numbering, &mut sink)?;
    let literals = sink.literals();
    Ok(Base {
        numbering,
        clauses: sink.into_clauses(),
        literals,
    })
}

/// Emits the clauses of normal plans.
fn emit_normal(
    alloc: Global,
    interlocking: &Interlocking,
    numbering: &Numbering,
    sink: &mut ClauseSink,
) -> Result<(), BaseFault>
    requires { IsNumberingOf (speaks_of Plain interlocking.now.design.station interlocking.now.routes)
        interlocking.now.design.station interlocking.now.routes numbering.now.steps numbering.now }
    ensures ok { OnOk result (emitted sink.old (normal_part interlocking.now.design.station interlocking.now.routes
        numbering.now.steps) ≡ Emitted sink.new) }
    ensures err { IfErr result (FaultSays (emitted sink.old (normal_part interlocking.now.design.station
        interlocking.now.routes numbering.now.steps))) }
{
    let encoder = Encoder {
        interlocking,
        steps: numbering.steps(),
        pairs: numbering.pairs(),
    };
    let normal = NormalEncoder {
        encoder,
        count: numbering.variables(BaseKind::Plain).count,
    };
    let tables = normal.tables(alloc)?;
    tables.emit_normal(alloc, sink)
}

/// The base of another kind, with the clauses that it has beside those of this one; that of live commands is made anew.
///
/// # Errors
///
/// `TooLarge` exactly where all of them have more than 16,000,000 literals; `Memory` where memory is wanting.
pub fn extended(
    alloc: Global,
    interlocking: &Interlocking,
    base: Base,
    kind: BaseKind,
) -> Result<Base, BaseFault>
    requires base { IsBaseOf Plain interlocking.now.design.station interlocking.now.routes base.numbering.steps base }
    ensures base { IfOk result
        (IsBaseOf kind interlocking.now.design.station interlocking.now.routes base.numbering.steps) }
    ensures fault { IfErr result
        (IsRefused kind interlocking.now.design.station interlocking.now.routes base.numbering.steps) }
{
    let steps = base.numbering.steps();
    match kind {
        BaseKind::Plain => Ok(base),
        BaseKind::Sorted => with_turns(alloc, interlocking, base, Turns::All),
        BaseKind::Normal => with_normal(alloc, interlocking, base),
        BaseKind::Live(turns) => {
            drop(base);
            live_base(alloc, interlocking, steps, turns)
        }
    }
}

/// The base of a kind, for plans of up to so many steps.
///
/// # Errors
///
/// `TooLarge` exactly where its clauses have more than 16,000,000 literals; `Memory` where memory is wanting.
pub fn base_of(
    alloc: Global,
    interlocking: &Interlocking,
    steps: Steps,
    kind: BaseKind,
) -> Result<Base, BaseFault>
    ensures base { IfOk result (IsBaseOf kind interlocking.now.design.station interlocking.now.routes steps.count) }
    ensures fault { IfErr result (IsRefused kind interlocking.now.design.station interlocking.now.routes steps.count) }
{
    if let BaseKind::Live(turns) = kind {
        return live_base(alloc, interlocking, steps, turns);
    }
    match base(alloc, interlocking, steps) {
        Ok(base) => extended(alloc, interlocking, base, kind),
        Err(fault) => Err(fault),
    }
}
