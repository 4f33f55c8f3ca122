//! The sentences about a cone. An error is want of memory; then a part of what is appended may stand there.

ghost use Rattle.std.specs.Prelude.{◌≡◌, ◌++◌, ◌∷◌, [], IfOk, OnOk};
ghost use Rattle.std.specs.List.{list_any};
ghost use Rattle.rail_outside.specs.Lines.{lines_of};
ghost use Rattle.rail_base.specs.declared.plan.Violation.TheVariants as violation;
ghost use Rattle.cone_words.specs.Cones.{followed_text, opening_line, holder_text, leave_word, train_text, pair_text};
ghost use Rattle.cone_words.specs.Cones.{parts_sentences, missed_text, by_horizon_text, failure_text, cone_sentences};
ghost use Rattle.cone_words.specs.Cones.{train_sentences, trains_sentences, pairs_sentences, order_sentences};
ghost use Rattle.cone_words.specs.Phrases.{sentence};
ghost use Rattle.cone_words.specs.Cones.{end_sentences, end_text, others_sentences, goes_no_further, is_of_path, is_granted_some};
ghost use Rattle.cone_words.specs.Cones.{within_text, ungranted_text};
ghost use Rattle.rail_text.specs.Added.{AddsLines, AddsText};
ghost use Rattle.interlocking.specs.Plans.{on};

use crate::entries::{order_of, overlaps_of, within_of};
use crate::phrases::{most_ticks, put_cleared, put_makes, put_nodes};
use crate::routes::{put_path, put_route};
use crate::sentences::push_sentence;
use crate::stops::push_stops;
use crate::times::{put_tick, put_ticks};
use cone_spec::{Cone, ConeTrain};
use interlocking::Interlocking;
use rail_base::design::Design;
use rail_base::names::train_name;
use rail_base::plan::{Command, Violation};
use rail_base::route::OverlapSection;
use rail_base::station::TrainNo;
use rail_text::put_number;
use std::alloc::{AllocError, Global};

/// Appends what is so in a cone: its trains, and then in which order commands are.
pub fn push_parts(
    alloc: Global,
    interlocking: &Interlocking,
    line: u64,
    cone: &Cone,
    lines: &mut Vec<Vec<u8>>,
) -> Result<(), AllocError>
    ensures { OnOk result (AddsLines lines.old lines.new (on interlocking.now parts_sentences line cone.now)) }
{
    push_trains(
        alloc,
        interlocking,
        line,
        cone,
        cone.trains.as_slice(),
        lines,
    )?;
    push_order(alloc, interlocking, line, cone, lines)?;
    Ok(())
}

/// Appends the sentence that opens what is so.
pub fn push_opening(alloc: Global, line: u64, lines: &mut Vec<Vec<u8>>) -> Result<(), AllocError>
    ensures { OnOk result (lines_of lines.new.items ≡ lines_of lines.old.items ++ opening_line line ∷ []) }
{
    push_sentence(
        alloc,
        lines,
        line,
        b"no plan in which this is so meets the design:",
    )
}

/// Appends the sentences about a cone.
pub fn push_cone(
    alloc: Global,
    interlocking: &Interlocking,
    line: u64,
    cone: &Cone,
    lines: &mut Vec<Vec<u8>>,
) -> Result<(), AllocError>
    ensures { OnOk result (AddsLines lines.old lines.new (on interlocking.now cone_sentences line cone.now)) }
{
    push_opening(alloc, line, lines)?;
    push_parts(alloc, interlocking, line, cone, lines)?;
    let mut text = Vec::new(alloc);
    put_failure(&mut text, interlocking, cone.violation)?;
    push_sentence(alloc, lines, line, &text)
}

/// What a train is to do until all sections of a route are free, by those of the overlap at its end.
fn leave_word(held: &[OverlapSection]) -> &'static [u8]
    ensures { result.now ≡ leave_word held.now }
{
    if held.is_empty() {
        b"leave"
    } else {
        b"release"
    }
}

/// Appends what holds up the first command that waits.
fn put_holder(
    text: &mut Vec<u8>,
    interlocking: &Interlocking,
    holder: Option<Command>,
) -> Result<(), AllocError>
    ensures { OnOk result (AddsText text.old text.new (on interlocking.now holder_text holder)) }
{
    match holder {
        None => Ok(()),
        Some(command) => {
            text.extend_from_slice(b", and the next one waits for ")?;
            text.extend_from_slice(train_name(&interlocking.design, command.train))?;
            text.extend_from_slice(b" to ")?;
            text.extend_from_slice(leave_word(overlaps_of(&interlocking.routes, command.route)))?;
            text.extend_from_slice(b" route ")?;
            put_route(text, interlocking, command.route)?;
            Ok(())
        }
    }
}

/// Appends a train's name, up to which tick it is followed, and its path.
fn put_followed(
    text: &mut Vec<u8>,
    interlocking: &Interlocking,
    train: &ConeTrain,
) -> Result<(), AllocError>
    ensures { OnOk result (AddsText text.old text.new (on interlocking.now followed_text train.now)) }
{
    let design = &interlocking.design;
    text.extend_from_slice(train_name(design, train.train))?;
    text.extend_from_slice(b" is followed up to ")?;
    put_tick(text, design, train.horizon)?;
    text.extend_from_slice(b" over ")?;
    put_path(text, interlocking, train.path.as_slice())?;
    Ok(())
}

/// What a cone says of a train.
fn train_text(
    alloc: Global,
    interlocking: &Interlocking,
    train: &ConeTrain,
) -> Result<Vec<u8>, AllocError>
    ensures { IfOk result (λ text. text.items ≡ on interlocking.now train_text train.now) }
{
    let mut text = Vec::new(alloc);
    put_followed(&mut text, interlocking, train)?;
    text.extend_from_slice(b"; by then it is granted ")?;
    put_number(&mut text, u64::from(train.free))?;
    text.extend_from_slice(b" of them")?;
    put_holder(&mut text, interlocking, train.holder)?;
    Ok(text)
}

/// A pair of a cone.
fn pair_text(
    alloc: Global,
    interlocking: &Interlocking,
    first: Command,
    second: Command,
) -> Result<Vec<u8>, AllocError>
    ensures { IfOk result (λ text. text.items ≡ on interlocking.now pair_text (first, second)) }
{
    let design = &interlocking.design;
    let mut text = Vec::from_slice(alloc, train_name(design, second.train))?;
    text.extend_from_slice(b" is granted route ")?;
    put_route(&mut text, interlocking, second.route)?;
    text.extend_from_slice(b" only after ")?;
    text.extend_from_slice(train_name(design, first.train))?;
    text.extend_from_slice(b", by route ")?;
    put_route(&mut text, interlocking, first.route)?;
    text.extend_from_slice(b", ")?;
    put_cleared(
        alloc,
        &mut text,
        design,
        &interlocking.routes,
        first.route,
        second.route,
    )?;
    Ok(text)
}

/// Whether the violation is that the path misses a visit.
fn is_of_path(violation: Violation) -> bool
    ensures { result ≡ is_of_path violation }
{
    match violation {
        Violation::Path { .. } => true,
        Violation::Within { .. }
        | Violation::Order { .. }
        | Violation::Grant { .. }
        | Violation::Visit { .. } => false,
    }
}

/// Whether a cone says that one of its trains goes no further.
fn goes_no_further(cone: &Cone, train: &ConeTrain) -> bool
    ensures { result ≡ goes_no_further cone.now train.now }
{
    train.path.len() <= train.free as usize || is_of_path(cone.violation)
}

/// That a train goes no further.
fn end_text(alloc: Global, design: &Design, train: TrainNo) -> Result<Vec<u8>, AllocError>
    ensures { IfOk result (λ text. text.items ≡ end_text design.now.station train) }
{
    let mut text = Vec::from_slice(alloc, train_name(design, train))?;
    text.extend_from_slice(b" goes no further")?;
    Ok(text)
}

/// Appends that a train goes no further.
fn push_ending(
    alloc: Global,
    design: &Design,
    line: u64,
    train: TrainNo,
    lines: &mut Vec<Vec<u8>>,
) -> Result<(), AllocError>
    ensures { OnOk result (AddsLines lines.old lines.new (sentence line (end_text design.now.station train) ∷ [])) }
{
    let text = end_text(alloc, design, train)?;
    push_sentence(alloc, lines, line, &text)?;
    Ok(())
}

/// Appends that a train of a cone goes no further, where the cone says so.
fn push_end(
    alloc: Global,
    design: &Design,
    line: u64,
    cone: &Cone,
    train: &ConeTrain,
    lines: &mut Vec<Vec<u8>>,
) -> Result<(), AllocError>
    ensures { OnOk result (AddsLines lines.old lines.new (end_sentences design.now.station line cone.now train.now)) }
{
    if !goes_no_further(cone, train) {
        return Ok(());
    }
    push_ending(alloc, design, line, train.train, lines)
}

/// Appends what a cone says of one of its trains.
fn push_train(
    alloc: Global,
    interlocking: &Interlocking,
    line: u64,
    cone: &Cone,
    train: &ConeTrain,
    lines: &mut Vec<Vec<u8>>,
) -> Result<(), AllocError>
    ensures { OnOk result (AddsLines lines.old lines.new
        (on interlocking.now train_sentences line cone.now train.now)) }
{
    let text = train_text(alloc, interlocking, train)?;
    push_sentence(alloc, lines, line, &text)?;
    push_stops(alloc, interlocking, line, train, lines)?;
    push_end(alloc, &interlocking.design, line, cone, train, lines)?;
    Ok(())
}

/// Appends what a cone says of these of its trains.
fn push_trains(
    alloc: Global,
    interlocking: &Interlocking,
    line: u64,
    cone: &Cone,
    trains: &[ConeTrain],
    lines: &mut Vec<Vec<u8>>,
) -> Result<(), AllocError>
    ensures { OnOk result (AddsLines lines.old lines.new
        (on interlocking.now trains_sentences line cone.now trains.now)) }
{
    for train in trains {
        push_train(alloc, interlocking, line, cone, train, lines)?;
    }
    Ok(())
}

/// Whether a command of one of these trains is granted.
fn are_granted_some(trains: &[ConeTrain]) -> bool
    ensures { result ≡ list_any is_granted_some trains.now }
{
    trains.iter().any(|train| 1 <= train.free)
}

/// Appends what a cone says of all other commands, where it has granted ones.
fn push_others(
    alloc: Global,
    line: u64,
    cone: &Cone,
    lines: &mut Vec<Vec<u8>>,
) -> Result<(), AllocError>
    ensures { OnOk result (AddsLines lines.old lines.new (others_sentences line cone.now)) }
{
    if !are_granted_some(cone.trains.as_slice()) {
        return Ok(());
    }
    push_sentence(
        alloc,
        lines,
        line,
        b"of all other routes that share a section with one granted here, none goes before it but where this is said",
    )
}

/// Appends in which order a cone says that commands are.
fn push_order(
    alloc: Global,
    interlocking: &Interlocking,
    line: u64,
    cone: &Cone,
    lines: &mut Vec<Vec<u8>>,
) -> Result<(), AllocError>
    ensures { OnOk result (AddsLines lines.old lines.new (on interlocking.now order_sentences line cone.now)) }
{
    push_pairs(alloc, interlocking, line, cone.pairs.as_slice(), lines)?;
    push_others(alloc, line, cone, lines)?;
    Ok(())
}

/// Appends the pairs of a cone.
fn push_pairs(
    alloc: Global,
    interlocking: &Interlocking,
    line: u64,
    pairs: &[(Command, Command)],
    lines: &mut Vec<Vec<u8>>,
) -> Result<(), AllocError>
    ensures { OnOk result (AddsLines lines.old lines.new (on interlocking.now pairs_sentences line pairs.now)) }
{
    for (first, second) in pairs {
        let text = pair_text(alloc, interlocking, *first, *second)?;
        push_sentence(alloc, lines, line, &text)?;
    }
    Ok(())
}

/// Appends that a visit is not made.
fn put_missed(
    text: &mut Vec<u8>,
    design: &Design,
    train: TrainNo,
    visit: u32,
) -> Result<(), AllocError>
    ensures { OnOk result (text.new.items ≡ text.old.items ++ missed_text design.now.station train visit) }
{
    text.extend_from_slice(b"so ")?;
    text.extend_from_slice(train_name(design, train))?;
    text.extend_from_slice(b" does not make visit ")?;
    put_number(text, u64::from(visit))?;
    put_nodes(text, design, train, visit)?;
    Ok(())
}

/// Appends the tick by which all is to be done.
fn put_by_horizon(text: &mut Vec<u8>, design: &Design) -> Result<(), AllocError>
    ensures { OnOk result (text.new.items ≡ text.old.items ++ by_horizon_text design.now.station) }
{
    text.extend_from_slice(b", by ")?;
    put_tick(text, design, design.horizon())?;
    text.extend_from_slice(b", the horizon")?;
    Ok(())
}

/// Appends that a within fails.
fn put_within(
    text: &mut Vec<u8>,
    interlocking: &Interlocking,
    number: u32,
) -> Result<(), AllocError>
    ensures { OnOk result (AddsText text.old text.new (within_text interlocking.now.design.station number)) }
{
    let design = &interlocking.design;
    let within = within_of(design, number);
    put_missed(text, design, within.to_train, within.to_visit)?;
    text.extend_from_slice(b", within ")?;
    put_ticks(text, design, most_ticks(design, &within))?;
    text.extend_from_slice(b" after ")?;
    put_makes(text, design, within.from_train, within.from_visit)?;
    text.extend_from_slice(b", as within ")?;
    put_number(text, u64::from(number))?;
    text.extend_from_slice(b" asks")?;
    Ok(())
}

/// Appends that an order fails.
fn put_order(text: &mut Vec<u8>, design: &Design, number: u32) -> Result<(), AllocError>
    ensures { OnOk result (AddsText text.old text.new (failure_text design.now.station (violation.Order number))) }
{
    let order = order_of(design, number);
    put_missed(text, design, order.first_train, order.first_visit)?;
    text.extend_from_slice(b", before ")?;
    put_makes(text, design, order.then_train, order.then_visit)?;
    text.extend_from_slice(b", as order ")?;
    put_number(text, u64::from(number))?;
    text.extend_from_slice(b" asks")?;
    Ok(())
}

/// Appends that a command is not granted.
fn put_ungranted(
    text: &mut Vec<u8>,
    design: &Design,
    train: TrainNo,
    command: u32,
) -> Result<(), AllocError>
    ensures { OnOk result (AddsText text.old text.new (ungranted_text design.now.station train command)) }
{
    text.extend_from_slice(b"so ")?;
    text.extend_from_slice(train_name(design, train))?;
    text.extend_from_slice(b" is not granted command ")?;
    put_number(text, u64::from(command))?;
    text.extend_from_slice(b" of its path")?;
    put_by_horizon(text, design)?;
    Ok(())
}

/// Appends how a cone fails.
fn put_failure(
    text: &mut Vec<u8>,
    interlocking: &Interlocking,
    violation: Violation,
) -> Result<(), AllocError>
    ensures { OnOk result (text.new.items
        ≡ text.old.items ++ failure_text interlocking.now.design.station violation) }
{
    let design = &interlocking.design;
    match violation {
        Violation::Path { train, visit } => put_missed(text, design, train, visit),
        Violation::Within { within } => put_within(text, interlocking, within),
        Violation::Order { order } => put_order(text, design, order),
        Violation::Grant { train, command } => put_ungranted(text, design, train, command),
        Violation::Visit { train, visit } => {
            put_missed(text, design, train, visit)?;
            put_by_horizon(text, design)
        }
    }
}
