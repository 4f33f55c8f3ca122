//! The lines that are printed where something is refused, and the line of a plan, each with its LF. An error is want of
//! memory.

ghost use Rattle.std.specs.Prelude.{◌≡◌, ◌++◌, codes, decimal, IfOk, OnOk};
ghost use Rattle.cli_shell.specs.Texts.{usage_line, too_long_line, code_text, entry_text, place_text};
ghost use Rattle.cli_shell.specs.Texts.{design_refused_line, too_large_line, no_within_line, plan_code_text, step_text, train_text};
ghost use Rattle.cli_shell.specs.Texts.{plan_place_text, plan_refused_line, plan_line};

use crate::input::InputFile;
use design_table::{Code, EntryKind, Place};
use plan_text::writing::write_plan;
use rail_base::design::Design;
use rail_base::names::{section_name, train_name};
use rail_base::plan::Plan;
use rail_base::station::TrainNo;
use rail_plan::fault::PlanCode;
use rail_plan::place::PlanPlace;
use rail_text::put_number;
use std::alloc::{AllocError, Global};

/// How the program is used.
pub(crate) fn usage_line(alloc: Global) -> Result<Vec<u8>, AllocError>
    ensures { IfOk result (λ line. line.items ≡ usage_line) }
{
    let mut line = Vec::from_slice(
        alloc,
        b"usage: rcv simulate DESIGN PLAN; rcv routes DESIGN; ",
    )?;
    line.extend_from_slice(
        b"rcv verify [--normal] --steps N --conflicts C --ticks T DESIGN PROOF; ",
    )?;
    line.extend_from_slice(
        b"rcv tightest --steps N --conflicts C --ticks T --within W DESIGN PROOF; ",
    )?;
    line.extend_from_slice(
        b"rcv check [--within W --max-ms X] --steps N DESIGN PROOF; rcv trial SEED SIZE\n",
    )?;
    Ok(line)
}

/// `too long <file> <limit>`
pub(crate) fn too_long_line(alloc: Global, file: InputFile) -> Result<Vec<u8>, AllocError>
    ensures { IfOk result (λ line. line.items ≡ too_long_line file) }
{
    let mut line = Vec::from_slice(alloc, b"too long ")?;
    line.extend_from_slice(file.text().as_bytes())?;
    line.push(b' ')?;
    put_number(&mut line, file.limit())?;
    line.push(b'\n')?;
    Ok(line)
}

/// `design refused <code> <place>`
pub(crate) fn design_refused_line(
    alloc: Global,
    code: Code,
    place: Place,
) -> Result<Vec<u8>, AllocError>
    ensures { IfOk result (λ line. line.items ≡ design_refused_line code place) }
{
    let mut line = Vec::from_slice(alloc, b"design refused ")?;
    line.extend_from_slice(code_text(code).as_bytes())?;
    line.push(b' ')?;
    put_place(&mut line, place)?;
    line.push(b'\n')?;
    Ok(line)
}

/// The clauses of the design are too many.
pub(crate) fn too_large_line(alloc: Global) -> Result<Vec<u8>, AllocError>
    ensures { IfOk result (λ line. line.items ≡ too_large_line) }
{
    Vec::from_slice(alloc, b"design refused D14 base\n")
}

/// The design has no within of this number.
pub(crate) fn no_within_line(alloc: Global) -> Result<Vec<u8>, AllocError>
    ensures { IfOk result (λ line. line.items ≡ no_within_line) }
{
    Vec::from_slice(alloc, b"design refused D15 within\n")
}

/// `plan refused <code> <place>`
pub(crate) fn plan_refused_line(
    alloc: Global,
    design: &Design,
    code: PlanCode,
    place: PlanPlace,
) -> Result<Vec<u8>, AllocError>
    ensures { IfOk result (λ line. line.items ≡ plan_refused_line design.now.station code place) }
{
    let mut line = Vec::from_slice(alloc, b"plan refused ")?;
    line.extend_from_slice(plan_code_text(code).as_bytes())?;
    line.push(b' ')?;
    put_plan_place(&mut line, design, place)?;
    line.push(b'\n')?;
    Ok(line)
}

/// The plan, as one line. The error is want of memory.
pub fn plan_line(alloc: Global, design: &Design, plan: &Plan) -> Result<Vec<u8>, AllocError>
    ensures { IfOk result (λ line. line.items ≡ plan_line design.now.station plan.now.steps) }
{
    let mut line = write_plan(alloc, design, plan)?;
    line.push(b'\n')?;
    Ok(line)
}

/// Words, a number, and the end of a line. The error is want of memory.
pub fn counted_line(alloc: Global, words: &[u8], number: u64) -> Result<Vec<u8>, AllocError>
    ensures { IfOk result (λ line. line.items ≡ words.now ++ decimal number ++ codes "\n") }
{
    let mut line = Vec::from_slice(alloc, words)?;
    put_number(&mut line, number)?;
    line.push(b'\n')?;
    Ok(line)
}

/// The name of a code of a design.
fn code_text(code: Code) -> &'static str
    ensures { result.now ≡ code_text code }
{
    match code {
        Code::D01 => "D01",
        Code::D02 => "D02",
        Code::D03 => "D03",
        Code::D04 => "D04",
        Code::D05 => "D05",
        Code::D06 => "D06",
        Code::D07 => "D07",
        Code::D08 => "D08",
        Code::D09 => "D09",
        Code::D10 => "D10",
        Code::D11 => "D11",
        Code::D12 => "D12",
        Code::D13 => "D13",
    }
}

/// Appends `<key>[<number>]`.
fn put_entry(line: &mut Vec<u8>, kind: EntryKind, number: u64) -> Result<(), AllocError>
    ensures { OnOk result (line.new.items ≡ line.old.items ++ entry_text kind number) }
{
    line.extend_from_slice(kind.key().text().as_bytes())?;
    line.push(b'[')?;
    put_number(line, number)?;
    line.push(b']')?;
    Ok(())
}

/// Appends a place of a design.
fn put_place(line: &mut Vec<u8>, place: Place) -> Result<(), AllocError>
    ensures { OnOk result (line.new.items ≡ line.old.items ++ place_text place) }
{
    match place {
        Place::File => line.extend_from_slice(b"file"),
        Place::Top(key) => line.extend_from_slice(key.text().as_bytes()),
        Place::Entry(kind, number) => put_entry(line, kind, number),
        Place::Field(kind, number, key) => {
            put_entry(line, kind, number)?;
            line.push(b'.')?;
            line.extend_from_slice(key.text().as_bytes())
        }
        Place::UnknownField(kind, number) => {
            put_entry(line, kind, number)?;
            line.extend_from_slice(b".?")
        }
        Place::Unknown => line.extend_from_slice(b"?"),
        Place::Routes => line.extend_from_slice(b"routes"),
    }
}

/// The name of a code of a plan.
fn plan_code_text(code: PlanCode) -> &'static str
    ensures { result.now ≡ plan_code_text code }
{
    match code {
        PlanCode::P1 => "P1",
        PlanCode::P2 => "P2",
        PlanCode::P3 => "P3",
        PlanCode::P4 => "P4",
    }
}

/// Appends `step <i>`.
fn put_step(line: &mut Vec<u8>, step: usize) -> Result<(), AllocError>
    ensures { OnOk result (line.new.items ≡ line.old.items ++ step_text step) }
{
    line.extend_from_slice(b"step ")?;
    put_number(line, step as u64)
}

/// Appends `step <i> train <name>`.
fn put_train(
    line: &mut Vec<u8>,
    design: &Design,
    step: usize,
    train: TrainNo,
) -> Result<(), AllocError>
    ensures { OnOk result (line.new.items ≡ line.old.items ++ train_text design.now.station step train) }
{
    put_step(line, step)?;
    line.extend_from_slice(b" train ")?;
    line.extend_from_slice(train_name(design, train))
}

/// Appends a place of a plan.
fn put_plan_place(line: &mut Vec<u8>, design: &Design, place: PlanPlace) -> Result<(), AllocError>
    ensures { OnOk result (line.new.items ≡ line.old.items ++ plan_place_text design.now.station place) }
{
    match place {
        PlanPlace::File => line.extend_from_slice(b"file"),
        PlanPlace::Command { step, command } => {
            put_step(line, step)?;
            line.extend_from_slice(b" command ")?;
            put_number(line, command as u64)
        }
        PlanPlace::Train { step, train } => put_train(line, design, step, train),
        PlanPlace::Step { step } => put_step(line, step),
        PlanPlace::Section {
            step,
            train,
            section,
        } => {
            put_train(line, design, step, train)?;
            line.extend_from_slice(b" section ")?;
            line.extend_from_slice(section_name(design, section))
        }
    }
}
