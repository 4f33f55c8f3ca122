//! The text of lines.

ghost use Rattle.std.specs.Prelude.{◌≡◌, ◌++◌, ◌∷◌, [], map, codes, decimal, IfOk, OnOk, if◌then◌else◌};
ghost use Rattle.proof_log.specs.ConeText.{literal_word};
ghost use Rattle.proof_log.specs.Lines.{refute_by_cone, refute_by_bound};
ghost use Rattle.proof_log.specs.Text.{text_of_line};
ghost use Rattle.proof_log.specs.Writing.{spaced};
ghost use Rattle.proof_log.specs.declared.line.Line.TheVariants.{Derive, Refute, Forget};

use crate::bound_text::put_bound;
use crate::cone_text::put_cone;
use crate::line::Line;
use bound_spec::{Bound, Evidence};
use cone_spec::Cone;
use rail_text::put_number;
use sat_clause::Lit;
use std::alloc::{AllocError, Global};

/// The text of the line that derives a clause by its hints, without an LF.
///
/// It is a line of the grammar where the variables, from 1 on, increase strictly, and the hints are numbers
/// from 1 on of at most 18 digits.
pub fn write_derive(alloc: Global, clause: &[Lit], hints: &[u64]) -> Result<Vec<u8>, AllocError>
    ensures { IfOk result (λ text. text.items ≡ text_of_line (Derive clause.now hints.now)) }
{
    let mut text = Vec::from_slice(alloc, b"d")?;
    put_literals(&mut text, clause)?;
    text.extend_from_slice(b" 0")?;
    put_numbers(&mut text, hints)?;
    text.extend_from_slice(b" 0")?;
    Ok(text)
}

/// The text of a line, without an LF.
pub fn write_line(alloc: Global, line: &Line) -> Result<Vec<u8>, AllocError>
    ensures { IfOk result (λ text. text.items ≡ text_of_line line.now) }
{
    match line {
        Line::Derive { clause, hints } => write_derive(alloc, clause.as_slice(), hints.as_slice()),
        Line::Refute { evidence } => write_refute(alloc, evidence),
        Line::Forget { clauses } => write_forget(alloc, clauses.as_slice()),
    }
}

/// What stands before the number of a variable.
fn prefix(negated: bool) -> &'static [u8]
    ensures { result.now ≡ 32 ∷ (if negated then codes "-" else []) }
{
    if negated {
        b" -".as_slice()
    } else {
        b" ".as_slice()
    }
}

/// Appends a space and a literal.
fn put_literal(text: &mut Vec<u8>, literal: Lit) -> Result<(), AllocError>
    ensures { OnOk result (text.new.items ≡ text.old.items ++ (32 ∷ literal_word literal)) }
{
    text.extend_from_slice(prefix(literal.negated))?;
    put_number(text, u64::from(literal.var))
}

/// Appends literals, each after a space.
fn put_literals(text: &mut Vec<u8>, clause: &[Lit]) -> Result<(), AllocError>
    ensures { OnOk result (text.new.items ≡ text.old.items ++ spaced (map literal_word clause.now)) }
{
    for literal in clause {
        put_literal(text, *literal)?;
    }
    Ok(())
}

/// Appends numbers, each after a space.
fn put_numbers(text: &mut Vec<u8>, numbers: &[u64]) -> Result<(), AllocError>
    ensures { OnOk result (text.new.items ≡ text.old.items ++ spaced (map decimal numbers.now)) }
{
    for number in numbers {
        text.push(b' ')?;
        put_number(text, *number)?;
    }
    Ok(())
}

/// The text of the line that takes out clauses.
fn write_forget(alloc: Global, clauses: &[u64]) -> Result<Vec<u8>, AllocError>
    ensures { IfOk result (λ text. text.items ≡ text_of_line (Forget clauses.now)) }
{
    let mut text = Vec::from_slice(alloc, b"x")?;
    put_numbers(&mut text, clauses)?;
    text.extend_from_slice(b" 0")?;
    Ok(text)
}

/// The text of the line of a cone.
fn write_cone(alloc: Global, cone: &Cone) -> Result<Vec<u8>, AllocError>
    ensures { IfOk result (λ text. text.items ≡ text_of_line (refute_by_cone cone.now)) }
{
    let mut text = Vec::from_slice(alloc, b"r")?;
    put_cone(&mut text, cone)?;
    Ok(text)
}

/// The text of the line of a bound.
fn write_bound(alloc: Global, bound: &Bound) -> Result<Vec<u8>, AllocError>
    ensures { IfOk result (λ text. text.items ≡ text_of_line (refute_by_bound bound.now)) }
{
    let mut text = Vec::from_slice(alloc, b"b")?;
    put_bound(&mut text, bound)?;
    Ok(text)
}

/// The text of the line of what shows a clause.
fn write_refute(alloc: Global, evidence: &Evidence) -> Result<Vec<u8>, AllocError>
    ensures { IfOk result (λ text. text.items ≡ text_of_line (Refute evidence.now)) }
{
    match evidence {
        Evidence::Cone(cone) => write_cone(alloc, cone),
        Evidence::Bound(bound) => write_bound(alloc, bound),
    }
}
