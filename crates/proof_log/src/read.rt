//! Lines from their bytes.

ghost use Rattle.std.specs.Prelude.{◌≡◌, IfOk, Some, None, Err};
ghost use Rattle.proof_log.specs.Parts.{made, cone};
ghost use Rattle.proof_log.specs.Bounds.{bound};
ghost use Rattle.proof_log.specs.Lines.{is_increasing, derivation, clause_numbers, if_all, line_of_kind, line_in_bytes};
ghost use Rattle.proof_log.specs.Lines.{derive_by, refute_by_cone, refute_by_bound};
ghost use Rattle.proof_log.specs.Reading.{words_left};
ghost use Rattle.proof_log.specs.declared.line.Line.TheVariants.{Forget};
ghost use Rattle.proof_log.specs.declared.line.LineFault.TheVariants.{Text};

use crate::bounds::bound;
use crate::cones::cone;
use crate::line::{Line, LineFault};
use crate::members::{has_member, read_members};
use crate::words::first_word;
use bound_spec::Evidence;
use sat_clause::Lit;
use std::alloc::Global;

/// Reads a line, without the LF that ends it in a file.
///
/// Ticks, horizons and numbers of clauses have at most 18 digits, and all other numbers at most 32 bits.
/// `Text` says that the bytes spell no line, `Memory` that memory ran out; an `Err` leaves nothing.
pub fn read_line(alloc: Global, bytes: &[u8]) -> Result<Line, LineFault>
    ensures line { IfOk result (λ line. line_in_bytes bytes.now ≡ Some line) }
    ensures text { result ≡ Err Text → line_in_bytes bytes.now ≡ None }
{
    let (kind, after) = first_word(bytes);
    line_of_kind(alloc, kind, after)
}

/// Whether the variables stand in strictly increasing order.
fn are_increasing(clause: &[Lit]) -> bool
    ensures { result ≡ is_increasing clause.now }
{
    clause
        .iter()
        .zip(clause.iter().skip(1))
        .all(|(lit, next)| lit.var < next.var)
}

/// A line, where no word is left after it.
#[tactic(auto, using(crate::proofs::Gathering::words_are_left))]
fn whole(line: Line, after: Option<&[u8]>) -> Result<Line, LineFault>
    ensures ok { IfOk result (λ found. if_all (Some (line, words_left after.entry)) ≡ Some found) }
    ensures text { result ≡ Err Text → if_all (Some (line, words_left after.entry)) ≡ None }
{
    if after.is_some() {
        return Err(LineFault::Text);
    }
    Ok(line)
}

/// The line of a clause and its hints, after the word `d`.
fn derive_line(alloc: Global, text: Option<&[u8]>) -> Result<Line, LineFault>
    ensures ok { IfOk result (λ line. if_all (made derive_by (derivation (words_left text.entry))) ≡ Some line) }
    ensures text { result ≡ Err Text → if_all (made derive_by (derivation (words_left text.entry))) ≡ None }
{
    let (clause, after) = read_members::<Lit>(alloc, text)?;
    if !are_increasing(clause.as_slice()) {
        return Err(LineFault::Text);
    }
    let (hints, after) = read_members::<u64>(alloc, after)?;
    whole(Line::Derive { clause, hints }, after)
}

/// The line of a cone, after the word `r`.
fn cone_line(alloc: Global, text: Option<&[u8]>) -> Result<Line, LineFault>
    ensures ok { IfOk result (λ line. if_all (made refute_by_cone (cone (words_left text.entry))) ≡ Some line) }
    ensures text { result ≡ Err Text → if_all (made refute_by_cone (cone (words_left text.entry))) ≡ None }
{
    let (cone, after) = cone(alloc, text)?;
    let evidence = Evidence::Cone(cone);
    whole(Line::Refute { evidence }, after)
}

/// The line of a bound, after the word `b`.
fn bound_line(alloc: Global, text: Option<&[u8]>) -> Result<Line, LineFault>
    ensures ok { IfOk result (λ line. if_all (made refute_by_bound (bound (words_left text.entry))) ≡ Some line) }
    ensures text { result ≡ Err Text → if_all (made refute_by_bound (bound (words_left text.entry))) ≡ None }
{
    let (bound, after) = bound(alloc, text)?;
    let evidence = Evidence::Bound(bound);
    whole(Line::Refute { evidence }, after)
}

/// The line of clauses that are taken out, after the word `x`.
fn forget_line(alloc: Global, text: Option<&[u8]>) -> Result<Line, LineFault>
    ensures ok { IfOk result (λ line. if_all (made Forget (clause_numbers (words_left text.entry))) ≡ Some line) }
    ensures text { result ≡ Err Text → if_all (made Forget (clause_numbers (words_left text.entry))) ≡ None }
{
    let (clauses, after) = read_members::<u64>(alloc, text)?;
    if !has_member(&clauses) {
        return Err(LineFault::Text);
    }
    whole(Line::Forget { clauses }, after)
}

/// The line of a kind, by what stands after the kind's word.
fn line_of_kind(alloc: Global, kind: &[u8], text: Option<&[u8]>) -> Result<Line, LineFault>
    ensures ok { IfOk result (λ line. line_of_kind kind.now (words_left text.entry) ≡ Some line) }
    ensures text { result ≡ Err Text → line_of_kind kind.now (words_left text.entry) ≡ None }
{
    if kind == b"d".as_slice() {
        derive_line(alloc, text)
    } else if kind == b"r".as_slice() {
        cone_line(alloc, text)
    } else if kind == b"b".as_slice() {
        bound_line(alloc, text)
    } else if kind == b"x".as_slice() {
        forget_line(alloc, text)
    } else {
        Err(LineFault::Text)
    }
}
