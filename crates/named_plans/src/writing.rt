//! Writing a plan with names.

ghost use Rattle.std.specs.Prelude.{◌≡◌, ◌++◌, IfOk, OnOk, All, codes, true, if◌then◌else◌};
ghost use Rattle.serde_json.specs.Written.{compact_text};
ghost use Rattle.rail_outside.specs.Lines.{lines_of};
ghost use Rattle.rail_plan.specs.Named.{HaveRoutes};
ghost use Rattle.rail_spec.specs.Feasible.{names_only};
ghost use Rattle.rail_spec.specs.Track.{routes_of};
ghost use Rattle.named_plans.specs.Numbered.{all_shown};
ghost use Rattle.named_plans.specs.Text.{named_lines, step_lines, step_value};

use crate::values::step_value;
use interlocking::Interlocking;
use plan_names::shown_routes;
use rail_base::design::Design;
use rail_base::list::{List, Name};
use rail_base::plan::{Command, Plan};
use std::alloc::{AllocError, Global};

/// The lines of a plan with names, each with its LF, as in `{"steps":[`, `[["A",["x1","x2"]],["B",["y"]]],`,
/// `[["A",["x3"]]]` and `]}`: in each step the trains of the design stand in file order, each by its name with the
/// names by which its route is shown. `Err` is want of memory.
pub fn named_lines(
    alloc: Global,
    interlocking: &Interlocking,
    plan: &Plan,
) -> Result<Vec<Vec<u8>>, AllocError>
    requires { let d = interlocking.now.design.station in names_only d (routes_of d) plan.now.steps ≡ true }
    ensures { IfOk result (λ lines. lines_of lines.items
        ≡ named_lines interlocking.now.design.station plan.now.steps) }
{
    let shown = shown_routes(alloc, interlocking)?;
    let mut lines = Vec::new(alloc);
    lines.push(Vec::from_slice(alloc, b"{\"steps\":[\n")?)?;
    let steps = plan.steps.as_slice();
    put_steps(
        alloc,
        &interlocking.design,
        shown.as_slice(),
        steps,
        &mut lines,
    )?;
    lines.push(Vec::from_slice(alloc, b"]}\n")?)?;
    Ok(lines)
}

/// The text of a step.
fn step_text(
    alloc: Global,
    design: &Design,
    shown: &[List<Name>],
    step: &[Command],
) -> Result<Vec<u8>, AllocError>
    requires routes { HaveRoutes (routes_of design.now.station) step.now }
    requires shown { shown.now ≡ all_shown design.now.station }
    ensures { IfOk result (λ text. text.items ≡ compact_text (step_value design.now.station step.now)) }
{
    let value = step_value(alloc, design, shown, step)?;
    value.to_vec(alloc)
}

/// How the line of a step ends: with a comma where it is not the last.
fn line_end(is_last: bool) -> &'static [u8]
    ensures { result.now ≡ (if is_last then codes "\n" else codes ",\n") }
{
    if is_last { b"\n" } else { b",\n" }
}

/// The line of a step.
fn step_line(
    alloc: Global,
    design: &Design,
    shown: &[List<Name>],
    step: &[Command],
    is_last: bool,
) -> Result<Vec<u8>, AllocError>
    requires routes { HaveRoutes (routes_of design.now.station) step.now }
    requires shown { shown.now ≡ all_shown design.now.station }
    ensures { IfOk result (λ line. line.items ≡ compact_text (step_value design.now.station step.now)
        ++ (if is_last then codes "\n" else codes ",\n")) }
{
    let mut line = step_text(alloc, design, shown, step)?;
    line.extend_from_slice(line_end(is_last))?;
    Ok(line)
}

/// Appends the lines of the steps.
fn put_steps(
    alloc: Global,
    design: &Design,
    shown: &[List<Name>],
    steps: &[List<Command>],
    lines: &mut Vec<Vec<u8>>,
) -> Result<(), AllocError>
    requires routes { All (HaveRoutes (routes_of design.now.station)) steps.now }
    requires shown { shown.now ≡ all_shown design.now.station }
    ensures { OnOk result (lines_of lines.new.items
        ≡ lines_of lines.old.items ++ step_lines design.now.station steps.now) }
{
    for (index, step) in steps.iter().enumerate() {
        let is_last = index + 1 == steps.len();
        let line = step_line(alloc, design, shown, step.as_slice(), is_last)?;
        lines.push(line)?;
    }
    Ok(())
}
