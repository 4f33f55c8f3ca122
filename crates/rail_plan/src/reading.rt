//! Reading a plan.

ghost use Rattle.std.specs.Prelude.{◌≡◌, ◌≤◌, ◌<◌, ◌^◌, true, IfOk, length, map, ok_or, option_map};
ghost use Rattle.serde_json.specs.View.{view};
ghost use Rattle.rail_plan.specs.Text.{ParseTo, json_of, text_steps};
ghost use Rattle.rail_plan.specs.Reading.{GivesOrFails, values_of, step_read, steps_read};
ghost use Rattle.interlocking.specs.Plans.{names_only, IsRunnable};
ghost use Rattle.rail_plan.specs.Interlocked.{admitted_plan, known_steps, plan_of, plan_of_text};

use crate::clearance::executable;
use crate::fault::{PlanCode, PlanFault};
use crate::formed::well_formed;
use crate::names::{command_at, train_names};
use crate::place::PlanPlace;
use crate::text::{are_steps, array_of, steps_at};
use indexmap::IndexSet;
use interlocking::Interlocking;
use rail_base::list::List;
use rail_base::plan::{Command, Plan};
use serde_json::Value;
use std::alloc::Global;

/// How many steps a plan may have.
const MOST_STEPS: u32 = 256;

/// Reads a plan over a design and its routes, or answers the first refusal: P1 before P2, P2 before P3, P3 before P4,
/// and of each the first place. A plan that is read is well formed for 256 and executable.
pub fn read_plan(
    alloc: Global,
    interlocking: &Interlocking,
    bytes: &[u8],
) -> Result<Plan, PlanFault>
    ensures given { GivesOrFails (λ p. p.steps) result (plan_of interlocking.now bytes.now) }
    ensures runnable { IfOk result (λ p. IsRunnable interlocking.now 256 p.steps) }
{
    let value = value_of(alloc, bytes)?;
    plan_at(alloc, interlocking, &value)
}

/// The value that the bytes are, by the reading of `serde_json`.
fn value_of(alloc: Global, bytes: &[u8]) -> Result<Value, PlanFault>
    ensures { GivesOrFails view result (ok_or (json_of bytes.now) (PlanCode.P1, PlanPlace.File)) }
{
    match Value::from_slice(alloc, bytes) {
        Ok(value) => Ok(value),
        Err(error) => {
            if error.is_memory() {
                Err(PlanFault::Memory)
            } else {
                Err(PlanFault::Refused {
                    code: PlanCode::P1,
                    place: PlanPlace::File,
                })
            }
        }
    }
}

/// The commands of a step of this number, or the first whose train or route isn't there.
fn read_step(
    alloc: Global,
    names: &IndexSet<&[u8]>,
    many: usize,
    number: usize,
    values: &[Value],
) -> Result<List<Command>, PlanFault>
    requires names { length names.now.keys ≤ 128 }
    requires below_2_32 { many < 2 ^ 32 }
    ensures { GivesOrFails (λ s. s) result
        (step_read (map (λ k. k.now) names.now.keys) many number (map view values.now)) }
{
    let mut commands = List::new(alloc);
    for (index, value) in values.iter().enumerate() {
        match command_at(names, many, value) {
            Some(command) => commands.push(command)?,
            None => {
                return Err(PlanFault::Refused {
                    code: PlanCode::P2,
                    place: PlanPlace::Command {
                        step: number,
                        command: index + 1,
                    },
                });
            }
        }
    }
    Ok(commands)
}

/// The values of a step.
#[tactic(auto, using(crate::proofs::Seen::values))]
fn values_of(value: &Value) -> &[Value]
    ensures { map view result.now ≡ values_of (view value.now) }
{
    match array_of(value) {
        Some(values) => values,
        None => &[],
    }
}

/// The commands of all steps, or the first whose train or route isn't there.
fn read_steps(
    alloc: Global,
    names: &IndexSet<&[u8]>,
    many: usize,
    values: &[Value],
) -> Result<List<List<Command>>, PlanFault>
    requires names { length names.now.keys ≤ 128 }
    requires below_2_32 { many < 2 ^ 32 }
    ensures { GivesOrFails (λ s. s) result (steps_read (map (λ k. k.now) names.now.keys) many (map view values.now)) }
{
    let mut steps = List::new(alloc);
    for (index, value) in values.iter().enumerate() {
        let step = read_step(alloc, names, many, index + 1, values_of(value))?;
        steps.push(step)?;
    }
    Ok(steps)
}

/// The steps of a plan, where a value is one by its shape.
fn steps_of(value: &Value) -> Option<&[Value]>
    ensures { ParseTo (option_map (λ s. map view s.now) result) (text_steps (view value.now)) }
{
    let steps = array_of(steps_at(value)?)?;
    if are_steps(steps) { Some(steps) } else { None }
}

/// The commands of all steps over a design, or the first whose train or route isn't there.
fn known_steps(
    alloc: Global,
    interlocking: &Interlocking,
    values: &[Value],
) -> Result<List<List<Command>>, PlanFault>
    ensures { GivesOrFails (λ s. s) result (known_steps interlocking.now (map view values.now)) }
{
    let names = train_names(alloc, &interlocking.design)?;
    read_steps(alloc, &names, interlocking.routes.len(), values)
}

/// The plan, where it is well formed for 256 and executable.
fn admit(interlocking: &Interlocking, plan: Plan) -> Result<Plan, PlanFault>
    requires { names_only interlocking.now plan.steps ≡ true }
    ensures { GivesOrFails (λ p. p.steps) result (admitted_plan interlocking.now plan.steps) }
{
    if let Some(place) = well_formed(interlocking, &plan, MOST_STEPS) {
        return Err(PlanFault::Refused {
            code: PlanCode::P3,
            place,
        });
    }
    match executable(interlocking, &plan) {
        Some(place) => Err(PlanFault::Refused {
            code: PlanCode::P4,
            place,
        }),
        None => Ok(plan),
    }
}

/// The plan that is parsed from a value, or the first refusal.
fn plan_at(alloc: Global, interlocking: &Interlocking, value: &Value) -> Result<Plan, PlanFault>
    ensures { GivesOrFails (λ p. p.steps) result (plan_of_text interlocking.now (text_steps (view value.now))) }
{
    match steps_of(value) {
        Some(steps) => {
            let steps = known_steps(alloc, interlocking, steps)?;
            admit(interlocking, Plan { steps })
        }
        None => Err(PlanFault::Refused {
            code: PlanCode::P1,
            place: PlanPlace::File,
        }),
    }
}
