//! Writing a plan.

ghost use Rattle.std.specs.Prelude.{◌≡◌, IfOk};
ghost use Rattle.plan_text.specs.Text.{plan_text};

use crate::values::plan_value;
use rail_base::design::Design;
use rail_base::plan::Plan;
use std::alloc::{AllocError, Global};

/// The text of a plan, as in `{"steps":[[["A",1],["B",3]],[["A",2]]]}`: in each step the trains of the design stand in
/// file order, each by its name with the number of its route. `Err` is want of memory.
pub fn write_plan(alloc: Global, design: &Design, plan: &Plan) -> Result<Vec<u8>, AllocError>
    ensures { IfOk result (λ text. text.items ≡ plan_text design.now.station plan.now.steps) }
{
    let value = plan_value(alloc, design, plan)?;
    value.to_vec(alloc)
}
