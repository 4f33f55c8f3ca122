//! Routes of paths and commands of cones, marked by their numbers.

ghost use Rattle.std.specs.Prelude.{◌≡◌, All, IfOk, false, map, true};
ghost use Rattle.rail_base.specs.Numbering.{entry};
ghost use Rattle.rail_base.specs.Routes.{IsRoute};
ghost use Rattle.cone_form.specs.Fits.{each_train_fits};
ghost use Rattle.cone_form.specs.Marks.{MarksCone, MarksPath, mark_of};

use crate::lookup::path;
use cone_spec::Cone;
use interlocking::Interlocking;
use rail_base::plan::Command;
use rail_base::route::{RouteNo, RouteTable};
use rail_base::station::TrainNo;
use std::alloc::{AllocError, Global};

/// For each route, by its number, whether it is of the path; nothing for a path without routes.
pub fn marks_of(
    alloc: Global,
    routes: &RouteTable,
    path: &[RouteNo],
) -> Result<Vec<bool>, AllocError>
    requires { All (IsRoute routes.now) path.now }
    ensures { IfOk result (λ marks. MarksPath path.now marks.items) }
{
    if path.is_empty() {
        return Ok(Vec::new(alloc));
    }
    let mut marks = vec![in alloc; false; routes.len()]?;
    for route in path {
        marks[route.0 as usize - 1] = true;
    }
    Ok(marks)
}

/// Whether a route is marked.
pub fn has_mark(marks: &[bool], route: RouteNo) -> bool
    ensures { result ≡ entry false marks.now route.0 }
{
    if route.0 == 0 {
        return false;
    }
    match marks.get(route.0 as usize - 1) {
        Some(mark) => *mark,
        None => false,
    }
}

/// For each train, by its number, the marks of its path in the cone.
pub(crate) fn rows_of(
    alloc: Global,
    interlocking: &Interlocking,
    cone: &Cone,
) -> Result<Vec<Vec<bool>>, AllocError>
    requires { each_train_fits interlocking.now cone.now ≡ true }
    ensures { IfOk result (λ rows. MarksCone cone.now (map (λ row. row.items) rows.items)) }
{
    let mut rows = Vec::new(alloc);
    for number in 1..interlocking.design.station.trains.len() as u32 + 1 {
        let path = path(cone, TrainNo(number));
        rows.push(marks_of(alloc, &interlocking.routes, path)?)?;
    }
    Ok(rows)
}

/// Whether a command is marked in the row of its train.
pub(crate) fn is_marked(rows: &[Vec<bool>], command: Command) -> bool
    ensures { result ≡ mark_of (map (λ row. row.items) rows.now) command }
{
    if command.train.0 == 0 || rows.len() < command.train.0 as usize {
        return false;
    }
    let row = rows[command.train.0 as usize - 1].as_slice();
    has_mark(row, command.route)
}
