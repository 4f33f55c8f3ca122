//! The paths of the free commands of a cone, and what trains are on them.

ghost use Rattle.std.specs.Prelude.{◌≡◌, true, IfOk};
ghost use Rattle.rail_course.specs.Tracks.{ArePaths};
ghost use Rattle.cone_spec.specs.Cones.{free_path};
ghost use Rattle.cone_form.specs.Fits.{fits};
ghost use Rattle.interlocking.specs.Plans.{on};
ghost use Rattle.cone_run.specs.Runs.{all_free_paths};

use crate::layout::ConeLayout;
use cone_form::free_path;
use cone_spec::Cone;
use interlocking::Interlocking;
use rail_base::list::List;
use rail_base::route::RouteNo;
use rail_base::station::TrainNo;
use rail_course::{Itineraries, TrainPaths};
use std::alloc::{AllocError, Global};

/// The train paths that the free commands of a cone give the trains.
#[derive(Drop)]
pub(crate) struct ConePaths<'a> {
    pub layout: ConeLayout<'a>,
    pub train_paths: TrainPaths<'a>,
    pub ghost over: { train_paths.given.interlocking.now ≡ layout.interlocking.now },
    pub ghost given: { train_paths.given.paths.items
        ≡ on layout.interlocking.now all_free_paths layout.cone.now },
}

impl<'a> ConePaths<'a> {
    /// The train paths of a cone.
    pub(crate) fn of(alloc: Global, layout: ConeLayout<'a>) -> Result<ConePaths<'a>, AllocError>
        ensures { IfOk result (λ p. p.layout ≡ layout.entry) }
    {
        let interlocking = layout.interlocking;
        let paths = free_paths(alloc, interlocking, layout.cone)?;
        let given = Itineraries {
            interlocking,
            paths,
        };
        let train_paths = TrainPaths::of(alloc, given)?;
        Ok(ConePaths {
            layout,
            train_paths,
        })
    }
}

/// The paths that a cone's free commands give all trains, in file order.
fn free_paths(
    alloc: Global,
    interlocking: &Interlocking,
    cone: &Cone,
) -> Result<Vec<List<RouteNo>>, AllocError>
    requires { fits interlocking.now cone.now ≡ true }
    ensures { IfOk result (λ paths. on interlocking.now ArePaths (free_path cone.now) paths.items) }
{
    let mut paths = Vec::new(alloc);
    for number in 1..interlocking.design.station.trains.len() as u32 + 1 {
        let path = free_path_of(alloc, cone, TrainNo(number))?;
        paths.push(path)?;
    }
    Ok(paths)
}

/// The path that a cone's free commands give a train.
fn free_path_of(alloc: Global, cone: &Cone, train: TrainNo) -> Result<List<RouteNo>, AllocError>
    ensures { IfOk result (λ path. path ≡ free_path cone.now train) }
{
    let path = free_path(cone, train).to_vec(alloc)?;
    Ok(List::from_vec(path))
}
