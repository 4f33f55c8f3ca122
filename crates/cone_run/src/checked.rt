//! A cone with the history of its run.

ghost use Rattle.std.specs.Prelude.{◌≡◌, All};
ghost use Rattle.cone_run.specs.Layouts.{IsEntryOf, history_in};

use crate::layout::ConeLayout;
use rail_base::history::TrainHistory;

/// A cone with what happens to each train in its run, up to the greatest horizon.
#[derive(Clone, Copy)]
pub(crate) struct ConeRun<'a> {
    pub layout: ConeLayout<'a>,
    pub history: &'a [TrainHistory],
    pub ghost entries: { All (IsEntryOf layout) layout.cone.now.trains },
    pub ghost is_history: { history.now ≡ history_in layout },
}
