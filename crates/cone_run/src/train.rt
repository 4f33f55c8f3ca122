//! A train of a cone.

ghost use Rattle.cone_run.specs.Layouts.{IsEntryOf};

use crate::checked::ConeRun;
use cone_spec::ConeTrain;

/// What a cone says of one of its trains, with the run of the cone.
#[derive(Clone, Copy)]
pub(crate) struct TrainRun<'a> {
    pub run: ConeRun<'a>,
    pub said: &'a ConeTrain,
    pub ghost named: { IsEntryOf run.layout said.now },
}
