//! What is found once of an encoder, before clauses are emitted.

ghost use Rattle.std.specs.Prelude.{◌≡◌};
ghost use Rattle.rail_base.specs.Stations.{trains as train_numbers};
ghost use Rattle.plan_encoding.specs.Encoders.{station, table};
ghost use Rattle.plan_encoding.specs.Tables.{exclusions as exclusions_of, going_on as going_on_of};
ghost use Rattle.plan_encoding.specs.Tables.{leading as leading_of, rows_by};

use crate::encoder::Encoder;
use rail_base::list::List;
use rail_base::route::RouteNo;
use rail_base::station::TrainNo;

/// The trains of an encoder in order, and for each route others, in rising order.
#[derive(Drop)]
pub struct Tables<'a> {
    pub encoder: Encoder<'a>,
    pub trains: Vec<TrainNo>,
    /// The routes that end where it starts.
    pub leading: Vec<List<RouteNo>>,
    /// The routes that go on where it ends.
    pub going_on: Vec<List<RouteNo>>,
    /// Each two routes that exclude each other.
    pub exclusions: Vec<(RouteNo, RouteNo)>,
    pub ghost every_train: { trains.items ≡ train_numbers (station encoder) },
    pub ghost led: { leading.items ≡ rows_by leading_of (table encoder) },
    pub ghost gone_on: { going_on.items ≡ rows_by going_on_of (table encoder) },
    pub ghost excluded: { exclusions.items ≡ exclusions_of (table encoder) },
}
