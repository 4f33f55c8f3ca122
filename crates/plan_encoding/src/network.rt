//! All routes of an encoder.

ghost use Rattle.std.specs.Prelude.{◌≡◌};
ghost use Rattle.rail_spec.specs.Plans.{route_numbers};
ghost use Rattle.plan_encoding.specs.Encoders.{table};

use crate::encoder::Encoder;
use rail_base::route::RouteNo;

/// An encoder with the numbers of its routes.
#[derive(Drop)]
pub struct Network<'a> {
    pub encoder: Encoder<'a>,
    pub numbers: Vec<RouteNo>,
    pub ghost every_number: { numbers.items ≡ route_numbers (table encoder) },
}
