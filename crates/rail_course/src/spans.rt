//! The spans of a path, each an edge's.

ghost use Rattle.std.specs.Prelude.{◌≡◌, ◌<◌, ◌+◌, ◌^◌, All, IfOk, OnOk, sum_by};
ghost use Rattle.rail_motion.specs.Track.{stretches_of, IsRising, LeastAhead, NoneSlower};
ghost use Rattle.rail_base.specs.Stations.{edge_of, length_of, per_tick_speed};
ghost use Rattle.rail_base.specs.Routes.{IsRoute};
ghost use Rattle.rail_course.specs.Tracks.{HasLimit, path_length, stretches_along, stretches_from, AddsSpans};
ghost use Rattle.interlocking.specs.Plans.{on};

use interlocking::Interlocking;
use rail_base::design::Design;
use rail_base::list::List;
use rail_base::route::{RouteNo, route_at};
use rail_base::station::EdgeNo;
use rail_motion::{Span, mark_least, mark_slower};
use std::alloc::{AllocError, Global};

/// The spans of routes in a row.
pub fn spans_of(
    alloc: Global,
    interlocking: &Interlocking,
    path: &[RouteNo],
) -> Result<Vec<Span>, AllocError>
    requires named { All (IsRoute interlocking.now.routes) path.now }
    requires below_2_47 { path_length interlocking.now.routes path.now < 2 ^ 47 }
    ensures track { IfOk result (λ spans. stretches_of spans.items ≡ on interlocking.now stretches_along path.now) }
    ensures rising { IfOk result (λ spans. IsRising spans.items) }
    ensures none_slower { IfOk result (λ spans. NoneSlower spans.items) }
    ensures least { IfOk result (λ spans. LeastAhead spans.items) }
{
    let mut spans = path_spans(alloc, interlocking, path)?;
    mark_slower(&mut spans);
    mark_least(&mut spans);
    Ok(spans)
}

/// The limit of an edge, in mm per tick.
fn limit_of(design: &Design, edge: EdgeNo) -> u64
    requires { HasLimit design.now.station edge }
    ensures { result ≡ per_tick_speed design.now.station (edge_of design.now.station edge).speed_mm_s }
{
    u64::from(design.edge(edge).speed_mm_s) * u64::from(design.station.tick_ms) / 1000
}

/// The same, of which it is not noted yet where they are slower.
fn path_spans(
    alloc: Global,
    interlocking: &Interlocking,
    path: &[RouteNo],
) -> Result<Vec<Span>, AllocError>
    requires named { All (IsRoute interlocking.now.routes) path.now }
    requires below_2_47 { path_length interlocking.now.routes path.now < 2 ^ 47 }
    ensures track { IfOk result (λ spans. stretches_of spans.items ≡ on interlocking.now stretches_along path.now) }
    ensures rising { IfOk result (λ spans. IsRising spans.items) }
{
    let mut spans = Vec::new(alloc);
    let mut offset: u64 = 0;
    for number in path {
        let route = route_at(&interlocking.routes, *number);
        push_spans(&mut spans, &interlocking.design, &route.edges, offset)?;
        offset += route.length_mm();
    }
    Ok(spans)
}

/// Adds the spans of edges in a row, of which the first begins at an offset in mm.
fn push_spans(
    spans: &mut Vec<Span>,
    design: &Design,
    edges: &List<EdgeNo>,
    begin: u64,
) -> Result<(), AllocError>
    requires edges { All (HasLimit design.now.station) edges.now }
    requires below_2_47 { begin + sum_by (length_of design.now.station) edges.now < 2 ^ 47 }
    ensures { OnOk result (AddsSpans spans.old spans.new (stretches_from design.now.station begin edges.now)) }
{
    let mut offset = begin;
    for edge in edges.as_slice() {
        offset += u64::from(design.edge(*edge).length_mm);
        spans.push(Span {
            end: offset as i64,
            limit: limit_of(design, *edge) as i64,
            slower_in: 1,
            least_in: 1,
        })?;
    }
    Ok(())
}
