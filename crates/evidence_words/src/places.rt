//! The sentences about the places of legs. An error is want of memory; then a part of what is appended may stand there.

ghost use Rattle.std.specs.Prelude.{◌≡◌, codes, IfOk, OnOk};
ghost use Rattle.bound_spec.specs.Certificates.{kept_out};
ghost use Rattle.cone_words.specs.Phrases.{each_after, joined};
ghost use Rattle.evidence_words.specs.Bounds.{leg_text, only, place_text, unused_text};
ghost use Rattle.rail_text.specs.Added.{AddsText};
ghost use Rattle.evidence_words.specs.Ends.{said_of_meeting};
ghost use Rattle.interlocking.specs.Plans.{on};

use bound_spec::{Leg, Place, routes_of};
use cone_words::{put_any_route, put_own_shared};
use interlocking::Interlocking;
use rail_base::names::train_name;
use rail_base::route::RouteNo;
use std::alloc::{AllocError, Global};

/// A leg: its train, and its places.
pub fn leg_text(
    alloc: Global,
    interlocking: &Interlocking,
    leg: &Leg,
) -> Result<Vec<u8>, AllocError>
    ensures { IfOk result (λ text. text.items ≡ on interlocking.now leg_text leg.now) }
{
    let mut text = Vec::from_slice(alloc, train_name(&interlocking.design, leg.train))?;
    text.extend_from_slice(b" takes ")?;
    put_places(&mut text, interlocking, leg.places.as_slice())?;
    Ok(text)
}

/// Appends the sections that the one route goes over and the other has, where there is just one of each.
pub fn put_meeting(
    alloc: Global,
    text: &mut Vec<u8>,
    interlocking: &Interlocking,
    last: &[RouteNo],
    first: &[RouteNo],
) -> Result<(), AllocError>
    ensures { OnOk result (AddsText text.old text.new (said_of_meeting interlocking.now last.now first.now)) }
{
    let Some(route) = only(last) else {
        return text.extend_from_slice(b"what the two routes share");
    };
    let Some(other) = only(first) else {
        return text.extend_from_slice(b"what the two routes share");
    };
    put_own_shared(
        alloc,
        text,
        &interlocking.design,
        &interlocking.routes,
        route,
        other,
    )
}

/// The routes that a place keeps out.
fn kept_out(place: &Place) -> &[RouteNo]
    ensures { result.now ≡ kept_out place.now }
{
    match place {
        Place::Named { .. } => &[],
        Place::Among { without, .. } => without.as_slice(),
    }
}

/// Appends that the train uses none of these routes.
fn put_unused(
    text: &mut Vec<u8>,
    interlocking: &Interlocking,
    routes: &[RouteNo],
) -> Result<(), AllocError>
    ensures { OnOk result (AddsText text.old text.new (on interlocking.now unused_text routes.now)) }
{
    match routes {
        [] => Ok(()),
        [_, ..] => {
            text.extend_from_slice(b", since it does not use ")?;
            put_any_route(text, interlocking, routes)?;
            Ok(())
        }
    }
}

/// Appends a place.
fn put_place(
    text: &mut Vec<u8>,
    interlocking: &Interlocking,
    place: &Place,
) -> Result<(), AllocError>
    ensures { OnOk result (AddsText text.old text.new (on interlocking.now place_text place.now)) }
{
    put_any_route(text, interlocking, routes_of(place))?;
    put_unused(text, interlocking, kept_out(place))
}

/// Appends `, then ` and a place, for each of these.
fn put_each_place(
    text: &mut Vec<u8>,
    interlocking: &Interlocking,
    places: &[Place],
) -> Result<(), AllocError>
    ensures { OnOk result (AddsText text.old text.new
        (each_after (codes ", then ") (on interlocking.now place_text) places.now)) }
{
    for place in places {
        text.extend_from_slice(b", then ")?;
        put_place(text, interlocking, place)?;
    }
    Ok(())
}

/// Appends places in a row.
fn put_places(
    text: &mut Vec<u8>,
    interlocking: &Interlocking,
    places: &[Place],
) -> Result<(), AllocError>
    ensures { OnOk result (AddsText text.old text.new
        (joined (codes ", then ") (on interlocking.now place_text) places.now)) }
{
    match places {
        [] => Ok(()),
        [first, rest @ ..] => {
            put_place(text, interlocking, first)?;
            put_each_place(text, interlocking, rest)
        }
    }
}

/// The one of these routes, if there is just one.
fn only(routes: &[RouteNo]) -> Option<RouteNo>
    ensures { result ≡ only routes.now }
{
    match routes {
        [] => None,
        [route] => Some(*route),
        [_, _, ..] => None,
    }
}
