//! The text of bounds, each word after a space. An error is want of memory; then a part of what is appended
//! may stand there.

ghost use Rattle.std.specs.Prelude.{◌≡◌, ◌++◌, flat_map, OnOk};
ghost use Rattle.proof_log.specs.Writing.{spaced};
ghost use Rattle.proof_log.specs.BoundText.{requirement_words, origin_words, place_words, leg_words, bound_line_words};

use crate::cone_text::{put_entry, put_kind, put_pairs, put_path, put_spaced, put_trains};
use bound_spec::{Bound, Leg, Origin, Place, Requirement};
use std::alloc::AllocError;

/// Appends a bound.
pub fn put_bound(text: &mut Vec<u8>, bound: &Bound) -> Result<(), AllocError>
    ensures { OnOk result (text.new.items ≡ text.old.items ++ spaced (bound_line_words bound.now)) }
{
    put_requirement(text, bound.requirement)?;
    put_origin(text, &bound.origin)?;
    put_legs(text, bound.legs.as_slice())
}

/// Appends a requirement.
fn put_requirement(text: &mut Vec<u8>, requirement: Requirement) -> Result<(), AllocError>
    ensures { OnOk result (text.new.items ≡ text.old.items ++ spaced (requirement_words requirement)) }
{
    match requirement {
        Requirement::Within { within } => put_entry(text, b"within", within),
        Requirement::Order { order } => put_entry(text, b"order", order),
        Requirement::Visit { train, visit } => put_kind(text, b"visit", train.0, visit),
        Requirement::Grant { command } => {
            put_kind(text, b"grant", command.train.0, command.route.0)
        }
    }
}

/// Appends an origin.
fn put_origin(text: &mut Vec<u8>, origin: &Origin) -> Result<(), AllocError>
    ensures { OnOk result (text.new.items ≡ text.old.items ++ spaced (origin_words origin.now)) }
{
    match origin {
        Origin::Visit => text.extend_from_slice(b" from"),
        Origin::Start => text.extend_from_slice(b" zero"),
        Origin::FirstTick => text.extend_from_slice(b" one"),
        Origin::Cone { tick, cone } => {
            text.extend_from_slice(b" cone")?;
            put_spaced(text, *tick)?;
            put_trains(text, cone.trains.as_slice())?;
            put_pairs(text, cone.pairs.as_slice())
        }
    }
}

/// Appends a place.
fn put_place(text: &mut Vec<u8>, place: &Place) -> Result<(), AllocError>
    ensures { OnOk result (text.new.items ≡ text.old.items ++ spaced (place_words place.now)) }
{
    match place {
        Place::Named { route } => put_entry(text, b"n", route.0),
        Place::Among { routes, without } => {
            text.extend_from_slice(b" a")?;
            put_path(text, routes.as_slice())?;
            put_path(text, without.as_slice())
        }
    }
}

/// Appends places.
fn put_places(text: &mut Vec<u8>, places: &[Place]) -> Result<(), AllocError>
    ensures { OnOk result (text.new.items ≡ text.old.items ++ flat_map (λ p. spaced (place_words p)) places.now) }
{
    for place in places {
        put_place(text, place)?;
    }
    Ok(())
}

/// Appends a leg.
fn put_leg(text: &mut Vec<u8>, leg: &Leg) -> Result<(), AllocError>
    ensures { OnOk result (text.new.items ≡ text.old.items ++ spaced (leg_words leg.now)) }
{
    put_entry(text, b"l", leg.train.0)?;
    put_places(text, leg.places.as_slice())
}

/// Appends legs.
fn put_legs(text: &mut Vec<u8>, legs: &[Leg]) -> Result<(), AllocError>
    ensures { OnOk result (text.new.items ≡ text.old.items ++ flat_map (λ l. spaced (leg_words l)) legs.now) }
{
    for leg in legs {
        put_leg(text, leg)?;
    }
    Ok(())
}
