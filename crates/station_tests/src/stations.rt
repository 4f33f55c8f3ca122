//! Parts of small stations.

ghost use Rattle.std.specs.Prelude.{◌≡◌, [], ◌∷◌, IfOk};

use rail_base::list::{List, Name};
use rail_base::station::{Edge, End, Node, NodeNo, SectionNo, Side, Train, Vehicle, VehicleNo};
use std::alloc::{AllocError, Global};

/// A name of one letter.
pub(crate) fn name(alloc: Global, letter: u8) -> Result<Name, AllocError>
    ensures { IfOk result (λ n. n ≡ letter ∷ []) }
{
    Ok(Name::from_vec(vec![in alloc; letter]?))
}

/// A list of one item.
pub(crate) fn one<T: Drop>(alloc: Global, item: T) -> Result<List<T>, AllocError>
    ensures { IfOk result (λ l. l ≡ item ∷ []) }
{
    let mut list = List::new(alloc);
    list.push(item)?;
    Ok(list)
}

/// A list of two items.
pub(crate) fn two<T: Drop>(alloc: Global, first: T, second: T) -> Result<List<T>, AllocError>
    ensures { IfOk result (λ l. l ≡ first ∷ second ∷ []) }
{
    let mut list = one(alloc, first)?;
    list.push(second)?;
    Ok(list)
}

/// A node, which is a boundary or not.
pub(crate) fn node(alloc: Global, letter: u8, boundary: bool) -> Result<Node, AllocError>
    ensures { IfOk result (λ n. n ≡ record { name = letter ∷ []; boundary = boundary }) }
{
    Ok(Node {
        name: name(alloc, letter)?,
        boundary,
    })
}

/// The edge of a section, from side b of the node of the same number to side a of the next.
pub(crate) fn edge(
    alloc: Global,
    letter: u8,
    number: u32,
    next: u32,
    length_mm: u32,
) -> Result<Edge, AllocError>
    ensures { IfOk result (λ e. e ≡ record {
      name = letter ∷ [];
      from = record { node = record { 0 = number }; side = Side.B };
      to = record { node = record { 0 = next }; side = Side.A };
      length_mm = length_mm;
      speed_mm_s = 2000;
      section = record { 0 = number };
    }) }
{
    Ok(Edge {
        name: name(alloc, letter)?,
        from: End {
            node: NodeNo(number),
            side: Side::B,
        },
        to: End {
            node: NodeNo(next),
            side: Side::A,
        },
        length_mm,
        speed_mm_s: 2000,
        section: SectionNo(number),
    })
}

/// A vehicle of 2 m.
pub(crate) fn vehicle(alloc: Global, letter: u8) -> Result<Vehicle, AllocError>
    ensures { IfOk result (λ v. v ≡ record {
      name = letter ∷ [];
      length_mm = 2000;
      accel_mm_s2 = 500;
      brake_mm_s2 = 700;
      speed_mm_s = 2000;
    }) }
{
    Ok(Vehicle {
        name: name(alloc, letter)?,
        length_mm: 2000,
        accel_mm_s2: 500,
        brake_mm_s2: 700,
        speed_mm_s: 2000,
    })
}

/// A train of a vehicle that starts at the first node and then visits another, where it stands so long.
pub(crate) fn train(
    alloc: Global,
    letter: u8,
    vehicle: u32,
    to: u32,
    dwell_ms: u32,
) -> Result<Train, AllocError>
    ensures { IfOk result (λ t. t ≡ record {
      name = letter ∷ [];
      vehicle = record { 0 = vehicle };
      visits = (record { 0 = 1 } ∷ []) ∷ (record { 0 = to } ∷ []) ∷ [];
      dwell_ms = 0 ∷ dwell_ms ∷ [];
    }) }
{
    Ok(Train {
        name: name(alloc, letter)?,
        vehicle: VehicleNo(vehicle),
        visits: two(alloc, one(alloc, NodeNo(1))?, one(alloc, NodeNo(to))?)?,
        dwell_ms: two(alloc, 0, dwell_ms)?,
    })
}
