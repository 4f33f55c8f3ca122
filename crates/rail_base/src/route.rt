//! Elementary routes.

ghost use Rattle.std.specs.Prelude.{◌≡◌, ◌≤◌, length};
ghost use Rattle.std.specs.List.{list_any};
ghost use Rattle.rail_base.specs.Routes.{IsRoute, route_at};

use crate::list::List;
use crate::station::{EdgeNo, NodeNo, SectionNo, SignalNo};

/// The number of a route, counted from 1.
#[derive(Clone, Copy, Debug, PartialEq, Eq, PartialOrd, Ord)]
pub struct RouteNo(pub u32);

/// Where a route begins.
#[derive(Clone, Copy, Debug, PartialEq, Eq)]
pub enum Start {
    Boundary(NodeNo),
    Signal(SignalNo),
}

/// Where a route ends: at a boundary, where the train exits; at a signal for its direction; or where no track goes on.
#[derive(Clone, Copy, Debug, PartialEq, Eq)]
pub enum Finish {
    Exit(NodeNo),
    Signal(SignalNo),
    DeadEnd(NodeNo),
}

/// A section behind the end of a route.
#[derive(Clone, Copy, Debug, PartialEq, Eq)]
pub struct OverlapSection {
    pub section: SectionNo,
    /// How long it is held after the train's arrival at the route's end, in ms.
    pub hold_ms: u32,
}

/// A walk along edges from a start to the first place where a route ends. Offsets are in mm from its start.
#[derive(Drop)]
pub struct Route {
    pub start: Start,
    pub finish: Finish,
    /// In mm.
    pub length: i64,
    pub edges: List<EdgeNo>,
    /// The start's node at 0, and the node at the end of each edge.
    pub nodes: List<(NodeNo, i64)>,
    /// Each section once, in order of first occurrence, with its release offset: the end of its last edge.
    pub sections: List<(SectionNo, i64)>,
    /// What is held of the overlap at its end signal, in the order listed: each section once that isn't its own.
    pub overlaps: List<OverlapSection>,
}

/// The routes of a design, in order of their numbers.
pub type RouteTable = List<Route>;

/// The route of a number.
pub fn route_at(routes: &RouteTable, number: RouteNo) -> &Route
    requires { IsRoute routes.now number }
    ensures { result.now ≡ route_at routes.now number }
{
    &routes.as_slice()[number.0 as usize - 1]
}

impl Route {
    ghost use Rattle.rail_base.specs.Routes.{exits, goes_over, has_section, hold_ms, length_mm};
    ghost use Rattle.rail_base.specs.Routes.{overlaps, release_offset, share};

    /// The length of the route, in mm.
    pub fn length_mm(&self) -> u64
        ensures { result ≡ length_mm self.now }
    {
        self.length.unsigned_abs()
    }

    /// Whether trains exit at its end.
    pub fn exits(&self) -> bool
        ensures { result ≡ exits self.now }
    {
        matches!(self.finish, Finish::Exit(_))
    }

    /// Whether it goes over a section.
    pub fn goes_over(&self, section: SectionNo) -> bool
        ensures { result ≡ goes_over self.now section }
    {
        self.sections
            .as_slice()
            .iter()
            .any(|part| part.0.0 == section.0)
    }

    /// Whether a section is one of the overlap at its end.
    pub fn overlaps(&self, section: SectionNo) -> bool
        ensures { result ≡ overlaps self.now section }
    {
        self.overlaps
            .as_slice()
            .iter()
            .any(|part| part.section.0 == section.0)
    }

    /// Whether it has a section, as its own or of the overlap at its end.
    pub fn has_section(&self, section: SectionNo) -> bool
        ensures { result ≡ has_section self.now section }
    {
        self.goes_over(section) || self.overlaps(section)
    }

    /// Whether the other route has one of the sections that this one goes over.
    pub fn shares_own(&self, other: &Route) -> bool
        ensures { result ≡ list_any (λ p. has_section other.now p.0) self.now.sections }
    {
        self.sections
            .as_slice()
            .iter()
            .any(|part| other.has_section(part.0))
    }

    /// Whether it has one of the sections of the overlap at this one's end.
    pub fn shares_overlap(&self, other: &Route) -> bool
        ensures { result ≡ list_any (λ p. has_section other.now p.section) self.now.overlaps }
    {
        self.overlaps
            .as_slice()
            .iter()
            .any(|part| other.has_section(part.section))
    }

    /// Whether the two routes have a section in common.
    pub fn share(&self, other: &Route) -> bool
        ensures { result ≡ share self.now other.now }
    {
        self.shares_own(other) || self.shares_overlap(other)
    }

    /// Where the last edge of a section ends, in mm from the route's start; 0 where the route doesn't go over it.
    pub fn release_offset(&self, section: SectionNo) -> u64
        ensures { result ≡ release_offset self.now section }
    {
        self.sections
            .as_slice()
            .iter()
            .filter(|part| part.0.0 == section.0)
            .map(|part| part.1.unsigned_abs())
            .fold(0, |most, offset| most.max(offset))
    }

    /// How long a section of the overlap at its end is held after the train's arrival there, in ms; 0 for any other.
    pub fn hold_ms(&self, section: SectionNo) -> u32
        ensures { result ≡ hold_ms self.now section }
    {
        self.overlaps
            .as_slice()
            .iter()
            .filter(|part| part.section.0 == section.0)
            .map(|part| part.hold_ms)
            .fold(0, |most, hold| most.max(hold))
    }
}
