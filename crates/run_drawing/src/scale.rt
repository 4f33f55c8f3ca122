//! Ticks and nodes in px.

use drawing::Point;
use rail_base::list::Name;
use rail_base::station::{Node, NodeNo, Station};
use std::alloc::{AllocError, Global};
use track_layout::{Layout, Spread, drawn_levels, layout_of};

/// The width of a character, in px.
pub(crate) const CHARACTER: u64 = 7;

/// The height of a line of text, in px.
pub(crate) const LINE: u64 = 16;

/// The most that a label of a level is long, in characters.
const LABEL: usize = 40;

/// The length of time that is drawn, and where ticks and nodes lie.
#[derive(Drop)]
pub(crate) struct Scale {
    /// The last tick that is drawn.
    pub(crate) ticks: u64,
    /// The length of a tick, in ms.
    pub(crate) tick_ms: u64,
    /// Where tick 0 lies, in px.
    pub(crate) left: u64,
    /// How wide all ticks are, in px.
    width: u64,
    /// How many names of trains stand in a line.
    columns: u64,
    /// How wide the name of a train is, in px.
    column: u64,
    /// Where the first level lies, in px.
    top: u64,
    /// Where the last level lies, in px.
    pub(crate) bottom: u64,
    layout: Layout,
    levels: Vec<u64>,
}

impl Scale {
    /// For the ticks up to the last that is drawn. The error is want of memory.
    pub(crate) fn new(alloc: Global, station: &Station, ticks: u64) -> Result<Scale, AllocError> {
        let layout = layout_of(alloc, station)?;
        let width = drawn_width(ticks);
        let column = width_of(longest_train(station)).saturating_add(2 * CHARACTER);
        let columns = (width / column.max(1)).max(1);
        let lines = (station.trains.len() as u64) / columns.max(1);
        let top = lines.saturating_mul(LINE).saturating_add(6 * LINE);
        let how = Spread {
            first: top,
            least: 26,
            mm_per_px: 20_000,
            most: 60,
        };
        let levels = drawn_levels(alloc, layout.columns.as_slice(), how)?;
        let mut scale = Scale {
            ticks,
            tick_ms: u64::from(station.tick_ms),
            left: 0,
            width,
            columns,
            column,
            top,
            bottom: last_of(levels.as_slice(), top),
            layout,
            levels,
        };
        let label = scale.longest_label(alloc, station.nodes.as_slice())?;
        scale.left = width_of(label.max(longest_section(station))).saturating_add(LINE);
        Ok(scale)
    }

    /// Where a tick lies, in px from the left.
    pub(crate) fn tick(&self, tick: u64) -> u64 {
        let right = tick.saturating_mul(self.width) / self.ticks.max(1);
        self.left.saturating_add(right)
    }

    /// Where a time lies, in ms from the begin, in px from the left.
    pub(crate) fn time(&self, ms: u64) -> u64 {
        let all = self.ticks.saturating_mul(self.tick_ms);
        let right = ms.saturating_mul(self.width) / all.max(1);
        self.left.saturating_add(right)
    }

    /// Where lines of times begin, in px from the top.
    pub(crate) fn height_of_times(&self) -> u64 {
        self.top.saturating_sub(LINE)
    }

    /// Where all ticks end, in px from the left.
    pub(crate) fn right(&self) -> u64 {
        self.left.saturating_add(self.width)
    }

    /// How far a node of an index lies below the top, counted from 0.
    pub(crate) fn height(&self, index: usize) -> u64 {
        self.levels
            .get(self.level(index))
            .copied()
            .unwrap_or(self.top)
    }

    /// Where a node is at a tick.
    pub(crate) fn point(&self, node: NodeNo, tick: u64) -> Point {
        Point {
            x: self.tick(tick),
            y: self.height((node.0 as usize).saturating_sub(1)),
        }
    }

    /// Whether no node before one of an index lies at its level.
    pub(crate) fn is_first_there(&self, index: usize) -> bool {
        let level = self.level(index);
        for other in 0..index {
            if self.level(other) == level {
                return false;
            }
        }
        true
    }

    /// The names of the nodes at the level of a node, as many as have room. The error is want of memory.
    pub(crate) fn label(
        &self,
        alloc: Global,
        nodes: &[Node],
        index: usize,
    ) -> Result<Vec<u8>, AllocError> {
        let level = self.level(index);
        let mut label = Vec::new(alloc);
        for (other, node) in nodes.iter().enumerate() {
            if self.level(other) == level {
                put_name(&mut label, node.name.as_bytes())?;
            }
        }
        Ok(label)
    }

    /// Where the name of a train of an index stands, counted from 0.
    pub(crate) fn train_name(&self, index: usize) -> Point {
        let number = index as u64;
        let columns = self.columns.max(1);
        Point {
            x: self
                .left
                .saturating_add((number % columns).saturating_mul(self.column)),
            y: (number / columns)
                .saturating_mul(LINE)
                .saturating_add(3 * LINE),
        }
    }

    /// The length of the longest label of a level, in characters. The error is want of memory.
    fn longest_label(&self, alloc: Global, nodes: &[Node]) -> Result<usize, AllocError> {
        let mut length: usize = 0;
        for index in 0..nodes.len() {
            if self.is_first_there(index) {
                length = length.max(self.label(alloc, nodes, index)?.len());
            }
        }
        Ok(length)
    }

    /// The level of a node of an index, counted from 0.
    fn level(&self, index: usize) -> usize {
        match self.layout.nodes.as_slice().get(index) {
            Some(place) => place.column,
            None => 0,
        }
    }
}

/// The longer of a length and that of a name.
fn longer(length: usize, name: &Name) -> usize {
    length.max(name.as_bytes().len())
}

/// The length of the longest name of a section, in characters.
fn longest_section(station: &Station) -> usize {
    let mut length = 0;
    for name in station.sections.as_slice() {
        length = longer(length, name);
    }
    length
}

/// The length of the longest name of a train, in characters.
fn longest_train(station: &Station) -> usize {
    let mut length = 0;
    for train in station.trains.as_slice() {
        length = longer(length, &train.name);
    }
    length
}

/// The width of so many characters, in px.
fn width_of(characters: usize) -> u64 {
    (characters as u64).saturating_mul(CHARACTER)
}

/// The last of some places; another one where there are none.
fn last_of(places: &[u64], other: u64) -> u64 {
    match places {
        [.., last] => *last,
        [] => other,
    }
}

/// How wide so many ticks are drawn, in px.
fn drawn_width(ticks: u64) -> u64 {
    ticks.max(800).min(3000)
}

/// Appends a name to a label, with a space before it, where there is room.
fn put_name(label: &mut Vec<u8>, name: &[u8]) -> Result<(), AllocError> {
    if label.is_empty() {
        return label.extend_from_slice(name);
    }
    if label.len().saturating_add(name.len()) < LABEL {
        label.push(b' ')?;
        label.extend_from_slice(name)?;
    }
    Ok(())
}
