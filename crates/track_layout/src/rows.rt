//! Rows of tracks: where they cross least.

use crate::ends::{entry_at, set_at};
use crate::graph::Graph;
use crate::places::Columns;
use crate::tracks::{Course, Tracks};
use std::alloc::{AllocError, Global};

/// The height of a row in the unit of heights.
pub(crate) const ROW: u64 = 64;

/// How many columns a crossover spans at most.
const LONGEST: usize = 12;

/// What it costs that a link spans no height.
const LEVEL: u64 = 256;

/// What it costs that a link crosses a track.
const CROSSING: u64 = 7 * ROW;

/// What a row costs.
const NEW: u64 = 3 * ROW;

/// How often tracks are taken out and put again.
const ROUNDS: usize = 3;

/// The half columns in which a laid track holds its row.
#[derive(Clone, Copy, Debug, PartialEq, Eq)]
struct Span {
    from: usize,
    to: usize,
}

/// A line between two tracks, and the columns that it spans.
#[derive(Clone, Copy, Debug, PartialEq, Eq)]
struct Bridge {
    one: usize,
    other: usize,
    from: usize,
    to: usize,
    /// Whether it is a crossover.
    crosses: bool,
}

/// A track is put into a row, which may be a new one between two.
#[derive(Clone, Copy, Debug, PartialEq, Eq)]
struct Trial {
    track: Option<usize>,
    row: usize,
    is_new: bool,
}

/// How high a track lies at its two ends.
#[derive(Clone, Copy, Debug, PartialEq, Eq)]
pub(crate) struct Slope {
    pub(crate) left: u64,
    pub(crate) right: u64,
}

/// The rows of tracks as they are found.
#[derive(Drop)]
pub(crate) struct Rows {
    /// The row of each laid track that has one.
    pub(crate) rows: Vec<Option<usize>>,
    /// How many rows there are.
    pub(crate) many: usize,
    spans: Vec<Span>,
    bridges: Vec<Bridge>,
    /// The piece of each track.
    pieces: Vec<usize>,
    /// The tracks, each crossover after those that it joins.
    grounded: Vec<usize>,
}

/// The row of each track that is laid. Crossovers over too many columns, and those whose ends come to lie at one height,
/// are laid too. The error is want of memory.
pub(crate) fn rows_of(
    alloc: Global,
    graph: &Graph,
    tracks: &mut Tracks,
    columns: &Columns,
) -> Result<Rows, AllocError> {
    for track in 0..tracks.courses.len() {
        if let Some(course) = tracks.course(track)
            && course.crosses
            && columns
                .of(course.right)
                .saturating_sub(columns.of(course.left))
                > LONGEST
        {
            tracks.lay(track);
        }
    }
    let mut rows = Rows::new(alloc, graph, tracks, columns)?;
    for _ in 0..tracks.courses.len() {
        rows.put_all(alloc, graph, tracks, columns)?;
        if !rows.lay_level(alloc, tracks, columns)? {
            break;
        }
        rows = Rows::new(alloc, graph, tracks, columns)?;
    }
    Ok(rows)
}

/// The half columns in which a track holds its row, without the ends that are attached. A turn comes past its ends.
fn span_of(course: Course, columns: &Columns) -> Span {
    let one = columns.of(course.left).saturating_mul(2);
    let other = columns.of(course.right).saturating_mul(2);
    let from = one.min(other);
    let to = one.max(other);
    if course.turn.is_some() {
        return Span {
            from: from.saturating_sub(2),
            to: to.saturating_add(2),
        };
    }
    Span {
        from: if course.begins_on.is_some() {
            from.saturating_add(1)
        } else {
            from
        },
        to: if course.ends_on.is_some() {
            to.saturating_sub(1)
        } else {
            to
        },
    }
}

/// Whether two tracks may not share a row.
fn meets(one: Span, other: Span) -> bool {
    one.from <= other.to && other.from <= one.to
}

/// A height between two others, in proportion.
pub(crate) fn height_between(slope: Slope, part: u64, whole: u64) -> u64 {
    let whole = whole.max(1);
    if slope.left <= slope.right {
        let all = slope.right.saturating_sub(slope.left);
        slope.left.saturating_add(all.saturating_mul(part) / whole)
    } else {
        let all = slope.left.saturating_sub(slope.right);
        slope.left.saturating_sub(all.saturating_mul(part) / whole)
    }
}

/// The height of a track at a column, if it is known.
pub(crate) fn height_at(
    heights: &[Option<Slope>],
    tracks: &Tracks,
    columns: &Columns,
    track: Option<usize>,
    column: usize,
) -> Option<u64> {
    let track = track?;
    let slope = (*heights.get(track)?)?;
    let course = tracks.course(track)?;
    if !course.crosses {
        return Some(slope.left);
    }
    let from = columns.of(course.left);
    let whole = columns.of(course.right).saturating_sub(from) as u64;
    let part = column.saturating_sub(from) as u64;
    Some(height_between(slope, part.min(whole), whole))
}

impl Rows {
    /// No track has a row yet.
    fn new(
        alloc: Global,
        graph: &Graph,
        tracks: &Tracks,
        columns: &Columns,
    ) -> Result<Rows, AllocError> {
        let many = tracks.courses.len();
        let mut rows = Rows {
            rows: vec![in alloc; None; many]?,
            many: 0,
            spans: Vec::with_capacity(alloc, many)?,
            bridges: Vec::new(alloc),
            pieces: Vec::with_capacity(alloc, many)?,
            grounded: tracks.grounded(alloc)?,
        };
        for (track, course) in tracks.courses.as_slice().iter().enumerate() {
            rows.spans.push(span_of(*course, columns))?;
            rows.pieces.push(graph.piece_of(course.left))?;
            rows.add_bridges(track, *course, columns)?;
        }
        Ok(rows)
    }

    /// Notes the lines of a track to other tracks.
    fn add_bridges(
        &mut self,
        track: usize,
        course: Course,
        columns: &Columns,
    ) -> Result<(), AllocError> {
        let from = columns.of(course.left);
        let to = columns.of(course.right);
        if course.crosses {
            self.bridges.push(Bridge {
                one: course.begins_on.unwrap_or(track),
                other: course.ends_on.unwrap_or(track),
                from,
                to,
                crosses: true,
            })?;
            return Ok(());
        }
        if let Some(one) = course.begins_on {
            self.bridges.push(Bridge {
                one,
                other: track,
                from,
                to: from.saturating_add(1),
                crosses: false,
            })?;
        }
        if let Some(other) = course.ends_on {
            self.bridges.push(Bridge {
                one: track,
                other,
                from: to.saturating_sub(1),
                to,
                crosses: false,
            })?;
        }
        Ok(())
    }

    /// The piece of a track.
    fn piece_of(&self, track: usize) -> usize {
        self.pieces.get(track).copied().unwrap_or(0)
    }

    /// The span of a track.
    fn span_at(&self, track: usize) -> Span {
        self.spans
            .get(track)
            .copied()
            .unwrap_or(Span { from: 0, to: 0 })
    }

    /// The row of a track in a trial.
    fn row_in(&self, trial: Trial, track: usize) -> Option<usize> {
        if trial.track == Some(track) {
            return Some(trial.row);
        }
        let row = entry_at(self.rows.as_slice(), track)?;
        if trial.is_new && trial.row <= row {
            Some(row.saturating_add(1))
        } else {
            Some(row)
        }
    }

    /// Puts all tracks of each piece, and then takes each out and puts it again where that costs less.
    fn put_all(
        &mut self,
        alloc: Global,
        graph: &Graph,
        tracks: &Tracks,
        columns: &Columns,
    ) -> Result<(), AllocError> {
        for piece in 0..graph.sides.pieces {
            for (track, course) in tracks.courses.as_slice().iter().enumerate() {
                if !course.crosses && self.piece_of(track) == piece {
                    self.put(alloc, tracks, columns, track)?;
                }
            }
        }
        for _ in 0..ROUNDS {
            let mut changed = false;
            for (track, course) in tracks.courses.as_slice().iter().enumerate() {
                if !course.crosses && self.put_again(alloc, tracks, columns, track)? {
                    changed = true;
                }
            }
            if !changed {
                break;
            }
        }
        Ok(())
    }

    /// Takes a track out and puts it where that costs the least, and says whether it costs less than before.
    fn put_again(
        &mut self,
        alloc: Global,
        tracks: &Tracks,
        columns: &Columns,
        track: usize,
    ) -> Result<bool, AllocError> {
        let old_rows = self.rows.clone()?;
        let old_many = self.many;
        let old = self.total(alloc, tracks, columns, self.piece_of(track))?;
        self.take_out(track);
        self.put(alloc, tracks, columns, track)?;
        let new = self.total(alloc, tracks, columns, self.piece_of(track))?;
        if new < old {
            return Ok(true);
        }
        self.rows = old_rows;
        self.many = old_many;
        Ok(false)
    }

    /// What the rows of a piece cost, and how many rows there are.
    fn total(
        &self,
        alloc: Global,
        tracks: &Tracks,
        columns: &Columns,
        piece: usize,
    ) -> Result<u64, AllocError> {
        let none = Trial {
            track: None,
            row: 0,
            is_new: false,
        };
        let cost = self.cost(alloc, tracks, columns, none, piece)?;
        let rows = (self.many as u64).saturating_mul(NEW);
        Ok(cost.saturating_mul(2).saturating_add(rows))
    }

    /// Takes a track out of its row, and the row out where it was alone.
    fn take_out(&mut self, track: usize) {
        let Some(row) = entry_at(self.rows.as_slice(), track) else {
            return;
        };
        set_at(self.rows.as_mut_slice(), track, None);
        for other in self.rows.as_slice() {
            if *other == Some(row) {
                return;
            }
        }
        for other in self.rows.as_mut_slice().iter_mut() {
            if let Some(above) = *other
                && row < above
            {
                *other = Some(above.saturating_sub(1));
            }
        }
        self.many = self.many.saturating_sub(1);
    }

    /// The first row of a piece, and the one after its last; twice the end of all rows where it has none.
    fn rows_of_piece(&self, piece: usize) -> (usize, usize) {
        let mut first = self.many;
        let mut end = 0;
        for (track, row) in self.rows.as_slice().iter().enumerate() {
            if let Some(row) = *row
                && self.piece_of(track) == piece
            {
                first = first.min(row);
                end = row.saturating_add(1).max(end);
            }
        }
        (first, first.max(end))
    }

    /// Puts a track into the row, or into a new one, where that costs the least. What comes later in the file comes
    /// lower where it can be chosen.
    fn put(
        &mut self,
        alloc: Global,
        tracks: &Tracks,
        columns: &Columns,
        track: usize,
    ) -> Result<(), AllocError> {
        let piece = self.piece_of(track);
        let (first, end) = self.rows_of_piece(piece);
        let mut best = Trial {
            track: Some(track),
            row: end,
            is_new: true,
        };
        let mut least = (u64::MAX, 0, 0);
        for row in first..end.saturating_add(1) {
            for is_new in [false, true] {
                let trial = Trial {
                    track: Some(track),
                    row,
                    is_new,
                };
                if is_new || (row < end && self.has_room(track, row)) {
                    let more = if is_new { NEW } else { 0 };
                    let cost = self.cost(alloc, tracks, columns, trial, piece)?;
                    let wrong = self.wrongly_ordered(tracks, trial, track, piece);
                    let all = cost.saturating_mul(2).saturating_add(more);
                    let key = (all, wrong, self.many.saturating_sub(row));
                    if key < least {
                        least = key;
                        best = trial;
                    }
                }
            }
        }
        self.settle(best, track);
        Ok(())
    }

    /// Puts a track as in a trial.
    fn settle(&mut self, trial: Trial, track: usize) {
        if trial.is_new {
            for row in self.rows.as_mut_slice().iter_mut() {
                if let Some(below) = *row
                    && trial.row <= below
                {
                    *row = Some(below.saturating_add(1));
                }
            }
            self.many = self.many.saturating_add(1);
        }
        set_at(self.rows.as_mut_slice(), track, Some(trial.row));
    }

    /// Whether a track has room in a row: no track there overlaps it, or is joined to it by a crossover.
    fn has_room(&self, track: usize, row: usize) -> bool {
        let own = self.span_at(track);
        for (other, at) in self.rows.as_slice().iter().enumerate() {
            if *at == Some(row) && meets(own, self.span_at(other)) {
                return false;
            }
        }
        for bridge in self.bridges.as_slice() {
            if bridge.crosses && bridge.one == track {
                if entry_at(self.rows.as_slice(), bridge.other) == Some(row) {
                    return false;
                }
            }
            if bridge.crosses && bridge.other == track {
                if entry_at(self.rows.as_slice(), bridge.one) == Some(row) {
                    return false;
                }
            }
        }
        true
    }

    /// How many tracks of a piece would lie above a track that come later in the file, or below it that come earlier.
    fn wrongly_ordered(&self, tracks: &Tracks, trial: Trial, track: usize, piece: usize) -> usize {
        let own = first_node(tracks, track);
        let mut wrong: usize = 0;
        for other in 0..self.rows.len() {
            if other != track
                && self.piece_of(other) == piece
                && let Some(row) = self.row_in(trial, other)
                && (first_node(tracks, other) < own) != (row < trial.row)
            {
                wrong = wrong.saturating_add(1);
            }
        }
        wrong
    }

    /// The heights of all tracks in a trial. The error is want of memory.
    fn heights_in(
        &self,
        alloc: Global,
        tracks: &Tracks,
        columns: &Columns,
        trial: Trial,
    ) -> Result<Vec<Option<Slope>>, AllocError> {
        let mut heights = vec![in alloc; None; self.rows.len()]?;
        for track in self.grounded.as_slice() {
            let Some(course) = tracks.course(*track) else {
                continue;
            };
            let slope = if course.crosses {
                let known = heights.as_slice();
                let from = columns.of(course.left);
                let to = columns.of(course.right);
                slope_between(
                    height_at(known, tracks, columns, course.begins_on, from),
                    height_at(known, tracks, columns, course.ends_on, to),
                )
            } else {
                self.row_in(trial, *track).map(level_slope)
            };
            set_at(heights.as_mut_slice(), *track, slope);
        }
        Ok(heights)
    }

    /// The heights of all tracks. The error is want of memory.
    pub(crate) fn heights(
        &self,
        alloc: Global,
        tracks: &Tracks,
        columns: &Columns,
    ) -> Result<Vec<Option<Slope>>, AllocError> {
        let none = Trial {
            track: None,
            row: 0,
            is_new: false,
        };
        self.heights_in(alloc, tracks, columns, none)
    }

    /// What the lines of a piece between its tracks cost in a trial: 2 for each row that one spans, and 7 for each track
    /// that it crosses, in the unit of heights.
    fn cost(
        &self,
        alloc: Global,
        tracks: &Tracks,
        columns: &Columns,
        trial: Trial,
        piece: usize,
    ) -> Result<u64, AllocError> {
        let heights = self.heights_in(alloc, tracks, columns, trial)?;
        let known = heights.as_slice();
        let mut total = 0_u64;
        for bridge in self.bridges.as_slice() {
            if self.piece_of(bridge.one) == piece
                && bridge.one != bridge.other
                && let Some(one) = height_at(known, tracks, columns, Some(bridge.one), bridge.from)
                && let Some(other) = height_at(
                    known,
                    tracks,
                    columns,
                    Some(bridge.other),
                    bridge.to,
                )
            {
                let cost = self.cost_of(trial, *bridge, one.min(other), one.max(other));
                total = total.saturating_add(cost);
            }
        }
        Ok(total)
    }

    /// What a line between two heights costs.
    fn cost_of(&self, trial: Trial, bridge: Bridge, high: u64, low: u64) -> u64 {
        if low <= high {
            return LEVEL;
        }
        let mut cost = low.saturating_sub(high).saturating_mul(2);
        if low.saturating_sub(high) <= ROW {
            return cost;
        }
        let from = bridge.from.saturating_mul(2);
        let to = bridge.to.saturating_mul(2);
        for track in 0..self.rows.len() {
            let span = self.span_at(track);
            if span.from < to && from < span.to && track != bridge.one && track != bridge.other {
                let Some(row) = self.row_in(trial, track) else {
                    continue;
                };
                let height = (row as u64).saturating_mul(ROW);
                if high < height && height < low {
                    cost = cost.saturating_add(CROSSING);
                }
            }
        }
        cost
    }

    /// Lays the crossovers whose ends are at one height, and says whether there are any.
    fn lay_level(
        &self,
        alloc: Global,
        tracks: &mut Tracks,
        columns: &Columns,
    ) -> Result<bool, AllocError> {
        let heights = self.heights(alloc, tracks, columns)?;
        let mut found = false;
        for track in 0..tracks.courses.len() {
            if let Some(course) = tracks.course(track)
                && course.crosses
                && is_level(heights.as_slice(), track)
            {
                tracks.lay(track);
                found = true;
            }
        }
        Ok(found)
    }
}

/// Whether both ends of a track lie at one height.
fn is_level(heights: &[Option<Slope>], track: usize) -> bool {
    match heights.get(track) {
        Some(Some(slope)) => slope.left == slope.right,
        Some(None) => true,
        None => true,
    }
}

/// The slope between two heights, where both are known.
fn slope_between(left: Option<u64>, right: Option<u64>) -> Option<Slope> {
    Some(Slope {
        left: left?,
        right: right?,
    })
}

/// The slope of a track in a row.
fn level_slope(row: usize) -> Slope {
    let height = (row as u64).saturating_mul(ROW);
    Slope {
        left: height,
        right: height,
    }
}

/// The first of the two ends of a track in file order.
fn first_node(tracks: &Tracks, track: usize) -> usize {
    match tracks.course(track) {
        Some(course) => course.left.min(course.right),
        None => 0,
    }
}
