//! The shapes of a picture.

use rail_base::list::{List, Name};

/// A place in a picture, in px from the left and from the top.
#[derive(Clone, Copy, Debug, PartialEq, Eq)]
pub struct Point {
    pub x: u64,
    pub y: u64,
}

/// Which part of a text stands at its place.
#[derive(Clone, Copy, Debug, PartialEq, Eq)]
pub enum Anchor {
    Start,
    Middle,
    End,
}

/// A colour.
#[derive(Clone, Copy, Debug, PartialEq, Eq)]
pub enum Color {
    Black,
    White,
    Gray,
    Red,
    Green,
    /// By its hue, in degrees.
    Hue(u64),
    /// One of 24 that can be read on white.
    Named(u64),
}

/// How a text is written.
#[derive(Clone, Copy, Debug, PartialEq, Eq)]
pub enum Style {
    Plain,
    Bold,
    Italic,
}

/// An area of a picture, in px.
#[derive(Clone, Copy, Debug, PartialEq, Eq)]
pub struct Area {
    pub left: u64,
    pub top: u64,
    pub right: u64,
    pub bottom: u64,
}

/// The colour of a number: neighbours differ much in hue.
pub fn numbered_color(number: u64) -> Color {
    Color::Hue(number.saturating_mul(137) % 360)
}

/// A shape of a picture, its sizes in px.
#[derive(Drop)]
pub enum Shape {
    /// A line from one point to the next.
    Line {
        points: List<Point>,
        color: Color,
        width: u64,
    },
    /// A filled bar, by its left upper corner.
    Bar {
        corner: Point,
        width: u64,
        height: u64,
        color: Color,
    },
    /// An empty bar with a dashed outline, by its left upper corner.
    Frame {
        corner: Point,
        width: u64,
        height: u64,
        color: Color,
    },
    /// A filled disc.
    Dot {
        center: Point,
        radius: u64,
        color: Color,
    },
    /// A text that says what something is or what has happened.
    Words {
        place: Point,
        anchor: Anchor,
        color: Color,
        text: Name,
    },
    /// A name at its mark. Its place is where it begins.
    Label {
        place: Point,
        style: Style,
        color: Color,
        text: Name,
    },
    /// A dotted line from one point to the next.
    Dotted {
        points: List<Point>,
        color: Color,
        width: u64,
    },
    /// A white disc with a ring around it.
    Ring {
        center: Point,
        radius: u64,
        color: Color,
    },
    /// What follows, up to the next end, has a title.
    Titled {
        title: Name,
    },
    /// The end of what has a title.
    TitledEnd,
    /// A text beside the others, as the number at an axis.
    Note {
        place: Point,
        anchor: Anchor,
        color: Color,
        text: Name,
    },
}

/// Shapes in order.
pub type Picture = List<Shape>;
