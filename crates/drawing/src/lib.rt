//! Pictures as SVG: shapes in order, and the lines of the text that shows them.
//!
//! A picture is a list of shapes, of which the later ones lie over the earlier ones. Its places and sizes are in px,
//! from the left and from the top. The words of a picture are the texts of its shapes of the kinds `Words` and `Label`, in
//! order; a `Note` is written in the same way and counts for nothing. No label that `put_name` appends meets another.
#![tactic(auto)]

mod attributes;
mod labels;
mod laws;
mod lines;
mod names;
mod picture;
mod shape;
mod size;

pub use labels::{Spot, put_name};
pub use laws::{names_stay, words_are_in_lines};
pub use lines::drawing_lines;
pub use names::color_of_name;
pub use picture::{
    put_bar, put_dot, put_dotted, put_frame, put_line, put_note, put_ring, put_title,
    put_title_end, put_words,
};
pub use shape::{Anchor, Area, Color, Picture, Point, Shape, Style, numbered_color};
