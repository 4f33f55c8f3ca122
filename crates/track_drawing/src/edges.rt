//! Edges, in the colours of their sections.

ghost use Rattle.std.specs.Prelude.{◌≡◌, ◌+◌, ◌*◌, ◌++◌, [], ◌∷◌, length, map, OnOk};
ghost use Rattle.drawing.specs.Drawing.{areas_in, words_in};
ghost use Rattle.drawing.specs.Names.{color_of_name};
ghost use Rattle.rail_base.specs.Numbering.{entry};
ghost use Rattle.track_drawing.specs.Edges.{edge_shape, lines_in};

use crate::titles::edge_title;
use drawing::{Color, Picture, color_of_name, put_line, put_title, put_title_end};
use rail_base::list::Name;
use rail_base::station::{Edge, SectionNo};
use std::alloc::{AllocError, Global};
use track_layout::{EdgePlace, points_of};

/// Appends the line of each edge, in the colour of its section, with a title.
pub(crate) fn put_edges(
    alloc: Global,
    picture: &mut Picture,
    lines: &[EdgePlace],
    edges: &[Edge],
    sections: &[Name],
) -> Result<(), AllocError>
    ensures lines { OnOk result (lines_in picture.new ≡ lines_in picture.old ++ map (edge_shape sections.now) lines.now) }
    ensures words { OnOk result (words_in picture.new ≡ words_in picture.old) }
    ensures areas { OnOk result (areas_in picture.new ≡ areas_in picture.old) }
    ensures size { OnOk result (length picture.new ≡ length picture.old + 3 * length lines.now) }
{
    for (index, line) in lines.iter().enumerate() {
        put_edge(alloc, picture, line, edges.get(index), sections)?;
    }
    Ok(())
}

/// The colour of a section, which depends on its name alone.
fn section_color(sections: &[Name], section: SectionNo) -> Color
    ensures { result ≡ color_of_name (entry [] sections.now section.0) }
{
    if section.0 == 0 {
        return color_of_name(b"");
    }
    match sections.get(section.0 as usize - 1) {
        Some(name) => color_of_name(name.as_bytes()),
        None => color_of_name(b""),
    }
}

/// Appends the line of an edge, with a title.
fn put_edge(
    alloc: Global,
    picture: &mut Picture,
    line: &EdgePlace,
    edge: Option<&Edge>,
    sections: &[Name],
) -> Result<(), AllocError>
    ensures lines { OnOk result (lines_in picture.new ≡ lines_in picture.old ++ edge_shape sections.now line.now ∷ []) }
    ensures words { OnOk result (words_in picture.new ≡ words_in picture.old) }
    ensures areas { OnOk result (areas_in picture.new ≡ areas_in picture.old) }
    ensures size { OnOk result (length picture.new ≡ length picture.old + 3) }
{
    let title = edge_title(alloc, edge, sections)?;
    let points = points_of(alloc, line)?;
    let color = section_color(sections, line.section);
    put_title(picture, title)?;
    put_line(picture, points, color, 3)?;
    put_title_end(picture)
}
