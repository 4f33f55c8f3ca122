//! The whole picture.

ghost use Rattle.std.specs.Prelude.{◌≡◌, ◌≤◌, ◌+◌, ◌*◌, ◌++◌, [], length, map, IfOk, OnOk};
ghost use Rattle.drawing.specs.Drawing.{LabelsAreApart, areas_in, words_in};
ghost use Rattle.track_drawing.specs.Edges.{ShowsEdges, edge_shape, lines_in};
ghost use Rattle.track_drawing.specs.Words.{track_size, track_words};

use crate::crossings::put_crossings;
use crate::edges::put_edges;
use crate::names::{put_heading, put_node_names, put_section_names, put_signal_names};
use crate::nodes::put_nodes;
use crate::scene::Scene;
use crate::signals::put_signals;
use crate::spots::{Listing, spots_of};
use drawing::Picture;
use rail_base::list::{List, Name};
use rail_base::station::{Edge, Station};
use std::alloc::{AllocError, Global};
use track_layout::{EdgePlace, layout_of};

#[tactic(auto, using(crate::proofs::Joining::as_many))]
/// The picture of the track of a station. It begins with its edges: the line of each joins its two nodes and has the colour
/// of its section's name. Its words are the names of all sections, of all nodes and of all signals, each in the order of
/// their numbers: each stands at its mark, where it meets no other name, or is listed below. Trains that go to the right
/// have their signals below the track.
///
/// `Err` is want of memory.
pub fn track_picture(alloc: Global, station: &Station) -> Result<Picture, AllocError>
    ensures edges { IfOk result (λ picture. ShowsEdges station.now picture) }
    ensures words { IfOk result (λ picture. words_in picture ≡ track_words station.now) }
    ensures apart { IfOk result (λ picture. LabelsAreApart picture) }
    ensures size { IfOk result (λ picture. length picture ≤ track_size station.now) }
{
    let layout = layout_of(alloc, station)?;
    let edges = edges_picture(
        alloc,
        layout.edges.as_slice(),
        station.edges.as_slice(),
        station.sections.as_slice(),
    )?;
    let scene = Scene::new(alloc, station, layout)?;
    let marks = marks_picture(alloc, &scene, station)?;
    both(edges, marks)
}

#[tactic(auto, using(crate::proofs::Joining::words_joined, crate::proofs::Joining::areas_joined))]
/// One picture over another.
fn both(below: Picture, above: Picture) -> Result<Picture, AllocError>
    ensures all { IfOk result (λ picture. picture ≡ below ++ above) }
    ensures words { IfOk result (λ picture. words_in picture ≡ words_in below ++ words_in above) }
    ensures areas { IfOk result (λ picture. areas_in picture ≡ areas_in below ++ areas_in above) }
    ensures size { IfOk result (λ picture. length picture ≡ length below + length above) }
{
    let mut shapes = below.into_vec();
    let mut more = above.into_vec();
    shapes.append(&mut more)?;
    Ok(List::from_vec(shapes))
}

/// The picture of the edges alone.
fn edges_picture(
    alloc: Global,
    lines: &[EdgePlace],
    edges: &[Edge],
    sections: &[Name],
) -> Result<Picture, AllocError>
    ensures lines { IfOk result (λ picture. lines_in picture ≡ map (edge_shape sections.now) lines.now) }
    ensures words { IfOk result (λ picture. words_in picture ≡ []) }
    ensures areas { IfOk result (λ picture. areas_in picture ≡ []) }
    ensures size { IfOk result (λ picture. length picture ≡ 3 * length lines.now) }
{
    let mut picture: Picture = List::new(alloc);
    put_edges(alloc, &mut picture, lines, edges, sections)?;
    Ok(picture)
}

/// The picture of all marks and names.
fn marks_picture(alloc: Global, scene: &Scene, station: &Station) -> Result<Picture, AllocError>
    ensures words { IfOk result (λ picture. words_in picture ≡ track_words station.now) }
    ensures apart { IfOk result (λ picture. LabelsAreApart picture) }
    ensures size { IfOk result (λ picture. length picture ≤ 4 * length station.now.sections
        + 6 * length station.now.nodes + 6 * length station.now.signals + 3) }
{
    let mut picture: Picture = List::new(alloc);
    let sections = station.sections.as_slice();
    put_crossings(
        alloc,
        &mut picture,
        scene,
        station.edges.as_slice(),
        sections,
    )?;
    put_nodes(alloc, &mut picture, scene, station.nodes.as_slice())?;
    put_signals(alloc, &mut picture, scene, station)?;
    put_names(alloc, &mut picture, scene, station)?;
    Ok(picture)
}

/// Appends all names.
fn put_names(
    alloc: Global,
    picture: &mut Picture,
    scene: &Scene,
    station: &Station,
) -> Result<(), AllocError>
    ensures words { OnOk result (words_in picture.new ≡ words_in picture.old ++ track_words station.now) }
    ensures apart { OnOk result (LabelsAreApart picture.old → LabelsAreApart picture.new) }
    ensures size { OnOk result (length picture.new ≤ length picture.old + length station.now.sections
        + length station.now.nodes + length station.now.signals + 3) }
{
    let spots = spots_of(alloc, scene, station)?;
    let mut listing = Listing::below(scene.layout.size);
    let sections = spots.sections.as_slice();
    let nodes = spots.nodes.as_slice();
    let signals = spots.signals.as_slice();
    put_heading(alloc, picture, &mut listing, sections, SECTIONS)?;
    put_section_names(
        alloc,
        picture,
        &mut listing,
        sections,
        station.sections.as_slice(),
    )?;
    put_heading(alloc, picture, &mut listing, nodes, NODES)?;
    put_node_names(
        alloc,
        picture,
        &mut listing,
        nodes,
        station.nodes.as_slice(),
    )?;
    put_heading(alloc, picture, &mut listing, signals, SIGNALS)?;
    put_signal_names(
        alloc,
        picture,
        &mut listing,
        signals,
        station.signals.as_slice(),
    )
}

/// What stands before the names of sections that are listed.
const SECTIONS: &[u8] = b"sections without room for their names:";

/// What stands before the names of nodes that are listed.
const NODES: &[u8] = b"nodes without room for their names:";

/// What stands before the names of signals that are listed.
const SIGNALS: &[u8] = b"signals without room for their names:";
