//! The path of a search, with a mark at each of its edges.

ghost use Rattle.std.specs.Prelude.{◌≡◌, ◌++◌, ◌∷◌, [], ◌≤◌, ◌<◌, ◌-◌, false, IfOk, OnErr, OnOk, length};
ghost use Rattle.std.specs.Prelude.{slice_index_or, take, vec_len};
ghost use Rattle.rail_base.specs.declared.station.EdgeNo.{EdgeNo};
ghost use Rattle.rail_base.specs.Members.{Differ, In};
ghost use Rattle.rail_spec.specs.Track.{has_edge};
ghost use Rattle.rail_routes.specs.Paths.{differ-prop, HasMark};

use rail_base::station::EdgeNo;
use std::alloc::{AllocError, Global};

/// A path along edges.
#[derive(Drop)]
pub(crate) struct Path {
    /// Its edges, in order.
    pub(crate) edges: Vec<EdgeNo>,
    /// For each edge of the design, whether the path has it.
    pub(crate) marks: Vec<bool>,
    ghost numbered: { (e : EdgeNo) → In e edges.items → HasMark marks.items e },
    ghost once: { Differ edges.items } by { differ-prop edges.items },
    ghost marked: { (e : EdgeNo) → HasMark marks.items e →
        slice_index_or marks.items (e.0 - 1) false ≡ has_edge edges.items e },
}

impl Path {
    /// The path without edges, in a design of so many.
    pub(crate) fn new(alloc: Global, edges: usize) -> Result<Path, AllocError>
        ensures empty { IfOk result (λ path. path.edges.items ≡ []) }
        ensures marks { IfOk result (λ path. length path.marks.items ≡ edges) }
    {
        Ok(Path {
            edges: Vec::new(alloc),
            marks: vec![in alloc; false; edges]?,
        })
    }

    /// How many edges it has.
    pub(crate) fn len(&self) -> usize
        ensures { result ≡ length self.now.edges.items }
    {
        self.edges.len()
    }

    /// Whether it has the edge.
    pub(crate) fn has(&self, edge: EdgeNo) -> bool
        requires { HasMark self.now.marks.items edge }
        ensures { result ≡ has_edge self.now.edges.items edge }
    {
        self.marks[edge.0 as usize - 1]
    }

    /// Goes on over an edge that it hasn't.
    pub(crate) fn push(&mut self, edge: EdgeNo) -> Result<(), AllocError>
        requires edge { HasMark self.old.marks.items edge }
        requires new { has_edge self.old.edges.items edge ≡ false }
        ensures longer { OnOk result (self.new.edges.items ≡ self.old.edges.items ++ edge ∷ []) }
        ensures kept { OnErr result (self.new.edges.items ≡ self.old.edges.items) }
        ensures marks { length self.new.marks.items ≡ length self.old.marks.items }
    {
        self.edges.push(edge)?;
        self.marks[edge.0 as usize - 1] = true;
        Ok(())
    }

    /// Goes back until it has so many edges.
    pub(crate) fn shorten(&mut self, edges: usize)
        requires { edges ≤ length self.old.edges.items }
        ensures shorter { self.new.edges.items ≡ take edges self.old.edges.items }
        ensures marks { length self.new.marks.items ≡ length self.old.marks.items }
    {
        while edges < self.len() {
            self.pop();
        }
    }

    /// Goes back over its last edge.
    fn pop(&mut self)
        ensures shorter { self.new.edges.items ≡ take (length self.old.edges.items - 1) self.old.edges.items }
        ensures marks { length self.new.marks.items ≡ length self.old.marks.items }
    {
        if let Some(edge) = self.edges.pop() {
            self.marks[edge.0 as usize - 1] = false;
        }
    }
}
