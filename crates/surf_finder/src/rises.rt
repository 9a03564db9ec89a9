//! The edges of which a vertex is the lesser end.
ghost use Rattle.std.specs.Prelude.{◌≡◌, ◌<◌, ◌+◌, ◌-◌, ◌++◌, replicate, IfOk, OnOk, length, slice_index};
ghost use Rattle.surf_surfaces.specs.Surface.{edge_count};
ghost use Rattle.surf_finder.specs.Rises.{AreStarts, IsRise};

use std::alloc::Global;
use std::marker::Model;
use surf_base::{EdgeId, NoMemory, VertexId};
use surf_mesh::HalfMesh;

/// An edge, from its lesser end to its greater one.
#[derive(Clone, Copy)]
pub(crate) struct Rise {
    pub low: VertexId,
    pub high: VertexId,
    pub edge: EdgeId,
}

// An edge with its ends.
pub(crate) fn rise_of(mesh: &HalfMesh, edge: EdgeId) -> Rise
    requires edge { edge < edge_count mesh.now }
    ensures rise { IsRise mesh.now result }
    ensures edge { result.edge ≡ edge }
{
    mesh.law_of_surface();
    let (low, high) = mesh.ends(edge);
    Rise { low, high, edge }
}

/// For each vertex the number of the first edge of which it is the lesser end. Edges are numbered
/// in the order of their ends, so all such edges of a vertex have numbers in a row. Where it has
/// none, it is the number of the first edge of a greater vertex. Behind all is the count of edges.
#[derive(Drop)]
pub(crate) struct Rises {
    starts: Vec<u32>,
}

impl Model for Rises {
    ghost use Rattle.std.specs.Prelude.{ℕ, List};

    ghost Value = { List ℕ };

    ghost view = { λ r. r.starts.items };
}

// Fills a list up to a length with a number.
fn fill(starts: &mut Vec<u32>, many: usize, number: u32) -> Result<(), NoMemory>
    ensures filled { OnOk result (starts.new.items
        ≡ starts.old.items ++ replicate (many - length starts.old.items) number) }
{
    for _place in starts.len()..many {
        starts.push(number)?;
    }
    Ok(())
}

impl Rises {
    /// Those of a mesh.
    pub fn make(alloc: Global, mesh: &HalfMesh) -> Result<Rises, NoMemory>
        ensures starts { IfOk result (AreStarts mesh.now) }
    {
        mesh.law_of_surface();
        let mut starts = Vec::with_capacity(alloc, mesh.vertices() as usize + 1)?;
        for e in 0..mesh.edges() {
            let (low, _high) = mesh.ends(EdgeId::new(e));
            fill(&mut starts, low.index() + 1, e)?;
        }
        fill(&mut starts, mesh.vertices() as usize + 1, mesh.edges())?;
        Ok(Rises { starts })
    }

    /// The first number of those edges of a vertex, and that behind the last.
    pub fn at(&self, v: VertexId) -> (u32, u32)
        requires vertex { v + 1 < length self.now }
        ensures first { result.0 ≡ slice_index self.now v }
        ensures past { result.1 ≡ slice_index self.now (v + 1) }
    {
        (self.starts[v.index()], self.starts[v.index() + 1])
    }
}
