//! Graphs as a search sees them.
ghost use Rattle.std.specs.Prelude.{◌≡◌, ◌<◌, ℕ, length, map, All};
ghost use Rattle.surf_graphs.specs.Graphs.{Graph};
ghost use Rattle.surf_graphs.specs.Cells.{primal};
ghost use Rattle.surf_surfaces.specs.Surface.{edge_count};
ghost use Rattle.surf_surfaces.specs.Walk.{edge_length};
ghost use Rattle.surf_surfaces.specs.Cells.{cells_of};
ghost use Rattle.surf_mesh.specs.Links.{IsRow, edge_link};

use surf_base::{EdgeId, VertexId};
use surf_lengths::Lengths;
use surf_mesh::HalfMesh;

/// A graph whose edges have lengths and lie over the edges of a mesh. Nodes are numbers.
pub trait Network {
    ghost graph: { Self → Graph };

    // the length of each edge of the graph
    ghost weight: { Self → ℕ → ℕ };

    // how many edges the mesh below has
    ghost below: { Self → ℕ };

    // an edge of the mesh as a link of a node
    ghost link: { Self → ℕ → ℕ → ℕ × ℕ };

    // what has to hold of the tables
    ghost valid: { Self → Type 0 };

    /// The edges of the mesh at a node, each of which is a link to another node.
    fn edges_at(&self, node: u32) -> &[EdgeId]
        requires valid { valid self.now }
        requires node { node < (graph self.now).nodes }
        ensures inside { All (λ e. e < below self.now) result.now }
        ensures row { IsRow (graph self.now) node (map (link self.now node) result.now) };

    /// The node at the other end of a link, and the link's length.
    fn across(&self, node: u32, edge: EdgeId) -> (u32, u32)
        requires valid { valid self.now }
        requires node { node < (graph self.now).nodes }
        requires edge { edge < below self.now }
        ensures end { result.0 ≡ (link self.now node edge).0 }
        ensures length { result.1 ≡ weight self.now (link self.now node edge).1 };
}

/// The vertices and edges of a mesh, with lengths.
#[derive(Drop)]
pub struct MeshNetwork<'a> {
    pub mesh: &'a HalfMesh,
    pub lengths: &'a Lengths,
}

impl Network for MeshNetwork<'_> {
    ghost graph = { λ n. primal (cells_of n.mesh.now) };

    ghost weight = { λ n. edge_length n.lengths.now };

    ghost below = { λ n. edge_count n.mesh.now };

    ghost link = { λ n. edge_link n.mesh.now };

    ghost valid = { λ n. length n.lengths.now ≡ edge_count n.mesh.now };

    #[inline]
    fn edges_at(&self, node: u32) -> &[EdgeId] {
        self.mesh.edges_at(VertexId::new(node))
    }

    #[inline]
    fn across(&self, node: u32, edge: EdgeId) -> (u32, u32) {
        let end = self.mesh.other_end(VertexId::new(node), edge);
        (end.number(), self.lengths.of(edge))
    }
}
