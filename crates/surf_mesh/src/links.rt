//! What searches see of a surface: the links of each vertex and of each face.
//!
//! A search runs over one of two graphs, whose edges are the edges of the mesh by their numbers.
//! One has the vertices as nodes, and an edge joins its two ends. The other has the faces as
//! nodes, and an edge joins the two faces that it is a side of. Both are read from the tables of
//! the mesh: nothing is copied.
ghost use Rattle.std.specs.Prelude.{◌≡◌, ◌<◌, map, All};
ghost use Rattle.surf_graphs.specs.Cells.{primal};
ghost use Rattle.surf_surfaces.specs.Surface.{edge_count, ends};
ghost use Rattle.surf_surfaces.specs.Cells.{cells_of};
ghost use Rattle.surf_surfaces.specs.SideNumber.{side_count};
ghost use Rattle.surf_mesh.specs.Links.{IsRow, other_of, edge_link, side_link};

use crate::HalfMesh;
use surf_base::{EdgeId, FaceId, SideId, VertexId};

impl HalfMesh {
    /// The edges at a vertex, each once, as its links: `other_end` has the neighbour.
    pub fn edges_at(&self, v: VertexId) -> &[EdgeId]
        requires vertex { v < self.now.vertices }
        ensures inside { All (λ e. e < edge_count self.now) result.now }
        ensures row { IsRow (primal (cells_of self.now)) v (map (edge_link self.now v) result.now) }
    {
        self.law_of_surface();
        self.ring_edges(v)
    }

    /// The other end of an edge at a vertex.
    pub fn other_end(&self, v: VertexId, e: EdgeId) -> VertexId
        requires edge { e < edge_count self.now }
        ensures end { result ≡ other_of (ends self.now e) v }
    {
        let (low, high) = self.ends(e);
        if low == v { high } else { low }
    }

    /// The face across a side and the edge between, a link of the face that the side is of.
    pub fn across(&self, s: SideId) -> (FaceId, EdgeId)
        requires side { s < side_count self.now }
        ensures link { result ≡ side_link self.now s }
    {
        self.law_of_surface();
        let e = self.edge_of(s);
        let t = self.mate(s);
        (self.face_of(t), e)
    }
}
