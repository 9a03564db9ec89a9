//! The cover as a search sees it.
ghost use Rattle.std.specs.Prelude.{◌≡◌, ◌/◌, ◌%◌, length, slice_index};
ghost use Rattle.surf_surfaces.specs.Surface.{edge_count};
ghost use Rattle.surf_cover.specs.Networks.{cover_by, length_by, link_by, IsCoverable};

use surf_base::{EdgeId, VertexId};
use surf_lengths::Lengths;
use surf_mesh::HalfMesh;
use surf_tree::Network;

/// The vertices of a mesh with each of so many sets, where a table has the signatures of the edges.
/// The node of a vertex with a set is the number of the vertex times that of sets, and the set.
#[derive(Drop)]
pub(crate) struct CoverNetwork<'a> {
    pub(crate) mesh: &'a HalfMesh,
    pub(crate) lengths: &'a Lengths,
    pub(crate) signs: &'a [u32],
    pub(crate) sets: u32,
}

impl Network for CoverNetwork<'_> {
    ghost graph = { λ n. cover_by n.mesh.now n.sets (slice_index n.signs.now) };

    ghost weight = { λ n. length_by n.lengths.now n.sets };

    ghost below = { λ n. edge_count n.mesh.now };

    ghost link = { λ n node. link_by n.mesh.now n.sets (slice_index n.signs.now)
        (node / n.sets) (node % n.sets) };

    ghost valid = { λ n. IsCoverable n.mesh.now n.lengths.now n.sets n.signs.now };

    #[inline]
    fn edges_at(&self, node: u32) -> &[EdgeId] {
        self.mesh.edges_at(VertexId::new(node / self.sets))
    }

    #[inline]
    fn across(&self, node: u32, edge: EdgeId) -> (u32, u32) {
        let end = self.mesh.other_end(VertexId::new(node / self.sets), edge);
        let set = (node % self.sets) ^ self.signs[edge.index()];
        (end.number() * self.sets + set, self.lengths.of(edge))
    }
}
