//! The loops at one base, without the tables of the tree of faces.
ghost use Rattle.std.specs.Prelude.{◌≡◌, ◌<◌, IfOk, length};
ghost use Rattle.surf_surfaces.specs.Surface.{edge_count};
ghost use Rattle.surf_surfaces.specs.Loop.{loop_walk};
ghost use Rattle.surf_surfaces.specs.Walk.{IsClosedAt};
ghost use Rattle.surf_tree.specs.Tables.{tree_of};
ghost use Rattle.surf_loops.specs.Loops.{IsRooted, HasGreedy};

use crate::head::LoopHead;
use crate::heads::{LoopLengths, list_heads};
use crate::ways::walk_of;
use std::alloc::Global;
use std::marker::Model;
use surf_base::{EdgeId, NoMemory, VertexId};
use surf_cotree::CotreeEdges;
use surf_lengths::Lengths;
use surf_mesh::{HalfMesh, Walk};
use surf_tree::TreeDesk;

/// The loops at one base, where nobody asks for the parents and depths of faces: the tree of
/// shortest walks, the edges of the heaviest tree of faces outside it by the lengths of loops, and
/// the edges in neither, in the order of their loops.
#[derive(Drop)]
pub struct BaseLoops {
    tree: TreeDesk,
    edges: CotreeEdges,
    heads: Vec<LoopHead>,
}

impl Model for BaseLoops {
    ghost use Rattle.surf_loops.specs.Loops.{BaseTables};

    ghost Value = { BaseTables };

    ghost view = { λ d. record { tree = d.tree; held = d.edges.held; heads = d.heads.items } };
}

impl BaseLoops {
    /// Finds the loops at a base that are chosen, a least loop system there.
    pub fn find(
        alloc: Global,
        mesh: &HalfMesh,
        lengths: &Lengths,
        base: VertexId,
    ) -> Result<BaseLoops, NoMemory>
        requires base { base < mesh.now.vertices }
        requires lengths { length lengths.now ≡ edge_count mesh.now }
        ensures greedy { IfOk result (HasGreedy mesh.now lengths.now base) }
    {
        mesh.law_of_surface();
        lengths.law_of_lengths();
        let mut tree = TreeDesk::make(alloc, mesh)?;
        tree.grow(mesh, lengths, base);
        let loops = LoopLengths {
            mesh,
            lengths,
            tree: &tree,
        };
        let edges = CotreeEdges::find(alloc, mesh, tree.tree_edges(), &loops)?;
        let mut heads = Vec::with_capacity(alloc, edges.left().len())?;
        list_heads(edges.left(), &loops, &mut heads);
        Ok(BaseLoops { tree, edges, heads })
    }

    /// The edges of the loops with their lengths, in the order of (length, edge number).
    pub fn heads(&self) -> &[LoopHead]
        ensures heads { result.now ≡ self.now.heads }
    {
        &self.heads
    }

    /// Whether the tree of faces has each edge. The memory of all else is free from here on.
    pub fn into_held(self) -> Vec<bool>
        ensures held { result.items ≡ self.held }
    {
        self.edges.into_held()
    }

    /// The loop of an edge: down the tree from the base to the lesser end, over the edge, and up to
    /// the base again. It is a closed walk at the base, whether the edge is left or not.
    pub fn walk(&self, alloc: Global, mesh: &HalfMesh, edge: EdgeId) -> Result<Walk, NoMemory>
        requires rooted { IsRooted mesh.now self.now.tree }
        requires edge { edge < edge_count mesh.now }
        ensures walk { IfOk result (λ walk. walk ≡ loop_walk mesh.now
            (tree_of self.now.tree) edge) }
        ensures closed { IfOk result (λ walk. IsClosedAt mesh.now self.now.tree.base walk) }
    {
        walk_of(alloc, mesh, &self.tree, edge)
    }
}
