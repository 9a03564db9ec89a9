//! The tables of the loops at one base.
ghost use Rattle.std.specs.Prelude.{◌≡◌, ◌<◌, ◌≤◌, length, map, IfOk};
ghost use Rattle.std.specs.List.{range_with_len};
ghost use Rattle.surf_graphs.specs.Cells.{IsSplit};
ghost use Rattle.surf_graphs.specs.Trees.{Tree};
ghost use Rattle.surf_surfaces.specs.Cells.{cells_of};
ghost use Rattle.surf_surfaces.specs.Surface.{edge_count};
ghost use Rattle.surf_surfaces.specs.Loop.{loop_walk};
ghost use Rattle.surf_surfaces.specs.Walk.{IsClosedAt};
ghost use Rattle.surf_surfaces.specs.Signature.{edge_signature};
ghost use Rattle.surf_tree.specs.Tables.{tree_of};
ghost use Rattle.surf_tree.specs.Grown.{IsGrown as IsTreeGrown};
ghost use Rattle.surf_cotree.specs.Tables.{split_with, AreCotreeTables};
ghost use Rattle.surf_cotree.specs.Grown.{IsGrownOn};
ghost use Rattle.surf_loops.specs.Loops.{LoopTables, AreLoopTables, IsRooted, IsGreedy};
ghost use Rattle.surf_base.specs.declared.limits.TheConstants.{MAX_LOOPS};

use crate::head::LoopHead;
use crate::heads::{LoopLengths, list_heads};
use crate::ways::walk_of;
use std::alloc::Global;
use std::marker::Model;
use surf_base::{EdgeId, NoMemory, VertexId};
use surf_cotree::CotreeDesk;
use surf_lengths::Lengths;
use surf_mesh::{HalfMesh, Walk};
use surf_tree::TreeDesk;

/// The loops at a base: the tree of shortest walks, the heaviest tree of faces outside it by the
/// lengths of loops, and the edges in neither, in the order of their loops.
#[derive(Drop)]
pub struct LoopDesk {
    tree: TreeDesk,
    cotree: CotreeDesk,
    heads: Vec<LoopHead>,
}

impl Model for LoopDesk {
    ghost use Rattle.std.specs.Prelude.{◌≤◌, length, vec_capacity};
    ghost use Rattle.surf_loops.specs.Loops.{LoopTables};

    ghost Value = { LoopTables };

    ghost view = { λ d. record { tree = d.tree; cotree = d.cotree; heads = d.heads.items } };

    ghost invariant = { λ d. length d.cotree.held ≤ vec_capacity d.heads };
}

impl LoopDesk {
    /// A desk for the loops of a mesh, and of every mesh with as many vertices, edges and faces. No
    /// later call but `walk` takes memory.
    pub fn make(alloc: Global, mesh: &HalfMesh) -> Result<LoopDesk, NoMemory>
        ensures made { IfOk result (λ desk. AreLoopTables mesh.now desk) }
    {
        let edges = mesh.edges() as usize;
        let tree = TreeDesk::make(alloc, mesh)?;
        let cotree = CotreeDesk::make(alloc, mesh)?;
        let heads = Vec::with_capacity(alloc, edges)?;
        Ok(LoopDesk {
            tree,
            cotree,
            heads,
        })
    }

    /// Grows the tree of shortest walks from a base alone. The loops of another base stay until
    /// `find_loops`. It takes no memory and can't be refused.
    pub fn grow_tree(&mut self, mesh: &HalfMesh, lengths: &Lengths, base: VertexId)
        requires made { AreLoopTables mesh.now self.old }
        requires base { base < mesh.now.vertices }
        requires lengths { length lengths.now ≡ edge_count mesh.now }
        ensures tree { IsTreeGrown mesh.now lengths.now base self.new.tree }
        ensures made { AreLoopTables mesh.now self.new }
        ensures rest { self.new ≡ record self.old { tree = self.new.tree } }
    {
        self.tree.grow(mesh, lengths, base);
    }

    /// Finds the loops at the base of the tree that was grown last, those that are chosen, a least
    /// loop system there. It takes no memory and can't be refused.
    pub fn find_loops(&mut self, mesh: &HalfMesh, lengths: &Lengths)
        requires made { AreLoopTables mesh.now self.old }
        requires lengths { length lengths.now ≡ edge_count mesh.now }
        requires tree { IsTreeGrown mesh.now lengths.now self.old.tree.base self.old.tree }
        ensures greedy { IsGreedy mesh.now lengths.now self.old.tree.base self.new }
    {
        mesh.law_of_surface();
        lengths.law_of_lengths();
        let loops = LoopLengths {
            mesh,
            lengths,
            tree: &self.tree,
        };
        self.cotree.grow_by(mesh, self.tree.tree_edges(), &loops);
        list_heads(self.cotree.left(), &loops, &mut self.heads);
    }

    /// Finds the loops at a base that are chosen, a least loop system there. It takes no memory and
    /// can't be refused.
    pub fn greedy(&mut self, mesh: &HalfMesh, lengths: &Lengths, base: VertexId)
        requires made { AreLoopTables mesh.now self.old }
        requires base { base < mesh.now.vertices }
        requires lengths { length lengths.now ≡ edge_count mesh.now }
        ensures greedy { IsGreedy mesh.now lengths.now base self.new }
    {
        self.grow_tree(mesh, lengths, base);
        self.find_loops(mesh, lengths);
    }

    /// Gives each edge its signature, until loops are found again. It takes no memory and can't be
    /// refused.
    pub fn sign(&mut self, mesh: &HalfMesh)
        requires grown { IsGrownOn mesh.now self.old.cotree }
        requires few { length self.old.cotree.left ≤ MAX_LOOPS }
        ensures signed { (tree : Tree) → IsSplit (cells_of mesh.now)
            (split_with tree self.new.cotree) →
            self.new.cotree.signatures ≡ map (edge_signature mesh.now
            (split_with tree self.new.cotree)) (range_with_len 0 (edge_count mesh.now)) }
        ensures rest { self.new ≡ record self.old {
          cotree = record self.old.cotree {
            signatures =
                self.new.cotree.signatures;
          };
        } }
        ensures made { AreCotreeTables mesh.now self.new.cotree }
    {
        self.cotree.sign(mesh);
    }

    /// The edges of the loops with their lengths, in the order of (length, edge number).
    pub fn heads(&self) -> &[LoopHead]
        ensures heads { result.now ≡ self.now.heads }
    {
        &self.heads
    }

    /// The tree of shortest walks.
    pub fn tree(&self) -> &TreeDesk
        ensures tree { result.now ≡ self.now.tree }
    {
        &self.tree
    }

    /// The tree of faces, with the left edges and the signatures.
    pub fn cotree(&self) -> &CotreeDesk
        ensures cotree { result.now ≡ self.now.cotree }
    {
        &self.cotree
    }

    /// The tree of faces alone, with the left edges and the signatures. The memory of all else is
    /// free from here on.
    pub fn into_cotree(self) -> CotreeDesk
        ensures cotree { result ≡ self.cotree }
    {
        self.cotree
    }

    /// The loop of an edge: down the tree from the base to the lesser end, over the edge, and up to
    /// the base again. It is a closed walk at the base, whether the edge is left or not.
    pub fn walk(&self, alloc: Global, mesh: &HalfMesh, edge: EdgeId) -> Result<Walk, NoMemory>
        requires rooted { IsRooted mesh.now self.now.tree }
        requires edge { edge < edge_count mesh.now }
        ensures walk { IfOk result (λ walk. walk ≡ loop_walk mesh.now
            (tree_of self.now.tree) edge) }
        ensures closed { IfOk result (λ walk. IsClosedAt mesh.now self.now.tree.base walk) }
    {
        walk_of(alloc, mesh, &self.tree, edge)
    }
}
