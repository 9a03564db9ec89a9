//! The tables of one tree of faces.
ghost use Rattle.std.specs.Prelude.{◌≡◌, ◌<◌, ◌≤◌, length, slice_index, slice_index_or, map, false, IfOk};
ghost use Rattle.std.specs.List.{range_with_len};
ghost use Rattle.surf_graphs.specs.Cells.{IsSplit};
ghost use Rattle.surf_graphs.specs.Trees.{Tree};
ghost use Rattle.surf_surfaces.specs.Cells.{cells_of};
ghost use Rattle.surf_surfaces.specs.Surface.{edge_count, loop_count};
ghost use Rattle.surf_surfaces.specs.Signature.{edge_signature};
ghost use Rattle.surf_cotree.specs.Tables.{CotreeTables, AreCotreeTables, parent_edge_of, width_for, split_with};
ghost use Rattle.surf_base.specs.Tables.{at};
ghost use Rattle.surf_cotree.specs.Grown.{MarkTree, IsGrown, IsGrownOn};
ghost use Rattle.surf_base.specs.declared.limits.TheConstants.{MAX_LOOPS};

use crate::listing::{list_left, mark_edges};
use crate::peeling::{hang, list_peeled};
use crate::search::{FaceNetwork, span};
use crate::weights::{Listed, Weights, weights_fit};
use std::alloc::Global;
use std::marker::Model;
use surf_base::{EdgeId, FaceId, MAX_LOOPS, NOBODY, NoMemory};
use surf_bits::Bits;
use surf_heap::Heap;
use surf_mesh::HalfMesh;
use surf_signatures::Signs;

/// The heaviest tree of the faces outside a tree of the vertices: for each face the edge to its
/// parent and the number of edges to face 0, for each edge whether the tree has it, the edges that
/// are left, and the signatures of all edges.
#[derive(Drop)]
pub struct CotreeDesk {
    heap: Heap,
    leaves: Vec<EdgeId>,
    depth: Vec<u32>,
    parent: Vec<u32>,
    up: Vec<u32>,
    held: Vec<bool>,
    left: Vec<EdgeId>,
    signs: Signs,
}

impl Model for CotreeDesk {
    ghost use Rattle.std.specs.Prelude.{◌≡◌, ◌≤◌, length, vec_capacity};
    ghost use Rattle.surf_cotree.specs.Tables.{CotreeTables};

    ghost Value = { CotreeTables };

    ghost view = { λ d. record {
      held = d.held.items;
      left = d.left.items;
      parents = d.parent.items;
      ups = d.up.items;
      depths = d.depth.items;
      width = d.signs.width;
      signatures = d.signs.sets;
    } };

    ghost invariant = { λ d. (length d.heap ≡ length d.depth.items)
        × (length d.held.items ≤ vec_capacity d.left)
        × (length d.leaves.items ≡ length d.depth.items) };
}

/// How many edges are in neither tree.
pub(crate) fn count_loops(mesh: &HalfMesh) -> usize
    ensures count { result ≡ loop_count mesh.now }
{
    let edges = mesh.edges() as usize;
    let nodes = mesh.vertices() as usize + mesh.faces() as usize;
    (edges + 2).saturating_sub(nodes)
}

// For how many left edges there is to be room.
fn width_of(loops: usize) -> u32
    ensures width { result ≡ width_for loops }
    ensures most { result ≤ MAX_LOOPS }
{
    if loops <= MAX_LOOPS as usize {
        loops as u32
    } else {
        0
    }
}

impl CotreeDesk {
    /// A desk for the trees of a mesh, and of every mesh with as many vertices, edges and faces. No
    /// later call takes memory. Signatures have as many words as two less the characteristic needs;
    /// where that is more than 1,024, which `sign` doesn't take, there is no room for them.
    pub fn make(alloc: Global, mesh: &HalfMesh) -> Result<CotreeDesk, NoMemory>
        ensures made { IfOk result (λ desk. AreCotreeTables mesh.now desk) }
    {
        let faces = mesh.faces() as usize;
        let edges = mesh.edges() as usize;
        let width = width_of(count_loops(mesh));
        let leaves = vec![in alloc; EdgeId::new(0); faces]?;
        let depth = vec![in alloc; 0u32; faces]?;
        let parent = vec![in alloc; 0u32; faces]?;
        let up = vec![in alloc; 0u32; faces]?;
        let held = vec![in alloc; false; edges]?;
        let heap = Heap::make(alloc, mesh.faces())?;
        let left = Vec::with_capacity(alloc, edges)?;
        let signs = Signs::make(alloc, mesh.edges(), width)?;
        Ok(CotreeDesk {
            heap,
            leaves,
            depth,
            parent,
            up,
            held,
            left,
            signs,
        })
    }

    /// Grows the heaviest tree of the faces outside a tree of the vertices, of which `in_tree` has
    /// a flag for each edge, by a list of weights. It takes no memory and can't be refused.
    pub fn grow(&mut self, mesh: &HalfMesh, in_tree: &[bool], weight: &[u64])
        requires made { AreCotreeTables mesh.now self.old }
        requires marks { length in_tree.now ≡ edge_count mesh.now }
        requires weights { length weight.now ≡ edge_count mesh.now }
        requires tree { MarkTree mesh.now in_tree.now }
        ensures grown { IsGrown mesh.now in_tree.now (at weight.now) self.new }
    {
        weights_fit(weight);
        self.grow_by(mesh, in_tree, &Listed { weights: weight });
    }

    /// Grows that tree by weights that are asked for where edges are met: of the faces that don't
    /// hang on the others by one edge. It takes no memory and can't be refused.
    pub fn grow_by<W: Weights>(&mut self, mesh: &HalfMesh, in_tree: &[bool], weight: &W)
        requires made { AreCotreeTables mesh.now self.old }
        requires marks { length in_tree.now ≡ edge_count mesh.now }
        requires weights { W.count weight.now ≡ edge_count mesh.now }
        requires tree { MarkTree mesh.now in_tree.now }
        ensures grown { IsGrown mesh.now in_tree.now (W.weight weight.now) self.new }
    {
        mesh.law_of_surface();
        self.held.copy_from_slice(in_tree);
        let count = list_peeled(mesh, &mut self.held, &mut self.parent, &mut self.leaves);
        let network = FaceNetwork {
            mesh,
            marks: &self.held,
        };
        span(
            &network,
            weight,
            &mut self.heap,
            &mut self.depth,
            &mut self.parent,
            &mut self.up,
        );
        hang(
            mesh,
            &self.leaves,
            count,
            &mut self.depth,
            &mut self.parent,
            &mut self.up,
        );
        mark_edges(&self.up, &mut self.held);
        list_left(in_tree, &self.held, &mut self.left);
    }

    /// Whether the tree has an edge.
    pub fn holds(&self, e: EdgeId) -> bool
        requires edge { e < length self.now.held }
        ensures held { result ≡ slice_index_or self.now.held e false }
    {
        self.held[e.index()]
    }

    /// Whether the tree has each edge.
    pub fn held(&self) -> &[bool]
        ensures held { result.now ≡ self.now.held }
    {
        &self.held
    }

    /// Whether the tree has each edge, in the desk's own table. The memory of all else is free from
    /// here on.
    pub fn into_held(self) -> Vec<bool>
        ensures held { result.items ≡ self.held }
    {
        self.held
    }

    /// The edges in neither tree, increasing.
    pub fn left(&self) -> &[EdgeId]
        ensures left { result.now ≡ self.now.left }
    {
        &self.left
    }

    /// The edge from a face towards face 0. None exactly for face 0.
    pub fn parent_edge(&self, f: FaceId) -> Option<EdgeId>
        requires face { f < length self.now.ups }
        ensures edge { result ≡ parent_edge_of self.now f }
    {
        let up = self.up[f.index()];
        if up == NOBODY {
            None
        } else {
            Some(EdgeId::new(up))
        }
    }

    /// How many edges there are from a face to face 0.
    pub fn depth(&self, f: FaceId) -> u32
        requires face { f < length self.now.depths }
        ensures depth { result ≡ slice_index self.now.depths f }
    {
        self.depth[f.index()]
    }

    /// Gives each edge its signature, until the next `grow`. It takes no memory and can't be
    /// refused.
    pub fn sign(&mut self, mesh: &HalfMesh)
        requires grown { IsGrownOn mesh.now self.old }
        requires few { length self.old.left ≤ MAX_LOOPS }
        ensures signed { (tree : Tree) → IsSplit (cells_of mesh.now) (split_with tree self.new) →
            self.new.signatures ≡ map (edge_signature mesh.now (split_with tree self.new))
            (range_with_len 0 (edge_count mesh.now)) }
        ensures rest { self.new ≡ record self.old { signatures = self.new.signatures } }
        ensures made { AreCotreeTables mesh.now self.new }
    {
        mesh.law_of_surface();
        self.signs
            .write(mesh, &self.parent, &self.up, &self.depth, &self.left);
    }

    /// The signature of an edge, lent: the places in `left` whose loops make up that of the edge.
    pub fn signature(&self, e: EdgeId) -> Bits<'_>
        requires edge { e < length self.now.signatures }
        ensures signature { result ≡ slice_index self.now.signatures e }
    {
        self.signs.signature(e)
    }
}
