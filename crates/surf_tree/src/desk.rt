//! The tables of one tree.
ghost use Rattle.std.specs.Prelude.{◌≡◌, ◌<◌, length, slice_index, IfOk};
ghost use Rattle.surf_graphs.specs.Cells.{primal};
ghost use Rattle.surf_surfaces.specs.Surface.{edge_count};
ghost use Rattle.surf_surfaces.specs.Walk.{edge_length};
ghost use Rattle.surf_surfaces.specs.Cells.{cells_of};
ghost use Rattle.surf_base.specs.Tables.{at};
ghost use Rattle.surf_tree.specs.Searches.{IsSearchable, IsSettled};
ghost use Rattle.surf_tree.specs.Tables.{TreeTables, AreTreeTables, parent_of, parent_edge_of};
ghost use Rattle.surf_tree.specs.Grown.{IsGrown};

use crate::even::{even_length, greatest_length, settle_even};
use crate::network::MeshNetwork;
use crate::parents::{mark_edges, set_parents};
use crate::search::settle;
use crate::short::settle_short;
use std::alloc::Global;
use std::marker::Model;
use surf_base::{EdgeId, NOBODY, NoMemory, VertexId};
use surf_buckets::{BUCKETS, LentBuckets};
use surf_heap::Heap;
use surf_lengths::Lengths;
use surf_mesh::HalfMesh;

/// The tree of shortest walks from a base: for each vertex its distance, its parent and the edge
/// to it, and for each edge whether the tree has it.
#[derive(Drop)]
pub struct TreeDesk {
    heap: Heap,
    buckets: LentBuckets,
    distance: Vec<u64>,
    parent: Vec<u32>,
    up: Vec<u32>,
    flags: Vec<bool>,
    base: VertexId,
}

impl Model for TreeDesk {
    ghost use Rattle.std.specs.Prelude.{◌≡◌, length};
    ghost use Rattle.surf_tree.specs.Tables.{TreeTables};

    ghost Value = { TreeTables };

    ghost view = { λ d. record {
      base = d.base;
      distances = d.distance.items;
      parents = d.parent.items;
      ups = d.up.items;
      flags = d.flags.items;
    } };

    ghost invariant = { λ d. (length d.heap ≡ length d.distance.items)
        × (d.buckets.places ≡ length d.distance.items) };
}

// Settles all vertices: by a list where all edges have one length, by buckets where no edge is as
// long as there are buckets, and else by the heap.
fn settle_vertices(
    network: &MeshNetwork<'_>,
    distance: &mut [u64],
    heap: &mut Heap,
    buckets: &mut LentBuckets,
    order: &mut [u32],
    base: u32,
)
    requires searchable { IsSearchable (primal (cells_of network.now.mesh.now))
        (edge_length network.now.lengths.now) }
    requires lengths { length network.now.lengths.now ≡ edge_count network.now.mesh.now }
    requires base { base < network.now.mesh.now.vertices }
    requires distances { length distance.old ≡ network.now.mesh.now.vertices }
    requires places { length heap.old ≡ network.now.mesh.now.vertices }
    requires room { buckets.old.places ≡ network.now.mesh.now.vertices }
    requires order { length order.old ≡ network.now.mesh.now.vertices }
    ensures settled { IsSettled (primal (cells_of network.now.mesh.now))
        (edge_length network.now.lengths.now) base (at distance.new) }
    ensures places { length heap.new ≡ network.now.mesh.now.vertices }
    ensures room { buckets.new.places ≡ network.now.mesh.now.vertices }
{
    if let Some(size) = even_length(network.lengths) {
        settle_even(network, distance, order, base, size);
    } else if greatest_length(network.lengths) < BUCKETS {
        settle_short(network, distance, buckets, base);
    } else {
        settle(network, distance, heap, base);
    }
}

impl TreeDesk {
    /// A desk for the trees of a mesh, and of every mesh with as many vertices and edges. No
    /// later call takes memory.
    pub fn make(alloc: Global, mesh: &HalfMesh) -> Result<TreeDesk, NoMemory>
        ensures made { IfOk result (λ desk. AreTreeTables mesh.now desk) }
    {
        mesh.law_of_surface();
        let vertices = mesh.vertices() as usize;
        let distance = vec![in alloc; 0u64; vertices]?;
        let parent = vec![in alloc; 0u32; vertices]?;
        let up = vec![in alloc; 0u32; vertices]?;
        let flags = vec![in alloc; false; mesh.edges() as usize]?;
        let heap = Heap::make(alloc, mesh.vertices())?;
        let buckets = LentBuckets::make(alloc, mesh.vertices())?;
        let base = VertexId::new(0);
        Ok(TreeDesk {
            heap,
            buckets,
            distance,
            parent,
            up,
            flags,
            base,
        })
    }

    /// Grows the tree of shortest walks from a base. It takes no memory and can't be refused.
    pub fn grow(&mut self, mesh: &HalfMesh, lengths: &Lengths, base: VertexId)
        requires made { AreTreeTables mesh.now self.old }
        requires base { base < mesh.now.vertices }
        requires lengths { length lengths.now ≡ edge_count mesh.now }
        ensures grown { IsGrown mesh.now lengths.now base self.new }
    {
        mesh.law_of_surface();
        lengths.law_of_lengths();
        let network = MeshNetwork { mesh, lengths };
        // (the parents are written afterwards, so until then their table is the queue in which
        // vertices are settled where all lengths are equal)
        settle_vertices(
            &network,
            &mut self.distance,
            &mut self.heap,
            &mut self.buckets,
            &mut self.parent,
            base.number(),
        );
        set_parents(&network, &self.distance, &mut self.parent, &mut self.up);
        mark_edges(&self.parent, &self.up, &mut self.flags);
        self.base = base;
    }

    /// The base.
    pub fn base(&self) -> VertexId
        ensures base { result ≡ self.now.base }
    {
        self.base
    }

    /// The least length of a walk from the base to a vertex.
    pub fn distance(&self, v: VertexId) -> u64
        requires vertex { v < length self.now.distances }
        ensures distance { result ≡ slice_index self.now.distances v }
    {
        self.distance[v.index()]
    }

    /// The least neighbour from which an edge leads to the distance of a vertex. None exactly at
    /// the base.
    pub fn parent(&self, v: VertexId) -> Option<VertexId>
        requires vertex { v < length self.now.parents }
        ensures parent { result ≡ parent_of self.now v }
    {
        let u = self.parent[v.index()];
        if u == NOBODY {
            None
        } else {
            Some(VertexId::new(u))
        }
    }

    /// The edge to the parent of a vertex. None exactly at the base.
    pub fn parent_edge(&self, v: VertexId) -> Option<EdgeId>
        requires vertex { v < length self.now.parents }
        requires edge { v < length self.now.ups }
        ensures edge { result ≡ parent_edge_of self.now v }
    {
        if self.parent[v.index()] == NOBODY {
            return None;
        }
        Some(EdgeId::new(self.up[v.index()]))
    }

    /// For each edge whether the tree has it.
    pub fn tree_edges(&self) -> &[bool]
        ensures flags { result.now ≡ self.now.flags }
    {
        &self.flags
    }
}
