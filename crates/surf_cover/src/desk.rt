//! The distances over the cover from one base.
ghost use Rattle.std.specs.Prelude.{◌≡◌, ◌<◌, ◌≤◌, ◌*◌, ℕ, length, slice_index, IfOk};
ghost use Rattle.surf_base.specs.declared.limits.TheConstants.{MAX_LARGE_COVER_NODES};
ghost use Rattle.surf_graphs.specs.Cells.{Split};
ghost use Rattle.surf_surfaces.specs.Surface.{edge_count};
ghost use Rattle.surf_cover.specs.Networks.{IsCertifiedBy, IsCoverable, IsReadOff};
ghost use Rattle.surf_cover.specs.Tables.{IsSmall, AreCoverTables, AreShort, distance_at};
ghost use Rattle.surf_cover.specs.Grown.{IsSigned, IsGrown, HasReached};

use crate::network::CoverNetwork;
use crate::reading::read_off;
use crate::search::{FAR, Reached, settle_within};
use crate::signs::{copy_signs, count_sets};
use std::alloc::Global;
use std::marker::Model;
use surf_base::{NoMemory, VertexId};
use surf_cotree::CotreeDesk;
use surf_heap::Heap;
use surf_lengths::Lengths;
use surf_mesh::HalfMesh;

/// For each vertex with each set of left edges the least length of a walk from a base to it with
/// that signature.
#[derive(Drop)]
pub struct CoverDesk {
    heap: Heap,
    reached: Reached,
    signs: Vec<u32>,
    vertices: u32,
    sets: u32,
}

impl Model for CoverDesk {
    ghost use Rattle.surf_cover.specs.Tables.{CoverTables};
    ghost use Rattle.surf_cover.specs.Kept.{IsKept};

    ghost Value = { CoverTables };

    ghost view = { λ d. record {
      vertices = d.vertices;
      sets = d.sets;
      signs = d.signs.items;
      distances = d.reached.distance.items;
      settled = d.reached.settled.items;
    } };

    ghost invariant = { λ d. IsKept d.heap d.reached d.vertices d.sets };
}

impl CoverDesk {
    /// A desk for the cover of a mesh with at most 16 loops, two less the characteristic, and at
    /// most 16,777,216 vertices with sets of left edges. No later call takes memory.
    pub fn make(alloc: Global, mesh: &HalfMesh) -> Result<CoverDesk, NoMemory>
        requires small { IsSmall mesh.now }
        ensures made { IfOk result (λ desk. AreCoverTables mesh.now desk) }
    {
        let vertices = mesh.vertices();
        let sets = count_sets(mesh);
        let nodes = vertices * sets;
        let heap = Heap::make(alloc, nodes)?;
        let distance = vec![in alloc; FAR; nodes as usize]?;
        let settled = Vec::with_capacity(alloc, nodes as usize)?;
        let signs = vec![in alloc; 0u32; mesh.edges() as usize]?;
        let reached = Reached { distance, settled };
        Ok(CoverDesk {
            heap,
            reached,
            signs,
            vertices,
            sets,
        })
    }

    /// Finds the distances from a base with no left edge, by the signatures of a tree of faces that
    /// was grown on the mesh and signed. It takes no memory and can't be refused.
    pub fn grow(&mut self, mesh: &HalfMesh, lengths: &Lengths, cotree: &CotreeDesk, base: VertexId)
        requires made { AreCoverTables mesh.now self.old }
        requires signed { IsSigned mesh.now cotree.now }
        requires base { base < mesh.now.vertices }
        requires lengths { length lengths.now ≡ edge_count mesh.now }
        ensures grown { IsGrown mesh.now lengths.now cotree.now base self.new }
    {
        mesh.law_of_surface();
        lengths.law_of_lengths();
        self.sign(mesh, cotree);
        self.grow_within(mesh, lengths, base, u64::MAX);
    }

    /// Copies the signatures of all edges by a tree of faces that was grown on the mesh and signed.
    pub(crate) fn sign(&mut self, mesh: &HalfMesh, cotree: &CotreeDesk)
        requires made { AreCoverTables mesh.now self.old }
        requires signed { IsSigned mesh.now cotree.now }
        ensures made { AreCoverTables mesh.now self.new }
        ensures few { mesh.now.vertices * self.new.sets ≤ MAX_LARGE_COVER_NODES }
        ensures signs { (e : ℕ) → e < edge_count mesh.now →
            slice_index self.new.signs e ≡ slice_index cotree.now.signatures e }
    {
        mesh.law_of_surface();
        copy_signs(cotree, &mut self.signs);
    }

    /// Finds the distances from a base with no left edge as far as a radius, by the signatures that
    /// were copied. It takes no memory and can't be refused.
    pub(crate) fn grow_within(
        &mut self,
        mesh: &HalfMesh,
        lengths: &Lengths,
        base: VertexId,
        radius: u64,
    )
        requires made { AreCoverTables mesh.now self.old }
        requires coverable { IsCoverable mesh.now lengths.now self.old.sets self.old.signs }
        requires base { base < mesh.now.vertices }
        ensures made { AreCoverTables mesh.now self.new }
        ensures signs { self.new.signs ≡ self.old.signs }
        ensures reached { HasReached mesh.now lengths.now base radius self.new }
    {
        lengths.law_of_lengths();
        let network = CoverNetwork {
            mesh,
            lengths,
            signs: &self.signs,
            sets: self.sets,
        };
        let from = base.number() * self.sets;
        settle_within(&network, &mut self.reached, &mut self.heap, from, radius);
    }

    /// The vertices with sets that have a distance, each as the number of the vertex times that of
    /// sets, and the set.
    pub(crate) fn settled(&self) -> &[u32]
        ensures settled { result.now ≡ self.now.settled }
    {
        &self.reached.settled
    }

    /// How many sets of left edges there are.
    pub fn sets(&self) -> u32
        ensures sets { result ≡ self.now.sets }
    {
        self.sets
    }

    /// The least length of a walk from the base to a vertex whose signature is a set.
    pub fn distance(&self, v: VertexId, set: u32) -> u64
        requires vertex { v < self.now.vertices }
        requires set { set < self.now.sets }
        ensures distance { result ≡ distance_at self.now v set }
    {
        self.reached.distance[(v.number() * self.sets + set) as usize]
    }

    /// The base, and the vertices of a shortest round with a set from there, last first, as they
    /// are read off the distances.
    pub(crate) fn round(
        &self,
        alloc: Global,
        mesh: &HalfMesh,
        lengths: &Lengths,
        base: VertexId,
        set: u32,
    ) -> Result<Vec<VertexId>, NoMemory>
        requires made { AreCoverTables mesh.now self.now }
        requires fits { AreShort self.now }
        requires certified { (d : Split)
            × IsCertifiedBy mesh.now lengths.now d self.now.sets self.now.signs
            self.now.distances base }
        requires base { base < mesh.now.vertices }
        requires set { set < self.now.sets }
        requires lengths { length lengths.now ≡ edge_count mesh.now }
        ensures read { IfOk result (λ list. IsReadOff mesh.now lengths.now self.now.sets
            self.now.signs self.now.distances base set list.items) }
    {
        mesh.law_of_surface();
        lengths.law_of_lengths();
        let network = CoverNetwork {
            mesh,
            lengths,
            signs: &self.signs,
            sets: self.sets,
        };
        let mut list = Vec::new(alloc);
        read_off(&network, &self.reached.distance, base, set, &mut list)?;
        Ok(list)
    }
}
