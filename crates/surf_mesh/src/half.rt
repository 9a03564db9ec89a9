//! Surfaces with their half-edges.
ghost use Rattle.std.specs.Prelude.{◌≡◌, ◌<◌, ◌≤◌, ◌+◌, ◌^◌, ℕ, List, length, IfOk, MatchOption};
ghost use Rattle.std.specs.Prelude.{false};
ghost use Rattle.std.specs.List.{range_with_len};
ghost use Rattle.surf_surfaces.specs.Mesh.{IsFace, pair, among, edges};
ghost use Rattle.surf_surfaces.specs.Surface.{face_count, face_at, edge_count, ends, faces_of, IsSurface};
ghost use Rattle.surf_surfaces.specs.SideNumber.{side_count, first_side, IsFaceOf, IsEdgeOf};
ghost use Rattle.surf_surfaces.specs.SideNumber.{IsMate};
ghost use Rattle.surf_soup.specs.Pairing.{IsPairingOf};
ghost use Rattle.surf_soup.specs.Ring.{BeginsAt, IsRing, AreEdgesAt, GoBetween, AreAllRings};

use crate::Surface;
use std::alloc::Global;
use std::marker::Model;
use surf_base::{EdgeId, FaceId, NoMemory, SideId, VertexId};
use surf_rows::{PairedRows, part};
use surf_soup::{Pairing, Rings, Soup, find_rings, first_sides, numbers, pair_sides};

/// A surface, with the two sides of each edge joined, the ring of each vertex and the edges that go
/// with it.
#[derive(Drop)]
pub struct HalfMesh {
    surface: Surface,
    rings: PairedRows<SideId, EdgeId>,
    numbers: Vec<SideId>,
}

impl Model for HalfMesh {
    ghost use Rattle.surf_surfaces.specs.Mesh.{Mesh};
    ghost use Rattle.surf_mesh.specs.Kept.{IsHalfMesh};

    ghost Value = { Mesh };

    ghost view = { λ h. h.surface };

    ghost invariant = { λ h. IsHalfMesh h.surface h.rings.0 h.rings.1 h.numbers.items };
}

impl HalfMesh {
    /// The mesh with the faces of a soup that is a surface.
    pub fn build(alloc: Global, soup: Soup) -> Result<HalfMesh, NoMemory>
        requires { IsSurface soup }
        ensures { IfOk result (λ h. h ≡ soup) }
    {
        match pair_sides(alloc, &soup)? {
            Some(pairing) => HalfMesh::from_pairing(alloc, soup, pairing),
            None => unreachable!(),
        }
    }

    // The mesh of a surface whose sides are paired already.
    fn from_pairing(alloc: Global, soup: Soup, pairing: Pairing) -> Result<HalfMesh, NoMemory>
        requires surface { IsSurface soup }
        requires pairing { IsPairingOf soup pairing }
        ensures { IfOk result (λ h. h ≡ soup) }
    {
        let first = first_sides(alloc, &soup)?;
        match find_rings(alloc, &soup, &pairing, &first)? {
            Rings::All(rings) => {
                let surface = Surface::from_parts(soup, pairing);
                HalfMesh::with_rings(alloc, surface, rings)
            }
            Rings::Pinched { .. } => unreachable!(),
        }
    }

    /// The mesh of a surface, by the ring of each vertex and the edges that go with it.
    pub fn with_rings(
        alloc: Global,
        surface: Surface,
        rings: PairedRows<SideId, EdgeId>,
    ) -> Result<HalfMesh, NoMemory>
        requires rings { AreAllRings surface surface.vertices rings.0 rings.1 }
        ensures { IfOk result (λ h. h ≡ surface) }
    {
        let numbers = numbers(alloc, surface.side_count())?;
        Ok(HalfMesh {
            surface,
            rings,
            numbers,
        })
    }

    /// The surface, without its rings.
    pub fn surface(&self) -> &Surface
        ensures { result.now ≡ self.now }
    {
        &self.surface
    }

    /// What every mesh of this type keeps: it is a surface, and its counts fit their numbers. A
    /// caller whose proof rests on that calls it; it does nothing.
    pub fn law_of_surface(&self)
        ensures surface { IsSurface self.now }
        ensures few { side_count self.now < 2 ^ 30 }
        ensures vertices { self.now.vertices < 2 ^ 32 }
        ensures faces { face_count self.now < 2 ^ 30 }
        ensures edges { edge_count self.now < 2 ^ 30 }
    {
        self.surface.law_of_surface();
    }

    /// How many vertices there are.
    pub fn vertices(&self) -> u32
        ensures count { result ≡ self.now.vertices }
        ensures surface { IsSurface self.now }
        ensures few { side_count self.now < 2 ^ 30 }
    {
        self.surface.vertices()
    }

    /// How many faces there are.
    pub fn faces(&self) -> u32
        ensures count { result ≡ face_count self.now }
        ensures surface { IsSurface self.now }
        ensures few { side_count self.now < 2 ^ 30 }
    {
        self.surface.faces()
    }

    /// How many edges there are.
    pub fn edges(&self) -> u32
        ensures count { result ≡ edge_count self.now }
        ensures surface { IsSurface self.now }
        ensures few { side_count self.now < 2 ^ 30 }
    {
        self.surface.edges()
    }

    /// How many sides all faces have, two for each edge.
    pub fn side_count(&self) -> u32
        ensures count { result ≡ side_count self.now }
        ensures surface { IsSurface self.now }
        ensures few { side_count self.now < 2 ^ 30 }
    {
        self.surface.side_count()
    }

    /// The corners of a face.
    pub fn face(&self, f: FaceId) -> &[VertexId]
        requires { f < face_count self.now }
        ensures corners { result.now ≡ face_at self.now f }
        ensures face { IsFace self.now.vertices result.now }
    {
        self.surface.face(f)
    }

    /// The other side of its edge.
    pub fn mate(&self, s: SideId) -> SideId
        requires { s < side_count self.now }
        ensures { IsMate self.now s result }
    {
        self.surface.mate(s)
    }

    /// The vertex at which a side begins.
    pub fn tail(&self, s: SideId) -> VertexId
        requires { s < side_count self.now }
        ensures { BeginsAt self.now result s }
    {
        self.surface.tail(s)
    }

    /// The face of a side.
    pub fn face_of(&self, s: SideId) -> FaceId
        requires { s < side_count self.now }
        ensures { IsFaceOf self.now s result }
    {
        self.surface.face_of(s)
    }

    /// The edge of a side.
    pub fn edge_of(&self, s: SideId) -> EdgeId
        requires { s < side_count self.now }
        ensures { IsEdgeOf self.now s result }
    {
        self.surface.edge_of(s)
    }

    /// The ends of an edge, the lesser first.
    pub fn ends(&self, e: EdgeId) -> (VertexId, VertexId)
        requires { e < edge_count self.now }
        ensures { result ≡ ends self.now e }
    {
        self.surface.ends(e)
    }

    /// The faces of an edge, the lesser first.
    pub fn faces_of(&self, e: EdgeId) -> (FaceId, FaceId)
        requires { e < edge_count self.now }
        ensures { result ≡ faces_of self.now e }
    {
        self.surface.faces_of(e)
    }

    /// The edge between two vertices; none exactly where the pair is no edge.
    pub fn find_edge(&self, u: VertexId, v: VertexId) -> Option<EdgeId>
        ensures { MatchOption result (among (pair u v) (edges self.now) ≡ false)
            (λ e. (e < edge_count self.now) × (ends self.now e ≡ pair u v)) }
    {
        self.surface.find_edge(u, v)
    }

    /// The sides of a face, in the order of its corners.
    pub fn sides(&self, f: FaceId) -> &[SideId]
        requires { f < face_count self.now }
        ensures { result.now ≡ range_with_len (first_side self.now f)
            (length (face_at self.now f)) }
    {
        let (start, end) = self.surface.side_span(f);
        part(&self.numbers, start as usize, end as usize)
    }

    /// The numbers of the sides of a face: from the first one on, as many as it has corners. No
    /// table of them is read.
    pub fn side_span(&self, f: FaceId) -> (u32, u32)
        requires { f < face_count self.now }
        ensures start { result.0 ≡ first_side self.now f }
        ensures end { result.1 ≡ first_side self.now f + length (face_at self.now f) }
        ensures inside { result.1 ≤ side_count self.now }
    {
        self.surface.side_span(f)
    }

    /// The sides that begin at a vertex, one a face there, in the order round it from the least
    /// face on: the next one lies across the edge that stands before the corner.
    pub fn ring(&self, v: VertexId) -> &[SideId]
        requires { v < self.now.vertices }
        ensures ring { IsRing self.now v result.now }
        ensures goes_round { (edges : List ℕ) × AreEdgesAt self.now v edges
            × GoBetween self.now result.now edges }
    {
        self.rings.first(v.index())
    }

    /// The edges at a vertex, each once, in the order round it: at each place of the ring the edge
    /// that its face shares with the next one. The first stands before the corner in the ring's
    /// first face.
    pub fn ring_edges(&self, v: VertexId) -> &[EdgeId]
        requires { v < self.now.vertices }
        ensures edges { AreEdgesAt self.now v result.now }
        ensures goes_round { (ring : List ℕ) × IsRing self.now v ring
            × GoBetween self.now ring result.now }
    {
        self.rings.second(v.index())
    }

    /// The ring of a vertex and the edges that go with it.
    pub fn round(&self, v: VertexId) -> (&[SideId], &[EdgeId])
        requires { v < self.now.vertices }
        ensures ring { IsRing self.now v result.0.now }
        ensures edges { AreEdgesAt self.now v result.1.now }
        ensures between { GoBetween self.now result.0.now result.1.now }
    {
        (self.rings.first(v.index()), self.rings.second(v.index()))
    }
}
