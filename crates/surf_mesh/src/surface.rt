//! Surfaces with their sides in pairs.
ghost use Rattle.std.specs.Prelude.{◌≡◌, ◌<◌, ◌≤◌, ◌+◌, ◌^◌, length, AllPairs, MatchOption};
ghost use Rattle.std.specs.Prelude.{slice_index_or, false, true};
ghost use Rattle.surf_surfaces.specs.Mesh.{IsFace, pair, pair_lt, among, edges};
ghost use Rattle.surf_surfaces.specs.Surface.{face_count, face_at, edge_count, ends, faces_of, IsSurface};
ghost use Rattle.surf_surfaces.specs.SideNumber.{side_count, first_side, IsFaceOf, IsEdgeOf};
ghost use Rattle.surf_surfaces.specs.SideNumber.{IsMate};
ghost use Rattle.surf_soup.specs.Pairing.{IsPairingOf};
ghost use Rattle.surf_soup.specs.Ring.{BeginsAt};

use std::marker::Model;
use surf_base::{EdgeId, FaceId, SideId, VertexId};
use surf_rows::Rows;
use surf_soup::{Pairing, Soup, face_span};

/// A surface, with the two sides of each edge joined. It has no rings.
#[derive(Drop)]
pub struct Surface {
    vertices: u32,
    faces: Rows<VertexId>,
    pairing: Pairing,
}

impl Model for Surface {
    ghost use Rattle.surf_surfaces.specs.Mesh.{Mesh};
    ghost use Rattle.surf_mesh.specs.Kept.{IsKeptSurface};

    ghost Value = { Mesh };

    ghost view = { λ h. record { vertices = h.vertices; faces = h.faces } };

    ghost invariant = { λ h. IsKeptSurface (record { vertices = h.vertices; faces = h.faces })
        h.pairing.edges.items h.pairing.first.items h.pairing.mate.items h.pairing.edge_of.items
        h.pairing.face_of };
}

// The lesser vertex first.
fn ordered(u: VertexId, v: VertexId) -> (VertexId, VertexId)
    ensures { result ≡ pair u v }
{
    if u < v { (u, v) } else { (v, u) }
}

// Whether the first pair is before the second.
fn is_before(u: VertexId, v: VertexId, low: VertexId, high: VertexId) -> bool
    ensures { result ≡ pair_lt (u, v) (low, high) }
{
    u < low || (u == low && v < high)
}

// The place of a pair in a list of pairs in order.
fn find_pair(edges: &[(VertexId, VertexId)], low: VertexId, high: VertexId) -> Option<usize>
    requires { AllPairs (λ p q. pair_lt p q ≡ true) edges.now }
    ensures { MatchOption result (among (low, high) edges.now ≡ false) (λ e. (e < length edges.now)
        × (slice_index_or edges.now e (0, 0) ≡ (low, high))) }
{
    let mut from = 0;
    let mut to = edges.len();
    while from < to {
        let middle = from + (to - from) / 2;
        let (u, v) = edges[middle];
        if is_before(u, v, low, high) {
            from = middle + 1;
        } else if is_before(low, high, u, v) {
            to = middle;
        } else {
            return Some(middle);
        }
    }
    None
}

impl Surface {
    /// The surface with the faces of a soup that is one, by its sides in pairs. It takes no memory.
    pub fn from_parts(soup: Soup, pairing: Pairing) -> Surface
        requires surface { IsSurface soup }
        requires pairing { IsPairingOf soup pairing }
        ensures { result ≡ soup }
    {
        soup.law_of_soup();
        let (vertices, faces) = soup.into_parts();
        Surface {
            vertices,
            faces,
            pairing,
        }
    }

    /// What every surface of this type keeps: it is a surface, and its counts fit their numbers. A
    /// caller whose proof rests on that calls it; it does nothing.
    pub fn law_of_surface(&self)
        ensures surface { IsSurface self.now }
        ensures few { side_count self.now < 2 ^ 30 }
        ensures vertices { self.now.vertices < 2 ^ 32 }
        ensures faces { face_count self.now < 2 ^ 30 }
        ensures edges { edge_count self.now < 2 ^ 30 }
    {
        // The use of a field makes the invariant of the type known.
        let _vertices = self.vertices;
    }

    /// How many vertices there are.
    pub fn vertices(&self) -> u32
        ensures count { result ≡ self.now.vertices }
        ensures surface { IsSurface self.now }
        ensures few { side_count self.now < 2 ^ 30 }
    {
        self.vertices
    }

    /// How many faces there are.
    pub fn faces(&self) -> u32
        ensures count { result ≡ face_count self.now }
        ensures surface { IsSurface self.now }
        ensures few { side_count self.now < 2 ^ 30 }
    {
        self.faces.len() as u32
    }

    /// How many edges there are.
    pub fn edges(&self) -> u32
        ensures count { result ≡ edge_count self.now }
        ensures surface { IsSurface self.now }
        ensures few { side_count self.now < 2 ^ 30 }
    {
        self.pairing.edges.len() as u32
    }

    /// How many sides all faces have, two for each edge.
    pub fn side_count(&self) -> u32
        ensures count { result ≡ side_count self.now }
        ensures surface { IsSurface self.now }
        ensures few { side_count self.now < 2 ^ 30 }
    {
        self.pairing.mate.len() as u32
    }

    /// The corners of a face.
    pub fn face(&self, f: FaceId) -> &[VertexId]
        requires { f < face_count self.now }
        ensures corners { result.now ≡ face_at self.now f }
        ensures face { IsFace self.now.vertices result.now }
    {
        self.faces.row(f.index())
    }

    /// The other side of its edge.
    pub fn mate(&self, s: SideId) -> SideId
        requires { s < side_count self.now }
        ensures { IsMate self.now s result }
    {
        self.pairing.mate[s.index()]
    }

    /// The vertex at which a side begins.
    pub fn tail(&self, s: SideId) -> VertexId
        requires { s < side_count self.now }
        ensures { BeginsAt self.now result s }
    {
        self.faces.items()[s.index()]
    }

    /// The face of a side.
    pub fn face_of(&self, s: SideId) -> FaceId
        requires { s < side_count self.now }
        ensures { IsFaceOf self.now s result }
    {
        self.pairing.face_of.at(s)
    }

    /// The edge of a side.
    pub fn edge_of(&self, s: SideId) -> EdgeId
        requires { s < side_count self.now }
        ensures { IsEdgeOf self.now s result }
    {
        self.pairing.edge_of[s.index()]
    }

    /// The ends of an edge, the lesser first.
    pub fn ends(&self, e: EdgeId) -> (VertexId, VertexId)
        requires { e < edge_count self.now }
        ensures { result ≡ ends self.now e }
    {
        self.pairing.edges[e.index()]
    }

    /// The faces of an edge, the lesser first.
    pub fn faces_of(&self, e: EdgeId) -> (FaceId, FaceId)
        requires { e < edge_count self.now }
        ensures { result ≡ faces_of self.now e }
    {
        let side = self.pairing.first[e.index()];
        let other = self.pairing.mate[side.index()];
        (
            self.pairing.face_of.at(side),
            self.pairing.face_of.at(other),
        )
    }

    /// The edge between two vertices; none exactly where the pair is no edge.
    pub fn find_edge(&self, u: VertexId, v: VertexId) -> Option<EdgeId>
        ensures { MatchOption result (among (pair u v) (edges self.now) ≡ false)
            (λ e. (e < edge_count self.now) × (ends self.now e ≡ pair u v)) }
    {
        let (low, high) = ordered(u, v);
        let found = find_pair(&self.pairing.edges, low, high);
        match found {
            None => None,
            Some(e) => Some(EdgeId::new(e as u32)),
        }
    }

    /// The numbers of the sides of a face: from the first one on, as many as it has corners. No
    /// table of them is read.
    pub fn side_span(&self, f: FaceId) -> (u32, u32)
        requires { f < face_count self.now }
        ensures start { result.0 ≡ first_side self.now f }
        ensures end { result.1 ≡ first_side self.now f + length (face_at self.now f) }
        ensures inside { result.1 ≤ side_count self.now }
    {
        let (start, end) = face_span(&self.faces, f.index());
        (start as u32, end as u32)
    }
}
