//! Faces over a number of vertices.
ghost use Rattle.std.specs.Prelude.{◌≡◌, ◌<◌, ◌+◌, ◌*◌, ◌^◌, [], ◌∷◌, ◌++◌, ℕ, All, length, take, slice_index_or, OnOk, OnErr};
ghost use Rattle.std.specs.List.{flat_map, sum_by};
ghost use Rattle.surf_surfaces.specs.Mesh.{IsFace, IsMesh};
ghost use Rattle.surf_surfaces.specs.SideNumber.{side_count, first_side};

use std::alloc::Global;
use std::marker::Model;
use surf_base::{FaceId, NoMemory, VertexId};
use surf_rows::Rows;

/// A number of vertices, and faces over them. It grows by a face at a time.
#[derive(Drop)]
pub struct Soup {
    vertices: u32,
    faces: Rows<VertexId>,
}

impl Model for Soup {
    ghost use Rattle.surf_surfaces.specs.Mesh.{Mesh};
    ghost use Rattle.surf_soup.specs.Kept.{IsSoup};

    ghost Value = { Mesh };

    ghost view = { λ s. record { vertices = s.vertices; faces = s.faces } };

    ghost invariant = { λ s. IsSoup (record { vertices = s.vertices; faces = s.faces }) };
}

/// Where the corners of a face begin among those of all faces, and where they end. Where each face
/// has three no table is read.
pub fn face_span(faces: &Rows<VertexId>, f: usize) -> (usize, usize)
    requires faces { (n : ℕ) × All (IsFace n) faces.now }
    requires few { sum_by length faces.now < 2 ^ 30 }
    requires face { f < length faces.now }
    ensures start { result.0 ≡ sum_by length (take f faces.now) }
    ensures end { result.1 ≡ sum_by length (take (f + 1) faces.now) }
{
    if faces.total() == 3 * faces.len() {
        (3 * f, 3 * f + 3)
    } else {
        faces.span(f)
    }
}

impl Soup {
    /// No faces. It takes no memory yet.
    pub fn start(alloc: Global, vertices: u32) -> Soup
        ensures { result ≡ record { vertices = vertices; faces = [] } }
    {
        Soup {
            vertices,
            faces: Rows::new(alloc),
        }
    }

    /// Adds a face at the end.
    pub fn push_face(&mut self, corners: &[VertexId]) -> Result<(), NoMemory>
        requires face { IsFace self.old.vertices corners.now }
        requires few { side_count self.old + length corners.now < 2 ^ 30 }
        ensures ok { OnOk result (self.new
            ≡ record self.old { faces = self.old.faces ++ corners.now ∷ [] }) }
        ensures err { OnErr result (self.new ≡ self.old) }
    {
        self.faces.push(corners)?;
        Ok(())
    }

    /// What every soup keeps: its faces are faces, and its counts fit their numbers. A caller whose
    /// proof rests on that calls it; it does nothing.
    pub fn law_of_soup(&self)
        ensures mesh { IsMesh self.now }
        ensures few { side_count self.now < 2 ^ 30 }
        ensures vertices { self.now.vertices < 2 ^ 32 }
        ensures faces { 3 * length self.now.faces < 2 ^ 30 }
    {
        // The use of a field makes the invariant of the type known.
        let _vertices = self.vertices;
    }

    /// How many vertices there are.
    pub fn vertices(&self) -> u32
        ensures count { result ≡ self.now.vertices }
        ensures mesh { IsMesh self.now }
    {
        self.vertices
    }

    /// How many faces there are.
    pub fn faces(&self) -> u32
        ensures count { result ≡ length self.now.faces }
        ensures few { 3 * result < 2 ^ 30 }
        ensures mesh { IsMesh self.now }
    {
        self.faces.len() as u32
    }

    /// How many sides all faces have.
    pub fn side_count(&self) -> u32
        ensures count { result ≡ side_count self.now }
        ensures few { result < 2 ^ 30 }
    {
        self.faces.total() as u32
    }

    /// The corners of a face.
    pub fn face(&self, f: FaceId) -> &[VertexId]
        requires { f < length self.now.faces }
        ensures corners { result.now ≡ slice_index_or self.now.faces f [] }
        ensures face { IsFace self.now.vertices result.now }
        ensures few { length result.now < 2 ^ 30 }
    {
        self.faces.row(f.index())
    }

    /// The number of a face's first side, and of the side behind its last one.
    pub(crate) fn span(&self, f: FaceId) -> (u32, u32)
        requires { f < length self.now.faces }
        ensures start { result.0 ≡ first_side self.now f }
        ensures end { result.1 ≡ first_side self.now (f + 1) }
        ensures few { result.1 < 2 ^ 30 }
    {
        let (start, end) = face_span(&self.faces, f.index());
        (start as u32, end as u32)
    }

    /// Its number of vertices and its faces.
    pub fn into_parts(self) -> (u32, Rows<VertexId>)
        ensures vertices { result.0 ≡ self.vertices }
        ensures faces { result.1 ≡ self.faces }
    {
        let Soup { vertices, faces } = self;
        (vertices, faces)
    }

    /// The corners of all faces.
    pub fn corners(&self) -> &[VertexId]
        ensures { result.now ≡ flat_map (λ face. face) self.now.faces }
    {
        self.faces.items()
    }
}
