//! The opened surface, with and without the round of its border.
ghost use Rattle.std.specs.Prelude.{◌≡◌, ◌<◌, ◌^◌, ℕ, List, [], length, slice_index, slice_index_or};
ghost use Rattle.std.specs.List.{flat_map};
ghost use Rattle.surf_surfaces.specs.Disc.{IsDisc};
ghost use Rattle.surf_surfaces.specs.Surface.{edge_count};
ghost use Rattle.surf_cutter.specs.Boundary.{IsBoundary};
ghost use Rattle.surf_cutter.specs.Opened.{mesh_of, AreStarts};

use crate::faces::OpenFaces;
use std::marker::Model;
use surf_base::{CopyId, FaceId, SideId, VertexId};

/// A surface cut open: its faces with copies of its vertices for corners. They are a disc.
#[derive(Drop)]
pub struct OpenDisc {
    origins: Vec<VertexId>,
    faces: OpenFaces,
}

impl Model for OpenDisc {
    ghost use Rattle.surf_cutter.specs.Opened.{OpenMesh, IsOpenDisc};

    ghost Value = { OpenMesh };

    ghost view = { λ o. record { origins = o.origins.items; faces = o.faces } };

    ghost invariant = { λ o. IsOpenDisc (record { origins = o.origins.items; faces = o.faces }) };
}

impl OpenDisc {
    // The disc of some faces over copies.
    pub(crate) fn from_parts(origins: Vec<VertexId>, faces: OpenFaces) -> OpenDisc
        requires disc { IsDisc (record { vertices = length origins.items; faces = faces }) }
        requires few_copies { length origins.items < 2 ^ 30 }
        requires few_faces { length faces < 2 ^ 30 }
        ensures { result ≡ record { origins = origins.items; faces = faces } }
    {
        OpenDisc { origins, faces }
    }

    // How many copies there are.
    pub(crate) fn copies(&self) -> u32
        ensures { result ≡ length self.now.origins }
    {
        self.origins.len() as u32
    }

    // Its faces.
    fn faces(&self) -> &OpenFaces
        ensures { result.now ≡ self.now.faces }
    {
        &self.faces
    }

    /// The vertices that the copies are of, one entry a copy.
    pub fn origins(&self) -> &[VertexId]
        ensures origins { result.now ≡ self.now.origins }
        ensures disc { IsDisc (mesh_of self.now) }
    {
        &self.origins
    }

    /// The corners of all faces as copies, face after face.
    pub fn corners(&self) -> &[CopyId]
        ensures { result.now ≡ flat_map (λ row. row) self.now.faces }
    {
        self.faces.corners()
    }

    /// Where each face begins among the corners of all faces, and the end.
    pub fn starts(&self) -> &[u32]
        ensures { AreStarts self.now.faces result.now }
    {
        self.faces.starts()
    }

    /// How many faces there are.
    pub fn face_count(&self) -> u32
        ensures { result ≡ length self.now.faces }
    {
        self.faces.len() as u32
    }

    /// How many edges the opened surface has.
    pub fn edges(&self) -> u32
        ensures { result ≡ edge_count (mesh_of self.now) }
    {
        let copies = self.origins.len() as u32;
        let faces = self.faces.len() as u32;
        copies + faces - 1
    }
}

/// A surface cut open, with its border in one round.
#[derive(Drop)]
pub struct Opened {
    disc: OpenDisc,
    boundary: Vec<SideId>,
}

impl Model for Opened {
    ghost use Rattle.surf_cutter.specs.Boundary.{IsBoundary};
    ghost use Rattle.surf_cutter.specs.Opened.{OpenMesh, mesh_of};

    ghost Value = { OpenMesh };

    ghost view = { λ o. o.disc };

    ghost invariant = { λ o. IsBoundary (mesh_of o.disc) o.boundary.items };
}

impl Opened {
    // A disc with its border.
    pub(crate) fn from_parts(disc: OpenDisc, boundary: Vec<SideId>) -> Opened
        requires boundary { IsBoundary (mesh_of disc) boundary.items }
        ensures { result ≡ disc }
    {
        Opened { disc, boundary }
    }

    /// The vertex of the surface that a copy is of.
    pub fn origin(&self, copy: CopyId) -> VertexId
        requires { copy < length self.now.origins }
        ensures { result ≡ slice_index self.now.origins copy }
    {
        self.origins()[copy.index()]
    }

    /// The vertices that the copies are of, one entry a copy.
    pub fn origins(&self) -> &[VertexId]
        ensures origins { result.now ≡ self.now.origins }
        ensures disc { IsDisc (mesh_of self.now) }
    {
        self.disc.origins()
    }

    /// The corners of all faces as copies, face after face.
    pub fn corners(&self) -> &[CopyId]
        ensures { result.now ≡ flat_map (λ row. row) self.now.faces }
    {
        self.disc.corners()
    }

    /// Where each face begins among the corners of all faces, and the end.
    pub fn starts(&self) -> &[u32]
        ensures { AreStarts self.now.faces result.now }
    {
        self.disc.starts()
    }

    /// The corners of a face as copies.
    pub fn face(&self, f: FaceId) -> &[CopyId]
        requires { f < length self.now.faces }
        ensures { result.now ≡ slice_index_or self.now.faces f [] }
    {
        self.disc.faces().row(f.index())
    }

    /// How many edges the opened surface has.
    pub fn edges(&self) -> u32
        ensures { result ≡ edge_count (mesh_of self.now) }
    {
        self.disc.edges()
    }

    /// The border sides, in one round along the border. Sides are numbered in the order of faces
    /// and corners. The first is the least border side. The second is the other border side at the
    /// first side's second corner in listed order. Each further one is the other border side at the
    /// copy that the last side has and the side before it doesn't have.
    pub fn boundary(&self) -> &[SideId]
        ensures round { IsBoundary (mesh_of self.now) result.now }
        ensures only { (list : List ℕ) → IsBoundary (mesh_of self.now) list → list ≡ result.now }
    {
        &self.boundary
    }
}
