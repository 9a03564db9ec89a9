//! The faces of an opened surface.
ghost use Rattle.std.specs.Prelude.{◌≡◌, ◌<◌, ◌+◌, [], length, take, IfOk, slice_index_or};
ghost use Rattle.std.specs.List.{flat_map};
ghost use Rattle.surf_surfaces.specs.Surface.{face_count};
ghost use Rattle.surf_surfaces.specs.SideNumber.{side_count};
ghost use Rattle.surf_cutter.specs.Faces.{AreRowsOf, AreStartsTo};
ghost use Rattle.surf_cutter.specs.Opened.{AreStarts};

use std::alloc::Global;
use std::marker::Model;
use surf_base::{CopyId, FaceId, NoMemory};
use surf_mesh::HalfMesh;
use surf_rows::part;

/// Faces over copies: the corners of all faces, face after face, and where each begins.
#[derive(Drop)]
pub(crate) struct OpenFaces {
    corners: Vec<CopyId>,
    starts: Vec<u32>,
}

impl Model for OpenFaces {
    ghost use Rattle.std.specs.Prelude.{ℕ, List, length};
    ghost use Rattle.surf_cutter.specs.Faces.{rows_from, AreBounds};

    ghost Value = { List (List ℕ) };

    ghost view = { λ f. rows_from f.starts.items f.corners.items };

    ghost invariant = { λ f. AreBounds f.starts.items (length f.corners.items) };
}

// Where the faces of a surface begin among all sides, and the end.
fn starts_of(alloc: Global, mesh: &HalfMesh) -> Result<Vec<u32>, NoMemory>
    ensures { IfOk result (λ starts. AreStartsTo mesh.now (face_count mesh.now) starts.items) }
{
    mesh.law_of_surface();
    let count = mesh.faces();
    let mut starts = Vec::with_capacity(alloc, count as usize + 1)?;
    let mut end = 0;
    starts.push(end)?;
    for f in 0..count {
        end += mesh.face(FaceId::new(f)).len() as u32;
        starts.push(end)?;
    }
    Ok(starts)
}

impl OpenFaces {
    /// The faces of a surface with a copy for each corner, in the order of the sides.
    pub(crate) fn of_corners(
        alloc: Global,
        mesh: &HalfMesh,
        corners: Vec<CopyId>,
    ) -> Result<OpenFaces, NoMemory>
        requires { length corners.items ≡ side_count mesh.now }
        ensures rows { IfOk result (λ faces. AreRowsOf mesh.now corners.items faces) }
    {
        let starts = starts_of(alloc, mesh)?;
        Ok(OpenFaces { corners, starts })
    }

    /// How many faces there are.
    pub(crate) fn len(&self) -> usize
        ensures { result ≡ length self.now }
    {
        self.starts.len() - 1
    }

    /// The corners of a face.
    pub(crate) fn row(&self, f: usize) -> &[CopyId]
        requires { f < length self.now }
        ensures { result.now ≡ slice_index_or self.now f [] }
    {
        let start = self.starts[f] as usize;
        let end = self.starts[f + 1] as usize;
        part(&self.corners, start, end)
    }

    /// The corners of all faces, face after face.
    pub(crate) fn corners(&self) -> &[CopyId]
        ensures { result.now ≡ flat_map (λ row. row) self.now }
    {
        &self.corners
    }

    /// Where each face begins among the corners of all faces, and the end.
    pub(crate) fn starts(&self) -> &[u32]
        ensures { AreStarts self.now result.now }
    {
        &self.starts
    }
}
