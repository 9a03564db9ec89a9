//! A mesh with flags of its edges and sides of its faces.
ghost use Rattle.std.specs.Prelude.{◌≡◌, length};
ghost use Rattle.surf_surfaces.specs.Surface.{edge_count, face_count};

use surf_mesh::HalfMesh;

/// A mesh, and a flag for each of its edges.
#[derive(Drop)]
pub(crate) struct FlaggedMesh<'a> {
    pub mesh: &'a HalfMesh,
    pub flags: &'a [bool],
    pub ghost count: { length flags.now ≡ edge_count mesh.now },
}

/// Such a mesh, and for each of its faces on which side it is, where that is known.
#[derive(Drop)]
pub(crate) struct PartedMesh<'a> {
    pub mesh: &'a HalfMesh,
    pub flags: &'a [bool],
    pub sides: &'a [Option<bool>],
    pub ghost count: { length flags.now ≡ edge_count mesh.now },
    pub ghost known: { length sides.now ≡ face_count mesh.now },
}
