//! Edges of a mesh by their ends, and flags by number.
ghost use Rattle.std.specs.Prelude.{◌≡◌, ◌<◌, ◌+◌, ◌==◌, ℕ, Contains, length, slice_index_or, false};
ghost use Rattle.surf_z2.specs.Parity.{xor};
ghost use Rattle.surf_surfaces.specs.Mesh.{steps, pair_of, edges};
ghost use Rattle.surf_surfaces.specs.Surface.{edge_count, face_count, ends, faces_of};
ghost use Rattle.surf_surfaces.specs.Walk.{IsClosed, edge_number};

use surf_base::{EdgeId, FaceId, VertexId};
use surf_mesh::HalfMesh;

/// The edge of a step of a closed walk.
pub(crate) fn step_edge(mesh: &HalfMesh, walk: &[VertexId], i: usize) -> EdgeId
    requires closed { IsClosed mesh.now walk.now }
    requires step { i + 1 < length walk.now }
    ensures edge { result ≡ edge_number mesh.now (slice_index_or (steps walk.now) i (0, 0)) }
    ensures inside { result < edge_count mesh.now }
    ensures ends { ends mesh.now result ≡ pair_of (slice_index_or (steps walk.now) i (0, 0)) }
{
    match mesh.find_edge(walk[i], walk[i + 1]) {
        Some(edge) => edge,
        None => unreachable!(),
    }
}

/// The edge of a pair, which has its lesser vertex first.
pub(crate) fn pair_edge(mesh: &HalfMesh, pair: (VertexId, VertexId)) -> EdgeId
    requires edge { Contains (edges mesh.now) pair }
    requires ordered { pair.0 < pair.1 }
    ensures edge { result ≡ edge_number mesh.now pair }
    ensures inside { result < edge_count mesh.now }
    ensures ends { ends mesh.now result ≡ pair }
{
    match mesh.find_edge(pair.0, pair.1) {
        Some(edge) => edge,
        None => unreachable!(),
    }
}

/// The two faces of an edge, the lesser first.
pub(crate) fn faces_beside(mesh: &HalfMesh, edge: EdgeId) -> (FaceId, FaceId)
    requires edge { edge < edge_count mesh.now }
    ensures faces { result ≡ faces_of mesh.now edge }
    ensures inside { (result.0 < face_count mesh.now) × (result.1 < face_count mesh.now) }
{
    mesh.law_of_surface();
    mesh.faces_of(edge)
}

/// Turns a flag.
pub(crate) fn turn(flags: &mut [bool], place: usize)
    requires place { place < length flags.old }
    ensures turned { (k : ℕ) → slice_index_or flags.new k false
        ≡ xor (slice_index_or flags.old k false) (k == place) }
{
    flags[place] = !flags[place];
}
