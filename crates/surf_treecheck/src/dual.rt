//! Whether rows are a tree of the faces.
ghost use Rattle.std.specs.Prelude.{◌≡◌, ◌<◌, ◌==◌, if◌then◌else◌, true};
ghost use Rattle.std.specs.Prelude.{MatchOption};
ghost use Rattle.surf_surfaces.specs.Mesh.{pair};
ghost use Rattle.surf_surfaces.specs.Surface.{edge_count, face_count, face_at, faces_of, has_side};
ghost use Rattle.surf_surfaces.specs.Surface.{borders};
ghost use Rattle.surf_surfaces.specs.Walk.{edge_number};
ghost use Rattle.surf_validity.specs.Valid.{IsDualRow, HasDualRows};
ghost use Rattle.surf_treecheck.specs.First.{FindsFirst, Tells};
ghost use Rattle.surf_treecheck.specs.Rows.{HasDual};

use crate::edges::{edge_near, faces_inside};
use surf_base::{EdgeId, FaceId, VertexId};
use surf_mesh::HalfMesh;
use surf_records::DualRows;

// Whether a face is one of the two of an edge.
fn is_beside(mesh: &HalfMesh, f: FaceId, e: EdgeId) -> bool
    requires edge { e < edge_count mesh.now }
    ensures beside { result ≡ borders mesh.now f e }
{
    let (near, far) = mesh.faces_of(e);
    f == near || f == far
}

// The edge of a face between two vertices.
pub(crate) fn edge_of_face(mesh: &HalfMesh, f: FaceId, u: VertexId, v: VertexId) -> Option<EdgeId>
    requires face { f < face_count mesh.now }
    ensures edge { MatchOption result (has_side (pair u v) (face_at mesh.now f) ≡ true → ⊥)
        (λ e. (has_side (pair u v) (face_at mesh.now f) ≡ true) × (e < edge_count mesh.now)
        × (edge_number mesh.now (u, v) ≡ e)) }
{
    mesh.law_of_surface();
    match edge_near(mesh, f, u, v) {
        None => None,
        Some(e) => { if is_beside(mesh, f, e) { Some(e) } else { None } }
    }
}

// The face on the other side of an edge of a face.
pub(crate) fn face_across(mesh: &HalfMesh, f: FaceId, e: EdgeId) -> FaceId
    requires edge { e < edge_count mesh.now }
    ensures across { result ≡ (if f == (faces_of mesh.now e).0 then (faces_of mesh.now e).1
        else (faces_of mesh.now e).0) }
    ensures inside { result < face_count mesh.now }
{
    let (near, far) = faces_inside(mesh, e);
    if f == near { far } else { near }
}

// Whether a face has a side of its own over which it lies one deeper, or is face 0 and has none.
fn has_dual(mesh: &HalfMesh, dual: &DualRows, f: FaceId, side: Option<(VertexId, VertexId)>) -> bool
    requires rows { HasDualRows mesh.now dual.now }
    requires face { f < face_count mesh.now }
    ensures row { Tells result (IsDualRow mesh.now dual.now f side) }
{
    let depth = dual.depth();
    match side {
        None => f.index() == 0 && depth[f.index()] == 0,
        Some((u, v)) => match edge_of_face(mesh, f, u, v) {
            None => false,
            Some(e) => {
                let above = u64::from(depth[face_across(mesh, f, e).index()]);
                f.index() != 0 && u64::from(depth[f.index()]) == above + 1
            }
        },
    }
}

/// The least face whose row isn't one of a tree of the faces.
pub fn first_dual(mesh: &HalfMesh, dual: &DualRows) -> Option<FaceId>
    requires rows { HasDualRows mesh.now dual.now }
    ensures first { FindsFirst (face_count mesh.now) (HasDual mesh.now dual.now) result }
{
    for f in 0..mesh.faces() {
        let face = FaceId::new(f);
        if !has_dual(mesh, dual, face, dual.side()[face.index()]) {
            return Some(face);
        }
    }
    None
}
