//! The tree of faces that a certificate says, as tables of edges and faces.
ghost use Rattle.std.specs.Prelude.{◌≡◌, ◌≢◌, ◌<◌, IfOk};
ghost use Rattle.std.specs.Prelude.{true};
ghost use Rattle.surf_surfaces.specs.Mesh.{pair};
ghost use Rattle.surf_surfaces.specs.Surface.{face_count, face_at, has_side};
ghost use Rattle.surf_validity.specs.Valid.{IsDualRow, HasDualRows};
ghost use Rattle.surf_treecheck.specs.First.{HoldsBelow};
ghost use Rattle.surf_treecheck.specs.Rows.{HasDual};
ghost use Rattle.surf_treecheck.specs.Paths.{IsLinkOver, HasLink, IsStepUp, AreAllLinks};

use crate::dual::{edge_of_face, face_across};
use std::alloc::Global;
use surf_base::{EdgeId, FaceId, NoMemory, VertexId};
use surf_mesh::HalfMesh;
use surf_records::DualRows;

/// For each face but face 0, the number of the face that it hangs on and that of the edge between
/// them.
#[derive(Drop)]
pub struct Links {
    pub parent: Vec<u32>,
    pub up: Vec<u32>,
}

// The face across the side of a face between two vertices, and the edge.
fn link_by(mesh: &HalfMesh, f: FaceId, u: VertexId, v: VertexId) -> (FaceId, EdgeId)
    requires face { f < face_count mesh.now }
    requires side { has_side (pair u v) (face_at mesh.now f) ≡ true }
    ensures link { IsLinkOver mesh.now f (u, v) result.0 result.1 }
{
    match edge_of_face(mesh, f, u, v) {
        None => (FaceId::new(0), EdgeId::new(0)),
        Some(e) => (face_across(mesh, f, e), e),
    }
}

// The face that a face hangs on over its side, and the edge between them.
fn link_over(
    mesh: &HalfMesh,
    dual: &DualRows,
    f: FaceId,
    side: Option<(VertexId, VertexId)>,
) -> (FaceId, EdgeId)
    requires face { f < face_count mesh.now }
    requires row { IsDualRow mesh.now dual.now f side }
    ensures link { HasLink mesh.now f side result.0 result.1 }
{
    match side {
        None => (FaceId::new(0), EdgeId::new(0)),
        Some((u, v)) => link_by(mesh, f, u, v),
    }
}

/// The links of all faces.
pub fn link_faces(alloc: Global, mesh: &HalfMesh, dual: &DualRows) -> Result<Links, NoMemory>
    requires rows { HasDualRows mesh.now dual.now }
    requires tree { HoldsBelow (face_count mesh.now) (HasDual mesh.now dual.now) }
    ensures links { IfOk result (AreAllLinks mesh.now dual.now) }
{
    let count = mesh.faces();
    let mut parent = Vec::with_capacity(alloc, count as usize)?;
    let mut up = Vec::with_capacity(alloc, count as usize)?;
    for f in 0..count {
        let (face, edge) = link_over(mesh, dual, FaceId::new(f), dual.side()[f as usize]);
        parent.push(face.number())?;
        up.push(edge.number())?;
    }
    Ok(Links { parent, up })
}

/// The face that a face other than face 0 hangs on, and the edge between them.
pub fn step_up(mesh: &HalfMesh, dual: &DualRows, links: &Links, at: FaceId) -> (FaceId, EdgeId)
    requires tree { HoldsBelow (face_count mesh.now) (HasDual mesh.now dual.now) }
    requires links { AreAllLinks mesh.now dual.now links.now }
    requires face { at < face_count mesh.now }
    requires below { at ≢ 0 }
    ensures step { IsStepUp mesh.now dual.now at result.0 result.1 }
{
    mesh.law_of_surface();
    let (face, edge) = (links.parent[at.index()], links.up[at.index()]);
    (FaceId::new(face), EdgeId::new(edge))
}
