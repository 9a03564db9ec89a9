//! Edges by their ends and faces.
ghost use Rattle.std.specs.Prelude.{◌≡◌, ◌<◌, Contains, true};
ghost use Rattle.surf_surfaces.specs.Mesh.{edges, pair};
ghost use Rattle.surf_surfaces.specs.Surface.{edge_count, face_count, ends, faces_of};
ghost use Rattle.surf_surfaces.specs.Walk.{edge_number};
ghost use Rattle.surf_treecheck.specs.Between.{IsEdgeBetween, IsEdgeUp};

use surf_base::{EdgeId, FaceId, SideId, VertexId};
use surf_mesh::HalfMesh;

/// The edge between two vertices, if there is one.
pub fn edge_up(mesh: &HalfMesh, p: VertexId, v: VertexId) -> Option<EdgeId>
    ensures edge { IsEdgeUp mesh.now p v result }
{
    mesh.law_of_surface();
    mesh.find_edge(p, v)
}

/// The edge between two neighbours.
pub fn edge_between(mesh: &HalfMesh, u: VertexId, v: VertexId) -> EdgeId
    requires joined { Contains (edges mesh.now) (pair u v) }
    ensures edge { result ≡ edge_number mesh.now (u, v) }
    ensures inside { result < edge_count mesh.now }
{
    match edge_up(mesh, u, v) {
        None => EdgeId::new(0),
        Some(edge) => edge,
    }
}

/// The pair, lesser vertex first.
pub(crate) fn in_order(u: VertexId, v: VertexId) -> (VertexId, VertexId)
    ensures pair { result ≡ pair u v }
{
    if u < v { (u, v) } else { (v, u) }
}

// Whether these are the ends of an edge, lesser end first.
fn has_ends(mesh: &HalfMesh, e: EdgeId, low: VertexId, high: VertexId) -> bool
    requires edge { e < edge_count mesh.now }
    ensures ends { result ≡ true → ends mesh.now e ≡ (low, high) }
{
    let (u, v) = mesh.ends(e);
    u == low && v == high
}

/// The edge between two vertices, if there is one. It is sought among the sides of a face first,
/// where it mostly is: a search among all edges takes many more steps.
pub(crate) fn edge_near(mesh: &HalfMesh, f: FaceId, u: VertexId, v: VertexId) -> Option<EdgeId>
    requires face { f < face_count mesh.now }
    ensures edge { IsEdgeBetween mesh.now u v result }
{
    let (low, high) = in_order(u, v);
    let (start, end) = mesh.side_span(f);
    for s in start..end {
        let e = mesh.edge_of(SideId::new(s));
        if has_ends(mesh, e, low, high) {
            return Some(e);
        }
    }
    mesh.find_edge(u, v)
}

/// The edge between two vertices, if there is one. It is sought among the edges at the second one
/// first, where it mostly is.
pub(crate) fn edge_at(mesh: &HalfMesh, p: VertexId, v: VertexId) -> Option<EdgeId>
    requires vertex { v < mesh.now.vertices }
    ensures edge { IsEdgeBetween mesh.now p v result }
{
    let (low, high) = in_order(p, v);
    for e in mesh.edges_at(v) {
        if has_ends(mesh, *e, low, high) {
            return Some(*e);
        }
    }
    mesh.find_edge(p, v)
}

/// The edge from a vertex up to its parent, if there is one.
pub(crate) fn edge_up_at(mesh: &HalfMesh, p: VertexId, v: VertexId) -> Option<EdgeId>
    requires vertex { v < mesh.now.vertices }
    ensures edge { IsEdgeUp mesh.now p v result }
{
    mesh.law_of_surface();
    edge_at(mesh, p, v)
}

/// The ends of an edge, lesser end first, which are vertices.
pub fn ends_inside(mesh: &HalfMesh, e: EdgeId) -> (VertexId, VertexId)
    requires edge { e < edge_count mesh.now }
    ensures ends { result ≡ ends mesh.now e }
    ensures inside { (result.0 < mesh.now.vertices) × (result.1 < mesh.now.vertices) }
{
    mesh.law_of_surface();
    mesh.ends(e)
}

/// The two faces of an edge, lesser face first, which are faces.
pub fn faces_inside(mesh: &HalfMesh, e: EdgeId) -> (FaceId, FaceId)
    requires edge { e < edge_count mesh.now }
    ensures faces { result ≡ faces_of mesh.now e }
    ensures inside { (result.0 < face_count mesh.now) × (result.1 < face_count mesh.now) }
{
    mesh.law_of_surface();
    mesh.faces_of(e)
}
