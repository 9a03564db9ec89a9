//! Flags by edge number: which edges lead to a parent, which are sides of the rows of faces, and
//! which are listed.
ghost use Rattle.std.specs.Prelude.{◌≡◌, ◌<◌, ◌||◌, ℕ, IfOk, length, get_or, false};
ghost use Rattle.surf_surfaces.specs.Mesh.{pair, pair_eq};
ghost use Rattle.surf_surfaces.specs.Surface.{edge_count, face_count, ends};
ghost use Rattle.surf_validity.specs.Valid.{parent_at, side_at, leads_up, is_side, is_parent_edge};
ghost use Rattle.surf_validity.specs.Valid.{is_dual_edge, is_listed, HasTreeRows, HasDualRows};
ghost use Rattle.surf_treecheck.specs.Between.{IsEdgeBetween};
ghost use Rattle.surf_treecheck.specs.Split.{AreFlags, none};

use crate::edges::{edge_at, edge_near};
use std::alloc::Global;
use surf_base::{EdgeId, FaceId, NoMemory, VertexId};
use surf_mesh::HalfMesh;
use surf_records::{DualRows, TreeRows};

// Flags the edge that was found between two vertices, if there is one.
fn flag_edge(mesh: &HalfMesh, flags: &mut [bool], u: VertexId, v: VertexId, found: Option<EdgeId>)
    requires count { length flags.old ≡ edge_count mesh.now }
    requires found { IsEdgeBetween mesh.now u v found }
    ensures count { length flags.new ≡ edge_count mesh.now }
    ensures flagged { (e : ℕ) → e < edge_count mesh.now → get_or flags.new e false
        ≡ (pair_eq (ends mesh.now e) (pair u v) || get_or flags.old e false) }
{
    mesh.law_of_surface();
    if let Some(edge) = found {
        flags[edge.index()] = true;
    }
}

// Flags the edge from a vertex to its parent.
fn flag_parent(mesh: &HalfMesh, flags: &mut [bool], rows: &TreeRows, v: u32)
    requires count { length flags.old ≡ edge_count mesh.now }
    requires rows { HasTreeRows mesh.now rows.now }
    requires vertex { v < mesh.now.vertices }
    ensures count { length flags.new ≡ edge_count mesh.now }
    ensures flagged { (e : ℕ) → e < edge_count mesh.now → get_or flags.new e false
        ≡ (leads_up mesh.now e v (parent_at rows.now v) || get_or flags.old e false) }
{
    let vertex = VertexId::new(v);
    match rows.parent()[vertex.index()] {
        None => {}
        Some(p) => flag_edge(mesh, flags, p, vertex, edge_at(mesh, p, vertex)),
    }
}

// Flags the edge that is the side of a face's row.
fn flag_side(mesh: &HalfMesh, flags: &mut [bool], dual: &DualRows, f: u32)
    requires count { length flags.old ≡ edge_count mesh.now }
    requires rows { HasDualRows mesh.now dual.now }
    requires face { f < face_count mesh.now }
    ensures count { length flags.new ≡ edge_count mesh.now }
    ensures flagged { (e : ℕ) → e < edge_count mesh.now → get_or flags.new e false
        ≡ (is_side mesh.now e (side_at dual.now f) || get_or flags.old e false) }
{
    let face = FaceId::new(f);
    match dual.side()[face.index()] {
        None => {}
        Some((u, v)) => flag_edge(mesh, flags, u, v, edge_near(mesh, face, u, v)),
    }
}

/// Flags the edges from all vertices to their parents.
pub(crate) fn flag_parents(mesh: &HalfMesh, flags: &mut [bool], rows: &TreeRows)
    requires rows { HasTreeRows mesh.now rows.now }
    requires none { AreFlags (edge_count mesh.now) none flags.old }
    ensures flags { AreFlags (edge_count mesh.now) (is_parent_edge mesh.now rows.now) flags.new }
{
    mesh.law_of_surface();
    for v in 0..mesh.vertices() {
        flag_parent(mesh, flags, rows, v);
    }
}

/// Flags the edges that are sides of the rows of all faces.
pub(crate) fn flag_sides(mesh: &HalfMesh, flags: &mut [bool], dual: &DualRows)
    requires rows { HasDualRows mesh.now dual.now }
    requires none { AreFlags (edge_count mesh.now) none flags.old }
    ensures flags { AreFlags (edge_count mesh.now) (is_dual_edge mesh.now dual.now) flags.new }
{
    mesh.law_of_surface();
    for f in 0..mesh.faces() {
        flag_side(mesh, flags, dual, f);
    }
}

/// Flags the edges that are listed.
pub(crate) fn flag_listed(mesh: &HalfMesh, flags: &mut [bool], left: &[(VertexId, VertexId)])
    requires none { AreFlags (edge_count mesh.now) none flags.old }
    ensures flags { AreFlags (edge_count mesh.now) (is_listed mesh.now left.now) flags.new }
{
    mesh.law_of_surface();
    for i in 0..left.len() {
        let (u, v) = left[i];
        flag_edge(mesh, flags, u, v, mesh.find_edge(u, v));
    }
}

// No edge is flagged yet.
pub(crate) fn no_flags(alloc: Global, mesh: &HalfMesh) -> Result<Vec<bool>, NoMemory>
    ensures none { IfOk result (λ v. AreFlags (edge_count mesh.now) none v.items) }
{
    Ok(vec![in alloc; false; mesh.edges() as usize]?)
}
