//! Whether the two trees and the list of left pairs divide the edges.
ghost use Rattle.std.specs.Prelude.{◌≡◌, ◌<◌, if◌then◌else◌, IfOk, MatchOption};
ghost use Rattle.std.specs.Prelude.{MatchBool, length, take};
ghost use Rattle.surf_surfaces.specs.Mesh.{pair, pair_lt, edges, among};
ghost use Rattle.surf_surfaces.specs.Surface.{edge_count, IsSurface};
ghost use Rattle.surf_validity.specs.Valid.{just_one, IsDivided, HasTreeRows, HasDualRows};
ghost use Rattle.surf_treecheck.specs.First.{FindsFirst};
ghost use Rattle.surf_treecheck.specs.Split.{AreOne, AreMarks, IsLeastStray, lesser_of, least_with, IsLeastBadPair};

use crate::edges::{ends_inside, in_order};
use crate::marks::{flag_listed, flag_parents, flag_sides, no_flags};
use std::alloc::Global;
use surf_base::{EdgeId, NoMemory, VertexId};
use surf_mesh::HalfMesh;
use surf_records::{DualRows, TreeRows};

// The lesser of two pairs.
fn lesser(u: VertexId, v: VertexId, s: VertexId, t: VertexId) -> (VertexId, VertexId)
    ensures lesser { result ≡ (if pair_lt (u, v) (s, t) then (u, v) else (s, t)) }
{
    if u < s || (u == s && v < t) {
        (u, v)
    } else {
        (s, t)
    }
}

// The lesser of two pairs where the second may be missing.
fn least_of(u: VertexId, v: VertexId, other: Option<(VertexId, VertexId)>) -> (VertexId, VertexId)
    ensures least { result ≡ lesser_of (pair u v) other }
{
    let (low, high) = in_order(u, v);
    match other {
        None => (low, high),
        Some((s, t)) => lesser(low, high, s, t),
    }
}

// Whether a pair is an edge.
fn is_edge(mesh: &HalfMesh, u: VertexId, v: VertexId) -> bool
    ensures edge { result ≡ among (pair u v) (edges mesh.now) }
{
    mesh.law_of_surface();
    mesh.find_edge(u, v).is_some()
}

// The least so far, with one more listed pair, which counts where it isn't an edge.
fn with_pair(
    mesh: &HalfMesh,
    least: Option<(VertexId, VertexId)>,
    u: VertexId,
    v: VertexId,
) -> Option<(VertexId, VertexId)>
    ensures least { result ≡ least_with mesh.now least (pair u v) }
{
    if is_edge(mesh, u, v) {
        least
    } else {
        Some(least_of(u, v, least))
    }
}

// The least listed pair that isn't an edge, lesser vertex first.
fn first_stray(mesh: &HalfMesh, left: &[(VertexId, VertexId)]) -> Option<(VertexId, VertexId)>
    ensures stray { IsLeastStray mesh.now left.now result }
{
    let mut least = None;
    for i in 0..left.len() {
        let (u, v) = left[i];
        least = with_pair(mesh, least, u, v);
    }
    least
}

// Whether just one of three is so.
fn is_just_one(a: bool, b: bool, c: bool) -> bool
    ensures one { result ≡ just_one a b c }
{
    if a {
        !b && !c
    } else if b {
        !c
    } else {
        c
    }
}

/// Flags by edge number: the edges of the two trees, and the listed ones.
#[derive(Drop)]
pub struct Marks {
    pub tree: Vec<bool>,
    pub dual: Vec<bool>,
    pub left: Vec<bool>,
}

/// The flags of a certificate's edges.
pub fn mark_edges(
    alloc: Global,
    mesh: &HalfMesh,
    rows: &TreeRows,
    dual: &DualRows,
    left: &[(VertexId, VertexId)],
) -> Result<Marks, NoMemory>
    requires rows { HasTreeRows mesh.now rows.now }
    requires dual { HasDualRows mesh.now dual.now }
    ensures marks { IfOk result (λ m. AreMarks mesh.now rows.now dual.now left.now
        m.tree.items m.dual.items m.left.items) }
{
    let mut in_tree = no_flags(alloc, mesh)?;
    flag_parents(mesh, &mut in_tree, rows);
    let mut in_dual = no_flags(alloc, mesh)?;
    flag_sides(mesh, &mut in_dual, dual);
    let mut in_left = no_flags(alloc, mesh)?;
    flag_listed(mesh, &mut in_left, left);
    Ok(Marks {
        tree: in_tree,
        dual: in_dual,
        left: in_left,
    })
}

// The least edge that isn't in just one of the three sets.
fn first_undivided(mesh: &HalfMesh, marks: &Marks) -> Option<EdgeId>
    requires tree { length marks.now.tree.items ≡ edge_count mesh.now }
    requires dual { length marks.now.dual.items ≡ edge_count mesh.now }
    requires left { length marks.now.left.items ≡ edge_count mesh.now }
    ensures first { FindsFirst (edge_count mesh.now)
        (AreOne marks.now.tree.items marks.now.dual.items marks.now.left.items) result }
    ensures surface { IsSurface mesh.now }
{
    mesh.law_of_surface();
    for e in 0..mesh.edges() {
        let at = EdgeId::new(e).index();
        if !is_just_one(marks.tree[at], marks.dual[at], marks.left[at]) {
            return Some(EdgeId::new(e));
        }
    }
    None
}

/// The least pair that keeps the two trees and the list from dividing the edges: one that is listed
/// and isn't an edge, or an edge that isn't in just one of the three. The lesser vertex comes
/// first.
pub fn first_split(
    mesh: &HalfMesh,
    rows: &TreeRows,
    dual: &DualRows,
    left: &[(VertexId, VertexId)],
    marks: &Marks,
) -> Option<(VertexId, VertexId)>
    requires marks { AreMarks mesh.now rows.now dual.now left.now
        marks.now.tree.items marks.now.dual.items marks.now.left.items }
    ensures split { MatchOption result (IsDivided mesh.now rows.now dual.now left.now)
        (IsLeastBadPair mesh.now rows.now dual.now left.now) }
{
    let stray = first_stray(mesh, left);
    match first_undivided(mesh, marks) {
        None => stray,
        Some(edge) => {
            let (u, v) = ends_inside(mesh, edge);
            Some(least_of(u, v, stray))
        }
    }
}
