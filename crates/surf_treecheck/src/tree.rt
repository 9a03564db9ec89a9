//! Whether rows are a tree of shortest walks.
ghost use Rattle.std.specs.Prelude.{◌≡◌, ◌<◌, length, Contains};
ghost use Rattle.surf_surfaces.specs.Mesh.{edges, pair};
ghost use Rattle.surf_surfaces.specs.Surface.{edge_count};
ghost use Rattle.surf_surfaces.specs.Walk.{edge_number};
ghost use Rattle.surf_validity.specs.Valid.{IsParent, AddsUp, IsNoShortCut, HasTreeRows};
ghost use Rattle.surf_treecheck.specs.First.{HoldsBelow, FindsFirst, Tells};
ghost use Rattle.surf_treecheck.specs.Rows.{HasParent, HasDistance};

use crate::edges::{edge_up_at, ends_inside};
use surf_base::{EdgeId, VertexId};
use surf_lengths::Lengths;
use surf_mesh::HalfMesh;
use surf_records::TreeRows;

// Whether a vertex has a parent that is its neighbour, or is the base and has none.
fn has_parent(mesh: &HalfMesh, base: VertexId, v: VertexId, parent: Option<VertexId>) -> bool
    requires vertex { v < mesh.now.vertices }
    ensures parent { Tells result (IsParent mesh.now base v parent) }
{
    match parent {
        None => v == base,
        Some(p) => v != base && edge_up_at(mesh, p, v).is_some(),
    }
}

/// The least vertex whose parent isn't one.
pub fn first_parent(mesh: &HalfMesh, rows: &TreeRows) -> Option<VertexId>
    requires rows { HasTreeRows mesh.now rows.now }
    ensures first { FindsFirst mesh.now.vertices (HasParent mesh.now rows.now) result }
{
    for v in 0..mesh.vertices() {
        let vertex = VertexId::new(v);
        if !has_parent(mesh, rows.base(), vertex, rows.parent()[vertex.index()]) {
            return Some(vertex);
        }
    }
    None
}

// Whether the distance of a vertex is its parent's and the length of the edge to it, or 0 at the
// base.
fn adds_up(
    mesh: &HalfMesh,
    lengths: &Lengths,
    rows: &TreeRows,
    v: VertexId,
    parent: Option<VertexId>,
) -> bool
    requires rows { HasTreeRows mesh.now rows.now }
    requires lengths { length lengths.now ≡ edge_count mesh.now }
    requires vertex { v < mesh.now.vertices }
    requires parent { IsParent mesh.now rows.now.base v parent }
    ensures sum { Tells result (AddsUp mesh.now lengths.now rows.now v parent) }
{
    let distance = rows.distance();
    match parent {
        None => distance[v.index()] == 0,
        Some(p) => match edge_up_at(mesh, p, v) {
            None => false,
            Some(e) => {
                let sum = u128::from(distance[p.index()]) + u128::from(lengths.of(e));
                u128::from(distance[v.index()]) == sum
            }
        },
    }
}

/// The least vertex whose distance isn't that by its parent.
pub fn first_distance(mesh: &HalfMesh, lengths: &Lengths, rows: &TreeRows) -> Option<VertexId>
    requires rows { HasTreeRows mesh.now rows.now }
    requires lengths { length lengths.now ≡ edge_count mesh.now }
    requires parents { HoldsBelow mesh.now.vertices (HasParent mesh.now rows.now) }
    ensures first { FindsFirst mesh.now.vertices
        (HasDistance mesh.now lengths.now rows.now) result }
{
    for v in 0..mesh.vertices() {
        let vertex = VertexId::new(v);
        if !adds_up(mesh, lengths, rows, vertex, rows.parent()[vertex.index()]) {
            return Some(vertex);
        }
    }
    None
}

// Whether the distances of an edge's ends differ by at most its length.
fn is_no_short_cut(mesh: &HalfMesh, lengths: &Lengths, rows: &TreeRows, e: EdgeId) -> bool
    requires rows { HasTreeRows mesh.now rows.now }
    requires lengths { length lengths.now ≡ edge_count mesh.now }
    requires edge { e < edge_count mesh.now }
    ensures slack { Tells result (IsNoShortCut mesh.now lengths.now rows.now e) }
{
    let (near, far) = ends_inside(mesh, e);
    let u = rows.distance()[near.index()];
    let v = rows.distance()[far.index()];
    u.abs_diff(v) <= u64::from(lengths.of(e))
}

/// The least edge whose ends are farther apart than it is long.
pub fn first_short_cut(mesh: &HalfMesh, lengths: &Lengths, rows: &TreeRows) -> Option<EdgeId>
    requires rows { HasTreeRows mesh.now rows.now }
    requires lengths { length lengths.now ≡ edge_count mesh.now }
    ensures first { FindsFirst (edge_count mesh.now)
        (IsNoShortCut mesh.now lengths.now rows.now) result }
{
    for e in 0..mesh.edges() {
        let edge = EdgeId::new(e);
        if !is_no_short_cut(mesh, lengths, rows, edge) {
            return Some(edge);
        }
    }
    None
}
