//! Whether the rows of all bases are trees of shortest walks.
ghost use Rattle.std.specs.Prelude.{◌≡◌, MatchOption, length};
ghost use Rattle.surf_surfaces.specs.Surface.{edge_count};
ghost use Rattle.surf_treecheck.specs.First.{HoldsBelow};
ghost use Rattle.surf_validity.specs.Bases.{HasTrees};
ghost use Rattle.surf_treecheck.specs.TreeFaults.{HasParentAt, HasDistanceAt, IsNoShortCutAt, HasParents};
ghost use Rattle.surf_treecheck.specs.TreeFaults.{AreTreesValid, IsTreesFault, FindsFirstAt};

use crate::edges::ends_inside;
use crate::fault::CertFault;
use crate::shape::tree_from;
use crate::tree::{first_distance, first_parent, first_short_cut};
use surf_base::{EdgeId, VertexId};
use surf_lengths::Lengths;
use surf_mesh::HalfMesh;
use surf_records::BasisCert;

// The least base whose tree has a vertex with a parent that isn't one, and the least such vertex.
fn first_orphan(mesh: &HalfMesh, cert: &BasisCert) -> Option<(VertexId, VertexId)>
    requires trees { HasTrees mesh.now cert.now }
    ensures first { FindsFirstAt mesh.now.vertices mesh.now.vertices
        (HasParentAt mesh.now cert.now) result }
{
    for x in 0..mesh.vertices() {
        let base = VertexId::new(x);
        if let Some(vertex) = first_parent(mesh, tree_from(cert, base)) {
            return Some((base, vertex));
        }
    }
    None
}

// The least base whose tree has a vertex with a distance that isn't that by its parent, and the
// least such vertex.
fn first_astray(
    mesh: &HalfMesh,
    lengths: &Lengths,
    cert: &BasisCert,
) -> Option<(VertexId, VertexId)>
    requires trees { HasTrees mesh.now cert.now }
    requires lengths { length lengths.now ≡ edge_count mesh.now }
    requires parents { HoldsBelow mesh.now.vertices (HasParents mesh.now cert.now) }
    ensures first { FindsFirstAt mesh.now.vertices mesh.now.vertices
        (HasDistanceAt mesh.now lengths.now cert.now) result }
{
    for x in 0..mesh.vertices() {
        let base = VertexId::new(x);
        if let Some(vertex) = first_distance(mesh, lengths, tree_from(cert, base)) {
            return Some((base, vertex));
        }
    }
    None
}

// The least base with an edge whose ends are farther apart than it is long, and the least such
// edge.
fn first_slack(mesh: &HalfMesh, lengths: &Lengths, cert: &BasisCert) -> Option<(VertexId, EdgeId)>
    requires trees { HasTrees mesh.now cert.now }
    requires lengths { length lengths.now ≡ edge_count mesh.now }
    ensures first { FindsFirstAt mesh.now.vertices (edge_count mesh.now)
        (IsNoShortCutAt mesh.now lengths.now cert.now) result }
{
    for x in 0..mesh.vertices() {
        let base = VertexId::new(x);
        if let Some(edge) = first_short_cut(mesh, lengths, tree_from(cert, base)) {
            return Some((base, edge));
        }
    }
    None
}

/// The first fault of the trees of all bases, each kind over all bases before the next.
pub fn trees_fault(mesh: &HalfMesh, lengths: &Lengths, cert: &BasisCert) -> Option<CertFault>
    requires trees { HasTrees mesh.now cert.now }
    requires lengths { length lengths.now ≡ edge_count mesh.now }
    ensures fault { MatchOption result (AreTreesValid mesh.now lengths.now cert.now)
        (IsTreesFault mesh.now lengths.now cert.now) }
{
    if let Some((base, vertex)) = first_orphan(mesh, cert) {
        return Some(CertFault::Parent { base, vertex });
    }
    if let Some((base, vertex)) = first_astray(mesh, lengths, cert) {
        return Some(CertFault::Distance { base, vertex });
    }
    if let Some((base, edge)) = first_slack(mesh, lengths, cert) {
        let (u, v) = ends_inside(mesh, edge);
        return Some(CertFault::Slack { base, u, v });
    }
    None
}
