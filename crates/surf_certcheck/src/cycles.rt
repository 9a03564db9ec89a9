//! The cycles of a certificate: whether they are closed, and their lengths.
ghost use Rattle.std.specs.Prelude.{◌≡◌, ◌<◌, ◌+◌, ◌^◌};
ghost use Rattle.std.specs.Prelude.{All, Contains, length, map, sum, slice_index_or};
ghost use Rattle.surf_surfaces.specs.Mesh.{edges, pair_of, steps};
ghost use Rattle.surf_surfaces.specs.Surface.{edge_count};
ghost use Rattle.surf_surfaces.specs.Walk.{edge_number, first, last, walk_length};
ghost use Rattle.surf_validity.specs.Bases.{IsClosedList, basis_total};
ghost use Rattle.surf_treecheck.specs.First.{HoldsBelow, FindsFirst, Tells};
ghost use Rattle.surf_certcheck.specs.BasisFaults.{cycle_at, IsCycleClosed, IsAlong};

use crate::cases::BasisCase;
use surf_base::{EdgeId, VertexId};
use surf_lengths::Lengths;
use surf_mesh::HalfMesh;
use surf_records::BasisCert;
use surf_treecheck::{edge_between, edge_up};

/// The vertices of the cycle at a place.
pub(crate) fn cycle_from(cert: &BasisCert, place: usize) -> &[VertexId]
    requires place { place < length cert.now.cycles }
    ensures cycle { result.now ≡ cycle_at cert.now place }
{
    cert.cycles()[place].vertices()
}

// Whether an edge joins the vertex at a place of a list with the next one.
fn is_along(mesh: &HalfMesh, list: &[VertexId], i: usize) -> bool
    requires step { i + 1 < length list.now }
    ensures along { Tells result (IsAlong mesh.now list.now i) }
{
    edge_up(mesh, list[i], list[i + 1]).is_some()
}

// Whether an edge joins each vertex of a list with the next one.
fn is_along_edges(mesh: &HalfMesh, list: &[VertexId]) -> bool
    requires some { 0 < length list.now }
    ensures along { Tells result
        (All (λ s. Contains (edges mesh.now) (pair_of s)) (steps list.now)) }
{
    for i in 0..list.len() - 1 {
        if !is_along(mesh, list, i) {
            return false;
        }
    }
    true
}

// Whether a list ends where it begins.
fn is_round(list: &[VertexId]) -> bool
    requires some { 0 < length list.now }
    ensures round { Tells result (first list.now ≡ last list.now) }
{
    list[0] == list[list.len() - 1]
}

/// Whether a list is a closed list of neighbours.
pub fn is_closed(mesh: &HalfMesh, list: &[VertexId]) -> bool
    ensures closed { Tells result (IsClosedList mesh.now list.now) }
{
    if list.is_empty() {
        return false;
    }
    is_round(list) && is_along_edges(mesh, list)
}

/// The least place of a cycle that isn't a closed list of neighbours.
pub(crate) fn first_open(mesh: &HalfMesh, cert: &BasisCert) -> Option<usize>
    ensures first { FindsFirst (length cert.now.cycles) (IsCycleClosed mesh.now cert.now) result }
{
    for place in 0..cert.cycles().len() {
        if !is_closed(mesh, cycle_from(cert, place)) {
            return Some(place);
        }
    }
    None
}

/// The edge of a step of a list of neighbours.
pub fn step_edge(mesh: &HalfMesh, list: &[VertexId], i: usize) -> EdgeId
    requires closed { IsClosedList mesh.now list.now }
    requires step { i + 1 < length list.now }
    ensures edge { result ≡ edge_number mesh.now (slice_index_or (steps list.now) i (0, 0)) }
    ensures inside { result < edge_count mesh.now }
{
    edge_between(mesh, list[i], list[i + 1])
}

/// How long a closed list of neighbours is.
pub fn length_of(mesh: &HalfMesh, lengths: &Lengths, list: &[VertexId]) -> u128
    requires closed { IsClosedList mesh.now list.now }
    requires lengths { length lengths.now ≡ edge_count mesh.now }
    ensures length { result ≡ walk_length mesh.now lengths.now list.now }
    ensures small { result < 2 ^ 96 }
{
    let mut total = 0u128;
    for i in 0..list.len() - 1 {
        total += u128::from(lengths.of(step_edge(mesh, list, i)));
    }
    total
}

/// The sum of the lengths of the cycles.
pub(crate) fn total_length(case: &BasisCase<'_>) -> u128
    requires closed { HoldsBelow (length case.now.cert.now.cycles)
        (IsCycleClosed case.now.mesh.now case.now.cert.now) }
    ensures total { result
        ≡ basis_total case.now.mesh.now case.now.lengths.now case.now.cert.now }
{
    case.law_of_cycles();
    let mut total = 0u128;
    for place in 0..case.cert.cycles().len() {
        total += length_of(case.mesh, case.lengths, cycle_from(case.cert, place));
    }
    total
}
