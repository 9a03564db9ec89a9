//! The edges of cocycles.
ghost use Rattle.std.specs.Prelude.{◌≡◌, ◌<◌, length, IfOk};
ghost use Rattle.surf_treecheck.specs.First.{HoldsBelow, FindsFirst, Tells};
ghost use Rattle.surf_records.specs.Fits.{LeftFits};
ghost use Rattle.surf_surfaces.specs.Surface.{edge_count};
ghost use Rattle.surf_surfaces.specs.Walk.{edge_number};
ghost use Rattle.surf_sheetcheck.specs.Cocycles.{pair_at, IsPairEdge};
ghost use Rattle.surf_sheetcheck.specs.Tables.{AreSlots};

use std::alloc::Global;
use surf_base::{EdgeId, NOBODY, NoMemory};
use surf_mesh::HalfMesh;
use surf_records::SheetCert;
use surf_treecheck::{edge_between, edge_up};

// Whether the pair at a place of the list of edges is one.
fn is_edge(mesh: &HalfMesh, cert: &SheetCert, place: usize) -> bool
    requires place { place < length cert.now.edges }
    ensures edge { Tells result (IsPairEdge mesh.now cert.now place) }
{
    let (u, v) = cert.edges()[place];
    edge_up(mesh, u, v).is_some()
}

/// The least place of a pair that is no edge.
pub(crate) fn first_stranger(mesh: &HalfMesh, cert: &SheetCert) -> Option<usize>
    ensures first { FindsFirst (length cert.now.edges) (IsPairEdge mesh.now cert.now) result }
{
    for place in 0..cert.edges().len() {
        if !is_edge(mesh, cert, place) {
            return Some(place);
        }
    }
    None
}

// The edge at a place of the list of edges.
fn edge_at(mesh: &HalfMesh, cert: &SheetCert, place: usize) -> EdgeId
    requires place { place < length cert.now.edges }
    requires edge { IsPairEdge mesh.now cert.now place }
    ensures edge { result ≡ edge_number mesh.now (pair_at cert.now place) }
    ensures inside { result < edge_count mesh.now }
{
    let (u, v) = cert.edges()[place];
    edge_between(mesh, u, v)
}

/// For each edge the place of its ends in the list of edges, or nobody where they aren't there.
pub(crate) fn slot_edges(
    alloc: Global,
    mesh: &HalfMesh,
    cert: &SheetCert,
) -> Result<Vec<u32>, NoMemory>
    requires fits { LeftFits (length cert.now.edges) cert.now.edges }
    requires few { length cert.now.edges < 4294967296 }
    requires pairs { HoldsBelow (length cert.now.edges) (IsPairEdge mesh.now cert.now) }
    ensures slots { IfOk result (λ v. AreSlots mesh.now cert.now (length cert.now.edges) v.items) }
{
    let mut slots = vec![in alloc; NOBODY; mesh.edges() as usize]?;
    for place in 0..cert.edges().len() {
        slots[edge_at(mesh, cert, place).index()] = place as u32;
    }
    Ok(slots)
}
