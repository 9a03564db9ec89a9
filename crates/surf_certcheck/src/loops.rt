//! Whether a certificate of loops is valid.
ghost use Rattle.std.specs.Prelude.{◌≡◌, ◌≢◌, ◌<◌, ℕ, ◌^◌, IfOk, IfErr};
ghost use Rattle.std.specs.Prelude.{MatchOption, length, map, sum, All, Contains};
ghost use Rattle.surf_surfaces.specs.Mesh.{edges, pair_of};
ghost use Rattle.surf_surfaces.specs.Surface.{edge_count, face_count};
ghost use Rattle.surf_surfaces.specs.Walk.{edge_number};
ghost use Rattle.surf_surfaces.specs.Homology.{total, IsLeastLoopSystem};
ghost use Rattle.surf_surfaces.specs.Places.{IsLeastLoopSystemInOrder};
ghost use Rattle.surf_validity.specs.Valid.{IsTreeValid, IsDualValid, IsValidLoops};
ghost use Rattle.surf_validity.specs.Valid.{HasNoShorter};
ghost use Rattle.surf_validity.specs.Valid.{is_listed, loop_size, certified_loops, loops_total};
ghost use Rattle.surf_treecheck.specs.First.{HoldsBelow};
ghost use Rattle.surf_treecheck.specs.Split.{AreFlags};
ghost use Rattle.surf_treecheck.specs.Rows.{HasDual};
ghost use Rattle.surf_certcheck.specs.LoopFaults.{IsTreeFault, IsHeavierFault, IsLoopFault};
ghost use Rattle.surf_treecheck.specs.declared.fault.CertFault.TheVariants.{Memory};

use crate::cases::LoopCase;
use crate::heavier::{Judge, size_of};
use crate::tops::clear_flags;
use std::alloc::Global;
use surf_base::{NoMemory, VertexId};
use surf_lengths::Lengths;
use surf_mesh::HalfMesh;
use surf_records::LoopCert;
use surf_treecheck::{
    CertFault, edge_between, ends_inside, first_distance, first_dual, first_parent,
    first_short_cut, first_split, link_faces, loop_shape, mark_edges,
};

// The first fault of the rows of vertices.
fn tree_fault(case: &LoopCase<'_>) -> Option<CertFault>
    ensures fault { MatchOption result
        (IsTreeValid case.now.mesh.now case.now.lengths.now case.now.cert.now.tree)
        (IsTreeFault case.now.mesh.now case.now.lengths.now case.now.cert.now.tree) }
{
    let rows = case.cert.tree();
    let base = rows.base();
    if let Some(vertex) = first_parent(case.mesh, rows) {
        return Some(CertFault::Parent { base, vertex });
    }
    if let Some(vertex) = first_distance(case.mesh, case.lengths, rows) {
        return Some(CertFault::Distance { base, vertex });
    }
    if let Some(edge) = first_short_cut(case.mesh, case.lengths, rows) {
        let (u, v) = ends_inside(case.mesh, edge);
        return Some(CertFault::Slack { base, u, v });
    }
    None
}

// The sum of the lengths of the loops of the left edges.
fn total_of(case: &LoopCase<'_>, left: &[(VertexId, VertexId)]) -> u128
    requires edges { All (λ p. Contains (edges case.now.mesh.now) (pair_of p)) left.now }
    ensures total { result
        ≡ sum (map (λ p. loop_size case.now.mesh.now case.now.lengths.now case.now.cert.now.tree
        (edge_number case.now.mesh.now p)) left.now) }
{
    let mut total = 0u128;
    for i in 0..left.len() {
        let (u, v) = left[i];
        let edge = edge_between(case.mesh, u, v);
        total += size_of(case.mesh, case.lengths, case.cert.tree(), edge);
    }
    total
}

// The first left edge that could be exchanged for an edge of the tree of faces, with that edge.
#[tactic(auto, using(crate::proofs::Cleared::first_doubts))]
fn heavier_fault(
    alloc: Global,
    case: &LoopCase<'_>,
    mut flags: Vec<bool>,
) -> Result<Option<CertFault>, NoMemory>
    requires tree { HoldsBelow (face_count case.now.mesh.now)
        (HasDual case.now.mesh.now case.now.cert.now.dual) }
    requires flags { AreFlags (edge_count case.now.mesh.now)
        (is_listed case.now.mesh.now case.now.cert.now.left) flags.items }
    ensures fault { IfOk result (λ o. MatchOption o
        (HoldsBelow (edge_count case.now.mesh.now)
        (HasNoShorter case.now.mesh.now case.now.lengths.now case.now.cert.now))
        (IsHeavierFault case.now.mesh.now case.now.lengths.now case.now.cert.now)) }
{
    let links = link_faces(alloc, case.mesh, case.cert.dual())?;
    let judge = Judge {
        mesh: case.mesh,
        lengths: case.lengths,
        cert: case.cert,
        links: &links,
    };
    clear_flags(alloc, &judge, &mut flags)?;
    match judge.first_heavier(&flags) {
        None => Ok(None),
        Some((l, c)) => Ok(Some(CertFault::Heavier {
            left: ends_inside(case.mesh, l),
            cotree: ends_inside(case.mesh, c),
        })),
    }
}

// The total of a certificate whose trees are valid, or its first fault among those of edges.
fn check_edges(alloc: Global, case: &LoopCase<'_>) -> Result<u128, CertFault>
    requires tree { IsTreeValid case.now.mesh.now case.now.lengths.now case.now.cert.now.tree }
    requires dual { IsDualValid case.now.mesh.now case.now.cert.now.dual }
    ensures valid { IfOk result (λ t.
        IsValidLoops case.now.mesh.now case.now.lengths.now case.now.cert.now
        × (t ≡ loops_total case.now.mesh.now case.now.lengths.now case.now.cert.now)) }
    ensures fault { IfErr result
        (IsLoopFault case.now.mesh.now case.now.lengths.now case.now.cert.now) }
{
    let (rows, dual, left) = (case.cert.tree(), case.cert.dual(), case.cert.left());
    let marks = mark_edges(alloc, case.mesh, rows, dual, left)?;
    if let Some((u, v)) = first_split(case.mesh, rows, dual, left, &marks) {
        return Err(CertFault::Split { u, v });
    }
    match heavier_fault(alloc, case, marks.left)? {
        None => Ok(total_of(case, left)),
        Some(fault) => Err(fault),
    }
}

/// The total of the loops of a valid certificate, which is then the least of all loop systems at
/// its base, and they are least place by place too: see `surf_validity`. A certificate that isn't
/// valid is refused with its first fault, in the order of [`CertFault`]. It asks nothing of the
/// certificate.
pub fn check_loops(
    alloc: Global,
    mesh: &HalfMesh,
    lengths: &Lengths,
    cert: &LoopCert,
) -> Result<u128, CertFault>
    requires lengths { length lengths.now ≡ edge_count mesh.now }
    ensures valid { IfOk result (λ t. IsValidLoops mesh.now lengths.now cert.now
        × (t ≡ loops_total mesh.now lengths.now cert.now)) }
    ensures least { IfOk result (λ t.
        IsLeastLoopSystem mesh.now lengths.now cert.now.tree.base
        (certified_loops mesh.now cert.now)
        × (t ≡ total mesh.now lengths.now (certified_loops mesh.now cert.now))) }
    ensures in_order { IfOk result (λ t. IsLeastLoopSystemInOrder mesh.now lengths.now
        cert.now.tree.base (certified_loops mesh.now cert.now)) }
    ensures fault { IfErr result (IsLoopFault mesh.now lengths.now cert.now) }
    ensures excludes { IfErr result (λ e. e ≢ Memory
        → IsValidLoops mesh.now lengths.now cert.now → ⊥) }
{
    mesh.law_of_surface();
    lengths.law_of_lengths();
    if let Some(part) = loop_shape(mesh, cert) {
        return Err(CertFault::Shape { part });
    }
    let case = LoopCase {
        mesh,
        lengths,
        cert,
    };
    if let Some(fault) = tree_fault(&case) {
        return Err(fault);
    }
    if let Some(face) = first_dual(mesh, cert.dual()) {
        return Err(CertFault::Dual { face });
    }
    check_edges(alloc, &case)
}
