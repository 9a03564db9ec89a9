//! Whether a certificate of a basis is valid.
ghost use Rattle.std.specs.Prelude.{◌≡◌, ◌≢◌, ◌≤◌, ◌+◌, ℕ, IfOk, IfErr};
ghost use Rattle.std.specs.Prelude.{length};
ghost use Rattle.surf_surfaces.specs.Homology.{total, IsLeastBasis};
ghost use Rattle.surf_surfaces.specs.Places.{IsLeastBasisInOrder, MeasureShortest};
ghost use Rattle.surf_surfaces.specs.Surface.{edge_count, loop_count};
ghost use Rattle.surf_validity.specs.Bases.{IsValidBasis, basis_total};
ghost use Rattle.surf_validity.specs.Valid.{is_listed, IsDualValid};
ghost use Rattle.surf_treecheck.specs.First.{HoldsBelow};
ghost use Rattle.surf_treecheck.specs.Split.{AreFlags};
ghost use Rattle.surf_certcheck.specs.BasisFaults.{AreTreesDivided, IsCycleClosed, IsBasisFault};
ghost use Rattle.surf_treecheck.specs.TreeFaults.{AreTreesValid};
ghost use Rattle.surf_treecheck.specs.declared.fault.CertFault.TheVariants.{Memory};
ghost use Rattle.surf_base.specs.declared.limits.TheConstants.{MAX_LOOPS};

use crate::cases::BasisCase;
use crate::cover::first_uncovered;
use crate::cycles::{first_open, total_length};
use crate::frame::frame_cycles;
use crate::signing::sign_edges;
use crate::sums::all_vertices;
use std::alloc::Global;
use surf_base::VertexId;
use surf_lengths::Lengths;
use surf_mesh::HalfMesh;
use surf_records::BasisCert;
use surf_signatures::VertexSets;
use surf_treecheck::{
    CertFault, basis_shape, ends_inside, first_dual, first_split, mark_edges, tree_from,
    trees_fault,
};

// The total of a certificate whose trees divide the edges and whose cycles are closed, or its first
// fault.
fn check_cycles(alloc: Global, case: &BasisCase<'_>, left: &[bool]) -> Result<u128, CertFault>
    requires divided { AreTreesDivided case.now.mesh.now case.now.lengths.now case.now.cert.now }
    requires closed { HoldsBelow (length case.now.cert.now.cycles)
        (IsCycleClosed case.now.mesh.now case.now.cert.now) }
    requires left { AreFlags (edge_count case.now.mesh.now)
        (is_listed case.now.mesh.now case.now.cert.now.left) left.now }
    ensures valid { IfOk result (λ t.
        IsValidBasis case.now.mesh.now case.now.lengths.now case.now.cert.now
        × (t ≡ basis_total case.now.mesh.now case.now.lengths.now case.now.cert.now)) }
    ensures fault { IfErr result
        (IsBasisFault case.now.mesh.now case.now.lengths.now case.now.cert.now) }
{
    case.mesh.law_of_surface();
    case.lengths.law_of_lengths();
    let signs = sign_edges(alloc, case.mesh, case.cert, left)?;
    let frame = frame_cycles(alloc, case, signs)?;
    let mut order = all_vertices(alloc, case.mesh)?;
    let mut sums = VertexSets::make(alloc, case.mesh.vertices(), frame.weights.len() as u32)?;
    match first_uncovered(case, &frame, &mut order, &mut sums) {
        None => Ok(total_length(case)),
        Some((base, edge)) => {
            let (u, v) = ends_inside(case.mesh, edge);
            Err(CertFault::Uncovered { base, u, v })
        }
    }
}

// The total of a certificate whose trees are valid, or its first fault.
fn check_edges(alloc: Global, case: &BasisCase<'_>) -> Result<u128, CertFault>
    requires trees { AreTreesValid case.now.mesh.now case.now.lengths.now case.now.cert.now }
    requires dual { IsDualValid case.now.mesh.now case.now.cert.now.dual }
    ensures valid { IfOk result (λ t.
        IsValidBasis case.now.mesh.now case.now.lengths.now case.now.cert.now
        × (t ≡ basis_total case.now.mesh.now case.now.lengths.now case.now.cert.now)) }
    ensures fault { IfErr result
        (IsBasisFault case.now.mesh.now case.now.lengths.now case.now.cert.now) }
{
    let (mesh, cert) = (case.mesh, case.cert);
    mesh.law_of_surface();
    let rows = tree_from(cert, VertexId::new(0));
    let marks = mark_edges(alloc, mesh, rows, cert.dual(), cert.left())?;
    if let Some((u, v)) = first_split(mesh, rows, cert.dual(), cert.left(), &marks) {
        return Err(CertFault::Split { u, v });
    }
    if let Some(place) = first_open(mesh, cert) {
        return Err(CertFault::NotClosed {
            place: place as u32,
        });
    }
    check_cycles(alloc, case, &marks.left)
}

/// The total of the cycles of a valid certificate, which are then a least basis, place by place
/// too, and the shortest of them a shortest cycle that doesn't separate the surface: see
/// `surf_validity`. A certificate that isn't valid is refused with its first fault, in the order of
/// [`CertFault`]. It asks nothing of the certificate.
pub fn check_basis(
    alloc: Global,
    mesh: &HalfMesh,
    lengths: &Lengths,
    cert: &BasisCert,
) -> Result<u128, CertFault>
    requires lengths { length lengths.now ≡ edge_count mesh.now }
    requires few { loop_count mesh.now ≤ MAX_LOOPS }
    ensures valid { IfOk result (λ t. IsValidBasis mesh.now lengths.now cert.now
        × (t ≡ basis_total mesh.now lengths.now cert.now)) }
    ensures least { IfOk result (λ t. IsLeastBasis mesh.now lengths.now cert.now.cycles
        × (t ≡ total mesh.now lengths.now cert.now.cycles)) }
    ensures in_order { IfOk result (λ t. IsLeastBasisInOrder mesh.now lengths.now cert.now.cycles
        × MeasureShortest mesh.now lengths.now cert.now.cycles) }
    ensures fault { IfErr result (IsBasisFault mesh.now lengths.now cert.now) }
    ensures excludes { IfErr result (λ e. e ≢ Memory
        → IsValidBasis mesh.now lengths.now cert.now → ⊥) }
{
    mesh.law_of_surface();
    lengths.law_of_lengths();
    if let Some(part) = basis_shape(mesh, cert) {
        return Err(CertFault::Shape { part });
    }
    if let Some(fault) = trees_fault(mesh, lengths, cert) {
        return Err(fault);
    }
    if let Some(face) = first_dual(mesh, cert.dual()) {
        return Err(CertFault::Dual { face });
    }
    let case = BasisCase {
        mesh,
        lengths,
        cert,
    };
    check_edges(alloc, &case)
}
