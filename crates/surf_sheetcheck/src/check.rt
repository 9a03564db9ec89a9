//! Whether a certificate of a basis by sheets is valid.
ghost use Rattle.std.specs.Prelude.{◌≡◌, ◌≢◌, ◌≤◌, IfOk, IfErr, length};
ghost use Rattle.surf_surfaces.specs.Homology.{total, IsLeastBasis};
ghost use Rattle.surf_surfaces.specs.Places.{IsLeastBasisInOrder};
ghost use Rattle.surf_surfaces.specs.Surface.{edge_count, loop_count};
ghost use Rattle.surf_treecheck.specs.First.{HoldsBelow};
ghost use Rattle.surf_sheetcheck.specs.Fits.{SheetCertFits};
ghost use Rattle.surf_sheetcheck.specs.Cocycles.{IsPairEdge};
ghost use Rattle.surf_sheetcheck.specs.Valid.{Holds, IsValidSheets, sheets_total};
ghost use Rattle.surf_sheetcheck.specs.Faults.{IsSheetFault, AreWalksRight, AreRowsRight};
ghost use Rattle.surf_sheetcheck.specs.Tables.{AreSizes, IsReady};
ghost use Rattle.surf_sheetcheck.specs.Serving.{AreLefts, IsLeft};
ghost use Rattle.surf_sheetcheck.specs.declared.fault.SheetFault.TheVariants.{Memory};
ghost use Rattle.surf_base.specs.declared.limits.TheConstants.{MAX_LOOPS};

use crate::cases::SheetCase;
use crate::cocycles::first_odd_face;
use crate::fault::SheetFault;
use crate::forms::first_formless;
use crate::pairing::first_unpaired;
use crate::pairs::{first_stranger, slot_edges};
use crate::serving::first_left;
use crate::sets::row_sets;
use crate::shape::sheet_shape;
use crate::sheets::first_short;
use crate::walks::{first_falling, first_open, total_of, walk_sizes};
use std::alloc::Global;
use surf_lengths::Lengths;
use surf_mesh::HalfMesh;
use surf_records::SheetCert;
use surf_sheets::law_of_sheets;
use surf_signatures::VertexSets;
use surf_treecheck::ends_inside;

// The total of a certificate whose sheets hold, or an edge that they don't serve.
fn check_serving(case: &SheetCase<'_>, left: &VertexSets) -> Result<u128, SheetFault>
    requires ready { IsReady case.now }
    requires rows { AreRowsRight case.now.mesh.now case.now.lengths.now case.now.cert.now }
    requires sheets { HoldsBelow (length case.now.cert.now.sheets)
        (Holds case.now.mesh.now case.now.lengths.now case.now.cert.now) }
    requires left { IsLeft case.now (length case.now.cert.now.sheets) left.now }
    requires lefts { AreLefts case.now left.now }
    ensures valid { IfOk result (λ t.
        IsValidSheets case.now.mesh.now case.now.lengths.now case.now.cert.now
        × (t ≡ sheets_total case.now.mesh.now case.now.lengths.now case.now.cert.now)) }
    ensures fault { IfErr result
        (IsSheetFault case.now.mesh.now case.now.lengths.now case.now.cert.now) }
{
    match first_left(left, case.cert.edges().len() as u32) {
        None => Ok(total_of(&case.sizes)),
        Some(place) => {
            let (u, v) = case.cert.edges()[place as usize];
            Err(SheetFault::Unserved { u, v })
        }
    }
}

// The total of a certificate whose rows are right, or its first fault.
fn check_holding(alloc: Global, case: &SheetCase<'_>) -> Result<u128, SheetFault>
    requires ready { IsReady case.now }
    requires rows { AreRowsRight case.now.mesh.now case.now.lengths.now case.now.cert.now }
    ensures valid { IfOk result (λ t.
        IsValidSheets case.now.mesh.now case.now.lengths.now case.now.cert.now
        × (t ≡ sheets_total case.now.mesh.now case.now.lengths.now case.now.cert.now)) }
    ensures fault { IfErr result
        (IsSheetFault case.now.mesh.now case.now.lengths.now case.now.cert.now) }
{
    let mut left = row_sets(alloc, case.cert)?;
    let found = first_short(alloc, case, &mut left)?;
    match found {
        None => check_serving(case, &left),
        Some((sheet, edge)) => {
            let (u, v) = ends_inside(case.mesh, edge);
            Err(SheetFault::Short { sheet, u, v })
        }
    }
}

// The total of a certificate whose pairs are edges, or its first fault.
fn check_rows(alloc: Global, case: &SheetCase<'_>) -> Result<u128, SheetFault>
    requires ready { IsReady case.now }
    requires walks { AreWalksRight case.now.mesh.now case.now.lengths.now case.now.cert.now }
    requires pairs { HoldsBelow (length case.now.cert.now.edges)
        (IsPairEdge case.now.mesh.now case.now.cert.now) }
    ensures valid { IfOk result (λ t.
        IsValidSheets case.now.mesh.now case.now.lengths.now case.now.cert.now
        × (t ≡ sheets_total case.now.mesh.now case.now.lengths.now case.now.cert.now)) }
    ensures fault { IfErr result
        (IsSheetFault case.now.mesh.now case.now.lengths.now case.now.cert.now) }
{
    if let Some(face) = first_odd_face(case) {
        return Err(SheetFault::Cocycle { face });
    }
    if let Some(place) = first_unpaired(case) {
        return Err(SheetFault::Unpaired {
            place: place as u32,
        });
    }
    if let Some(place) = first_formless(case) {
        return Err(SheetFault::Form {
            sheet: place as u32,
        });
    }
    check_holding(alloc, case)
}

// The total of a certificate whose walks are right, or its first fault.
fn check_pairs(
    alloc: Global,
    mesh: &HalfMesh,
    lengths: &Lengths,
    cert: &SheetCert,
    sizes: Vec<u128>,
) -> Result<u128, SheetFault>
    requires lengths { length lengths.now ≡ edge_count mesh.now }
    requires few { length cert.now.cycles ≤ MAX_LOOPS }
    requires fits { SheetCertFits cert.now }
    requires walks { AreWalksRight mesh.now lengths.now cert.now }
    requires sizes { AreSizes mesh.now lengths.now cert.now sizes.items }
    ensures valid { IfOk result (λ t. IsValidSheets mesh.now lengths.now cert.now
        × (t ≡ sheets_total mesh.now lengths.now cert.now)) }
    ensures fault { IfErr result (IsSheetFault mesh.now lengths.now cert.now) }
{
    if let Some(place) = first_stranger(mesh, cert) {
        let (u, v) = cert.edges()[place];
        return Err(SheetFault::Pair { u, v });
    }
    let slots = slot_edges(alloc, mesh, cert)?;
    let sets = row_sets(alloc, cert)?;
    let case = SheetCase {
        mesh,
        lengths,
        cert,
        sizes,
        slots,
        sets,
    };
    check_rows(alloc, &case)
}

/// The total of the cycles of a valid certificate, which are then a least basis, place by place
/// too: see `surf_sheets`. A certificate that isn't valid is refused with its first fault, in the
/// order of [`SheetFault`].
pub fn check_sheets(
    alloc: Global,
    mesh: &HalfMesh,
    lengths: &Lengths,
    cert: &SheetCert,
) -> Result<u128, SheetFault>
    requires lengths { length lengths.now ≡ edge_count mesh.now }
    requires few { loop_count mesh.now ≤ MAX_LOOPS }
    requires fits { SheetCertFits cert.now }
    ensures valid { IfOk result (λ t. IsValidSheets mesh.now lengths.now cert.now
        × (t ≡ sheets_total mesh.now lengths.now cert.now)) }
    ensures least { IfOk result (λ t. IsLeastBasis mesh.now lengths.now cert.now.cycles
        × (t ≡ total mesh.now lengths.now cert.now.cycles)) }
    ensures in_order { IfOk result (λ _. IsLeastBasisInOrder mesh.now lengths.now
        cert.now.cycles) }
    ensures fault { IfErr result (IsSheetFault mesh.now lengths.now cert.now) }
    ensures excludes { IfErr result (λ e. e ≢ Memory
        → IsValidSheets mesh.now lengths.now cert.now → ⊥) }
{
    mesh.law_of_surface();
    lengths.law_of_lengths();
    law_of_sheets();
    if let Some(part) = sheet_shape(mesh, cert) {
        return Err(SheetFault::Shape { part });
    }
    if let Some(place) = first_open(mesh, cert) {
        return Err(SheetFault::NotClosed {
            place: place as u32,
        });
    }
    let sizes = walk_sizes(alloc, mesh, lengths, cert)?;
    if let Some(place) = first_falling(&sizes) {
        return Err(SheetFault::Falling {
            place: place as u32,
        });
    }
    check_pairs(alloc, mesh, lengths, cert, sizes)
}
