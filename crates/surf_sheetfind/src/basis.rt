//! The certificate by sheets of the basis.
ghost use Rattle.std.specs.Prelude.{◌≡◌, ◌≤◌, IfOk, length};
ghost use Rattle.surf_surfaces.specs.Choice.{walks};
ghost use Rattle.surf_surfaces.specs.Surface.{edge_count, loop_count};
ghost use Rattle.surf_basis.specs.Cycles.{as_loops};
ghost use Rattle.surf_sheetcheck.specs.Valid.{IsValidSheets};
ghost use Rattle.surf_sheetcheck.specs.Fits.{SheetCertFits};
ghost use Rattle.surf_sheetfind.specs.Certs.{IsTheSheetCert};
ghost use Rattle.surf_base.specs.declared.limits.TheConstants.{MAX_LOOPS};

use crate::vertices::sheets_of_vertices;
use std::alloc::Global;
use surf_base::NoMemory;
use surf_basis::{Cycle, least_basis};
use surf_lengths::Lengths;
use surf_mesh::{HalfMesh, Walk};
use surf_records::SheetCert;

// The walks of cycles, in their order.
fn walks_of(alloc: Global, cycles: Vec<Cycle>) -> Result<Vec<Walk>, NoMemory>
    ensures walks { IfOk result (λ list. list.items ≡ walks (as_loops cycles.items)) }
{
    Ok(cycles.into_iter().map(|cycle| cycle.walk).collect(alloc)?)
}

/// A certificate by sheets that the cycles of the basis that is chosen are a least basis, in their
/// order. It is valid for the mesh and the lengths, and its lists fit the lines of a text. It is
/// refused only for want of memory, for which more than 4,294,967,295 numbers of cocycles count
/// too.
pub fn sheet_cert(alloc: Global, mesh: &HalfMesh, lengths: &Lengths) -> Result<SheetCert, NoMemory>
    requires lengths { length lengths.now ≡ edge_count mesh.now }
    requires few { loop_count mesh.now ≤ MAX_LOOPS }
    ensures chosen { IfOk result (IsTheSheetCert mesh.now lengths.now) }
    ensures valid { IfOk result (IsValidSheets mesh.now lengths.now) }
    ensures fits { IfOk result SheetCertFits }
{
    mesh.law_of_surface();
    lengths.law_of_lengths();
    let cycles = walks_of(alloc, least_basis(alloc, mesh, lengths)?)?;
    sheets_of_vertices(alloc, mesh, lengths, cycles)
}
