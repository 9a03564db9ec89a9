//! Certificates by sheets over single vertices.
ghost use Rattle.std.specs.Prelude.{◌≡◌, ◌≤◌, ◌<◌, ℕ, length, IfOk, IfErr};
ghost use Rattle.surf_surfaces.specs.Surface.{edge_count, loop_count};
ghost use Rattle.surf_surfaces.specs.Homology.{IsLeastBasis};
ghost use Rattle.surf_validity.specs.Bases.{IsClosedList};
ghost use Rattle.surf_sheets.specs.Sheets.{AreByLength};
ghost use Rattle.surf_sheetcheck.specs.Valid.{IsValidSheets};
ghost use Rattle.surf_sheetcheck.specs.Fits.{SheetCertFits};
ghost use Rattle.surf_sheetcheck.specs.declared.fault.SheetFault.TheVariants.{Memory};
ghost use Rattle.surf_finder.specs.Signing.{AreSigned, signs_of};
ghost use Rattle.surf_sheetfind.specs.Pairs.{walk_at, classes_of, AreClasses};
ghost use Rattle.surf_sheetfind.specs.Listed.{IsVertexCert};
ghost use Rattle.surf_base.specs.declared.limits.TheConstants.{MAX_LOOPS};

use crate::edges::{EdgeSets, list_edges};
use crate::pairing::paired_rows;
use crate::sheets::vertex_sheets;
use std::alloc::Global;
use surf_base::{NoMemory, VertexId};
use surf_cotree::CotreeDesk;
use surf_lengths::Lengths;
use surf_loops::LoopDesk;
use surf_mesh::{HalfMesh, Walk};
use surf_records::SheetCert;
use surf_sheetcheck::{SheetFault, check_sheets};
use surf_signatures::VertexSets;

// The signatures of all edges by the trees that are chosen at vertex 0.
fn signatures_of(alloc: Global, mesh: &HalfMesh, lengths: &Lengths) -> Result<CotreeDesk, NoMemory>
    requires lengths { length lengths.now ≡ edge_count mesh.now }
    requires few { loop_count mesh.now ≤ MAX_LOOPS }
    ensures signed { IfOk result (λ desk. AreSigned mesh.now (signs_of desk) (length desk.left)) }
{
    mesh.law_of_surface();
    lengths.law_of_lengths();
    let mut desk = LoopDesk::make(alloc, mesh)?;
    desk.greedy(mesh, lengths, VertexId::new(0));
    desk.sign(mesh);
    Ok(desk.into_cotree())
}

// The certificate that elimination and single vertices make.
fn cert_from(
    alloc: Global,
    mesh: &HalfMesh,
    signatures: &CotreeDesk,
    cycles: Vec<Walk>,
) -> Result<SheetCert, NoMemory>
    requires few { length cycles.items ≤ MAX_LOOPS }
    requires closed { (k : ℕ) → k < length cycles.items → IsClosedList mesh.now (walk_at cycles.items k) }
    requires table { length signatures.now.signatures ≡ edge_count mesh.now }
    requires classes { AreClasses (classes_of mesh.now signatures.now.signatures cycles.items) }
    ensures made { IfOk result (IsVertexCert mesh.now signatures.now.signatures) }
    ensures cycles { IfOk result (λ cert. cert.cycles ≡ cycles.items) }
{
    let count = cycles.len() as u32;
    let rows = paired_rows(alloc, mesh, signatures, &cycles)?;
    let labels = VertexSets::make(alloc, mesh.vertices(), count)?;
    let sets = EdgeSets {
        mesh,
        signatures,
        rows: &rows,
        labels: &labels,
    };
    let listed = list_edges(alloc, &sets, count)?;
    let sheets = vertex_sheets(alloc, &listed.edges, count)?;
    let counts = (mesh.vertices(), mesh.faces());
    Ok(SheetCert::make(counts, cycles, listed.edges, listed.numbers, sheets))
}

// What the checker says of it: it is valid, unless the memory doesn't suffice.
fn judge(
    alloc: Global,
    mesh: &HalfMesh,
    lengths: &Lengths,
    signatures: &CotreeDesk,
    cert: &SheetCert,
) -> Result<u128, SheetFault>
    requires lengths { length lengths.now ≡ edge_count mesh.now }
    requires few { loop_count mesh.now ≤ MAX_LOOPS }
    requires least { IsLeastBasis mesh.now lengths.now cert.now.cycles }
    requires by_length { AreByLength mesh.now lengths.now cert.now.cycles }
    requires signed { AreSigned mesh.now (signs_of signatures.now) (length cert.now.cycles) }
    requires made { IsVertexCert mesh.now signatures.now.signatures cert.now }
    ensures valid { IfOk result (λ _. IsValidSheets mesh.now lengths.now cert.now) }
    ensures fits { SheetCertFits cert.now }
    ensures memory { IfErr result (λ e. e ≡ Memory) }
{
    mesh.law_of_surface();
    lengths.law_of_lengths();
    check_sheets(alloc, mesh, lengths, cert)
}

/// A certificate that the walks of a least basis, in the order of length, are one: cocycles that
/// elimination pairs with them, and for each of their edges a sheet over its first vertex. It is
/// valid for the mesh and the lengths, and its lists fit the lines of a text. It is refused only for
/// want of memory, for which more than 4,294,967,295 numbers of cocycles count too.
pub fn sheets_of_vertices(
    alloc: Global,
    mesh: &HalfMesh,
    lengths: &Lengths,
    cycles: Vec<Walk>,
) -> Result<SheetCert, NoMemory>
    requires lengths { length lengths.now ≡ edge_count mesh.now }
    requires few { loop_count mesh.now ≤ MAX_LOOPS }
    requires least { IsLeastBasis mesh.now lengths.now cycles.items }
    requires by_length { AreByLength mesh.now lengths.now cycles.items }
    ensures valid { IfOk result (IsValidSheets mesh.now lengths.now) }
    ensures cycles { IfOk result (λ cert. cert.cycles ≡ cycles.items) }
    ensures fits { IfOk result SheetCertFits }
{
    mesh.law_of_surface();
    lengths.law_of_lengths();
    let signatures = signatures_of(alloc, mesh, lengths)?;
    let cert = cert_from(alloc, mesh, &signatures, cycles)?;
    match judge(alloc, mesh, lengths, &signatures, &cert) {
        Ok(_) => Ok(cert),
        Err(_) => Err(NoMemory),
    }
}
