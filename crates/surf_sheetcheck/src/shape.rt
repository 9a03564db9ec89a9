//! Whether a certificate has the counts of the mesh.
ghost use Rattle.std.specs.Prelude.{MatchOption};
ghost use Rattle.surf_sheetcheck.specs.Valid.{HasSheetShape};
ghost use Rattle.surf_sheetcheck.specs.Faults.{IsSheetShapeFault};

use surf_mesh::HalfMesh;
use surf_records::SheetCert;
use surf_treecheck::{CertPart, is_full_count};

/// The first count of a certificate that isn't that of the mesh.
pub(crate) fn sheet_shape(mesh: &HalfMesh, cert: &SheetCert) -> Option<CertPart>
    ensures shape { MatchOption result (HasSheetShape mesh.now cert.now)
        (IsSheetShapeFault mesh.now cert.now) }
{
    if cert.vertices() != mesh.vertices() {
        return Some(CertPart::Vertices);
    }
    if cert.faces() != mesh.faces() {
        return Some(CertPart::Faces);
    }
    if !is_full_count(mesh, cert.cycles().len()) {
        return Some(CertPart::Loops);
    }
    None
}
