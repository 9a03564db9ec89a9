//! Whether the cocycles are cocycles.
ghost use Rattle.std.specs.Prelude.{◌≡◌, ◌<◌};
ghost use Rattle.surf_surfaces.specs.Surface.{face_count};
ghost use Rattle.surf_treecheck.specs.First.{FindsFirst, Tells};
ghost use Rattle.surf_sheetcheck.specs.Cocycles.{face_set};
ghost use Rattle.surf_sheetcheck.specs.Valid.{IsEvenFace};
ghost use Rattle.surf_sheetcheck.specs.Tables.{IsReady};

use crate::cases::SheetCase;
use crate::sets::add_set;
use surf_base::{FaceId, SideId};
use surf_bits::Signature;

// The set of the cocycles that have an odd number of the sides of a face.
fn face_sum(case: &SheetCase<'_>, f: FaceId) -> Signature
    requires ready { IsReady case.now }
    requires face { f < face_count case.now.mesh.now }
    ensures sum { result ≡ face_set case.now.mesh.now case.now.cert.now f }
{
    let mut sum = Signature::zero();
    let (start, end) = case.mesh.side_span(f);
    for s in start..end {
        add_set(case, case.mesh.edge_of(SideId::new(s)), &mut sum);
    }
    sum
}

// Whether each cocycle has an even number of the sides of a face.
fn is_even(case: &SheetCase<'_>, f: FaceId) -> bool
    requires ready { IsReady case.now }
    requires face { f < face_count case.now.mesh.now }
    ensures even { Tells result (IsEvenFace case.now.mesh.now case.now.cert.now f) }
{
    face_sum(case, f).bits().is_empty()
}

/// The least face of whose sides an odd number are in some cocycle.
pub(crate) fn first_odd_face(case: &SheetCase<'_>) -> Option<FaceId>
    requires ready { IsReady case.now }
    ensures first { FindsFirst (face_count case.now.mesh.now)
        (IsEvenFace case.now.mesh.now case.now.cert.now) result }
{
    for f in 0..case.mesh.faces() {
        let face = FaceId::new(f);
        if !is_even(case, face) {
            return Some(face);
        }
    }
    None
}
