//! On which side of a boundary each face is.
ghost use Rattle.std.specs.Prelude.{◌≡◌, ◌≢◌, ◌<◌, ℕ, Bool, All, None, IsSome, IfOk, IfSome, MatchOption, length};
ghost use Rattle.std.specs.Prelude.{slice_index};
ghost use Rattle.surf_surfaces.specs.Surface.{edge_count, face_count};
ghost use Rattle.surf_cotree.specs.Grown.{IsGrownOn};
ghost use Rattle.surf_class.specs.Sides.{IsParted, AreSidesOf, AreAllSidesOf, side_at};

use crate::edges::faces_beside;
use crate::flagged::FlaggedMesh;
use std::alloc::Global;
use surf_base::{EdgeId, FaceId, NoMemory};
use surf_cotree::CotreeDesk;
use surf_mesh::HalfMesh;

/// The face that a face hangs on in the tree, and the edge between them. None for face 0.
pub(crate) fn above(mesh: &HalfMesh, cotree: &CotreeDesk, face: FaceId) -> Option<(FaceId, EdgeId)>
    requires grown { IsGrownOn mesh.now cotree.now }
    requires face { face < face_count mesh.now }
    ensures above { MatchOption result (face ≡ 0) (λ x. (face ≢ 0)
        × (x.0 ≡ slice_index cotree.now.parents face) × (x.1 ≡ slice_index cotree.now.ups face)) }
    ensures inside { IfSome result (λ x. (x.0 < face_count mesh.now) × (x.1 < edge_count mesh.now)
        × (slice_index cotree.now.depths x.0 < slice_index cotree.now.depths face)) }
{
    mesh.law_of_surface();
    let edge = cotree.parent_edge(face)?;
    let (near, far) = faces_beside(mesh, edge);
    let other = if near == face { far } else { near };
    Some((other, edge))
}

// The side of a face, by the first face on its way to face 0 whose side is known.
fn find_side(
    cotree: &CotreeDesk,
    flagged: &FlaggedMesh<'_>,
    sides: &[Option<bool>],
    face: FaceId,
) -> bool
    requires grown { IsGrownOn flagged.now.mesh.now cotree.now }
    requires sides { length sides.now ≡ face_count flagged.now.mesh.now }
    requires face { face < face_count flagged.now.mesh.now }
    ensures side { (set : ℕ → Bool) →
        IsParted flagged.now.mesh.now cotree.now flagged.now.flags.now set →
        AreSidesOf set sides.now → result ≡ set face }
{
    let mut at = face;
    let mut side = false;
    loop {
        if let Some(known) = sides[at.index()] {
            return side != known;
        }
        let Some((parent, edge)) = above(flagged.mesh, cotree, at) else {
            return side;
        };
        side = side != flagged.flags[edge.index()];
        at = parent;
    }
}

// Notes the side of a face, and those of the faces on its way to face 0 up to the first that is
// known.
fn note_sides(
    cotree: &CotreeDesk,
    flagged: &FlaggedMesh<'_>,
    sides: &mut [Option<bool>],
    face: FaceId,
    side: bool,
)
    requires grown { IsGrownOn flagged.now.mesh.now cotree.now }
    requires sides { length sides.old ≡ face_count flagged.now.mesh.now }
    requires face { face < face_count flagged.now.mesh.now }
    ensures right { (set : ℕ → Bool) →
        IsParted flagged.now.mesh.now cotree.now flagged.now.flags.now set →
        side ≡ set face → AreSidesOf set sides.old → AreSidesOf set sides.new }
    ensures known { IsSome (side_at sides.new face) }
    ensures kept { (f : ℕ) → IsSome (side_at sides.old f) → IsSome (side_at sides.new f) }
{
    let mut at = face;
    let mut side = side;
    while sides[at.index()].is_none() {
        sides[at.index()] = Some(side);
        let Some((parent, edge)) = above(flagged.mesh, cotree, at) else {
            return;
        };
        side = side != flagged.flags[edge.index()];
        at = parent;
    }
}

// Notes the sides of all faces.
fn note_all(cotree: &CotreeDesk, flagged: &FlaggedMesh<'_>, sides: &mut [Option<bool>])
    requires grown { IsGrownOn flagged.now.mesh.now cotree.now }
    requires sides { length sides.old ≡ face_count flagged.now.mesh.now }
    ensures right { (set : ℕ → Bool) →
        IsParted flagged.now.mesh.now cotree.now flagged.now.flags.now set →
        AreSidesOf set sides.old → AreSidesOf set sides.new }
    ensures known { (f : ℕ) → f < face_count flagged.now.mesh.now →
        IsSome (side_at sides.new f) }
{
    for f in 0..flagged.mesh.faces() {
        let face = FaceId::new(f);
        let side = find_side(cotree, flagged, sides, face);
        note_sides(cotree, flagged, sides, face, side);
    }
}

// Nothing is known of so many faces.
fn no_sides(alloc: Global, count: usize) -> Result<Vec<Option<bool>>, NoMemory>
    ensures count { IfOk result (λ v. length v.items ≡ count) }
    ensures none { IfOk result (λ v. All (λ o. o ≡ None) v.items) }
{
    Ok(vec![in alloc; None; count]?)
}

/// On which side of the flagged edges each face is, where they are the boundary of a set of faces:
/// whether it is in the set without face 0. Each face is climbed over twice at most.
pub(crate) fn all_sides(
    alloc: Global,
    cotree: &CotreeDesk,
    flagged: &FlaggedMesh<'_>,
) -> Result<Vec<Option<bool>>, NoMemory>
    requires grown { IsGrownOn flagged.now.mesh.now cotree.now }
    ensures count { IfOk result (λ v. length v.items ≡ face_count flagged.now.mesh.now) }
    ensures sides { IfOk result (λ v. (set : ℕ → Bool) →
        IsParted flagged.now.mesh.now cotree.now flagged.now.flags.now set →
        AreAllSidesOf set v.items) }
{
    let mut sides = no_sides(alloc, flagged.mesh.faces() as usize)?;
    note_all(cotree, flagged, &mut sides);
    Ok(sides)
}
