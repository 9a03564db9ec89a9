//! Finds evidence.
ghost use Rattle.std.specs.Prelude.{◌≡◌, ◌<◌, ℕ, Bool, filter, map, length, slice_index, true, false};
ghost use Rattle.std.specs.Prelude.{IfOk, MatchOption};
ghost use Rattle.std.specs.List.{range_with_len};
ghost use Rattle.std.specs.Option.{option_copied};
ghost use Rattle.surf_graphs.specs.Cells.{dual, IsSplit};
ghost use Rattle.surf_graphs.specs.Trees.{Tree};
ghost use Rattle.surf_signatures.specs.Signs.{has_left};
ghost use Rattle.surf_surfaces.specs.Cells.{cells_of};
ghost use Rattle.surf_surfaces.specs.Surface.{edge_count, face_count, ends};
ghost use Rattle.surf_cotree.specs.Grown.{IsGrownOn};
ghost use Rattle.surf_cotree.specs.Tables.{cotree_of, split_with};
ghost use Rattle.surf_treecheck.specs.Split.{AreFlags, is_flagged};
ghost use Rattle.surf_classes.specs.Evidence.{joint_parity, AreClosed, IsEvidence, IsChosen};
ghost use Rattle.surf_class.specs.Seen.{seen};
ghost use Rattle.surf_class.specs.Sides.{AreAllSidesOf, differs, is_inside};

use crate::cocycle::cocycle_flags;
use crate::edges::faces_beside;
use crate::evidence::{Evidence, FaceList, PairList};
use crate::flagged::{FlaggedMesh, PartedMesh};
use crate::parity::joint_flags;
use crate::sides::all_sides;
use std::alloc::Global;
use surf_base::{EdgeId, FaceId, NoMemory};
use surf_cotree::CotreeDesk;
use surf_mesh::{HalfMesh, Walk};

// Whether an edge is flagged and doesn't bound the faces inside, or does and isn't flagged.
fn is_differing(parted: &PartedMesh<'_>, edge: EdgeId) -> bool
    requires edge { edge < edge_count parted.now.mesh.now }
    ensures differs { (set : ℕ → Bool) → AreAllSidesOf set parted.now.sides.now →
        result ≡ differs parted.now.mesh.now parted.now.flags.now set
        edge }
{
    let sides = parted.sides;
    let (near, far) = faces_beside(parted.mesh, edge);
    let bounds = sides[near.index()] != sides[far.index()];
    parted.flags[edge.index()] != bounds
}

// The least place of a left edge that is flagged and doesn't bound the faces inside, or does and
// isn't flagged.
fn first_differing(parted: &PartedMesh<'_>, left: &[EdgeId]) -> Option<usize>
    requires left { (k : ℕ) → k < length left.now →
        slice_index left.now k < edge_count parted.now.mesh.now }
    ensures first { (set : ℕ → Bool) → AreAllSidesOf set parted.now.sides.now →
        MatchOption result ((k : ℕ) → k < length left.now →
        differs parted.now.mesh.now parted.now.flags.now set
        (slice_index left.now k) ≡ false)
        (λ n. (n < length left.now)
        × (differs parted.now.mesh.now parted.now.flags.now set
        (slice_index left.now n) ≡ true)
        × ((k : ℕ) → k < n →
        differs parted.now.mesh.now parted.now.flags.now set
        (slice_index left.now k) ≡ false)) }
{
    for k in 0..left.len() {
        if is_differing(parted, left[k]) {
            return Some(k);
        }
    }
    None
}

// The faces that are known to be in a set.
fn list_inside(alloc: Global, parted: &PartedMesh<'_>) -> Result<FaceList, NoMemory>
    ensures list { IfOk result (λ l. l ≡ filter (is_inside parted.now.sides.now)
        (range_with_len 0 (face_count parted.now.mesh.now))) }
{
    let mesh = parted.mesh;
    let sides = parted.sides;
    let mut faces = Vec::new(alloc);
    for f in 0..mesh.faces() {
        if sides[f as usize] == Some(true) {
            faces.push(FaceId::new(f))?;
        }
    }
    Ok(FaceList::from_faces(faces))
}

// The edges that are flagged.
fn list_flagged(alloc: Global, flagged: &FlaggedMesh<'_>) -> Result<PairList, NoMemory>
    ensures list { IfOk result (λ l. l ≡ map (ends flagged.now.mesh.now)
        (filter (is_flagged flagged.now.flags.now)
        (range_with_len 0 (edge_count flagged.now.mesh.now)))) }
{
    let mesh = flagged.mesh;
    let flags = flagged.flags;
    let mut pairs = Vec::new(alloc);
    for e in 0..mesh.edges() {
        if flags[e as usize] {
            pairs.push(mesh.ends(EdgeId::new(e)))?;
        }
    }
    Ok(PairList::from_pairs(pairs))
}

// The edges whose signature has the place of a left edge.
fn list_signed(
    alloc: Global,
    mesh: &HalfMesh,
    cotree: &CotreeDesk,
    edge: EdgeId,
) -> Result<PairList, NoMemory>
    requires grown { IsGrownOn mesh.now cotree.now }
    requires edge { edge < edge_count mesh.now }
    ensures list { IfOk result (λ l. l ≡ map (ends mesh.now) (filter
        (has_left (dual (cells_of mesh.now)) (cotree_of cotree.now) edge)
        (range_with_len 0 (edge_count mesh.now)))) }
{
    let flags = cocycle_flags(alloc, mesh, cotree, edge)?;
    let flagged = FlaggedMesh {
        mesh,
        flags: &flags,
    };
    list_flagged(alloc, &flagged)
}

/// The chosen evidence of the class of a closed walk, or of how the classes of two differ.
///
/// Where the edges that the walk runs an odd number of times, or exactly one of the two does, are
/// the boundary of some set of faces, it is the faces of that set without face 0. Else it is the
/// edges whose signature has the least number of the sum of the signatures of the walks. The desk
/// has grown a tree of the faces of this mesh; no signature is asked for.
pub fn classify(
    alloc: Global,
    mesh: &HalfMesh,
    cotree: &CotreeDesk,
    first: &Walk,
    second: Option<&Walk>,
) -> Result<Evidence, NoMemory>
    requires grown { IsGrownOn mesh.now cotree.now }
    requires closed { AreClosed mesh.now first.now (option_copied second) }
    ensures chosen { (tree : Tree) → IsSplit (cells_of mesh.now) (split_with tree cotree.now) →
        IfOk result (λ e. IsChosen mesh.now (split_with tree cotree.now)
        (joint_parity mesh.now first.now (option_copied second.entry)) (seen e)) }
    ensures right { IfOk result (λ e. IsEvidence mesh.now (joint_parity mesh.now first.now
        (option_copied second.entry)) (seen e)) }
{
    mesh.law_of_surface();
    let flags = joint_flags(alloc, mesh, first, second)?;
    let flagged = FlaggedMesh {
        mesh,
        flags: &flags,
    };
    let sides = all_sides(alloc, cotree, &flagged)?;
    let parted = PartedMesh {
        mesh,
        flags: flagged.flags,
        sides: &sides,
    };
    match first_differing(&parted, cotree.left()) {
        Some(k) => {
            let edge = cotree.left()[k];
            Ok(Evidence::Odd(list_signed(alloc, mesh, cotree, edge)?))
        }
        None => Ok(Evidence::Null(list_inside(alloc, &parted)?)),
    }
}
