//! A tree of the faces of a surface, with a flag for each face.
ghost use Rattle.std.specs.Prelude.{◌≡◌, ◌∷◌, [], ◌<◌, ℕ, OnOk, IfOk, true};
ghost use Rattle.surf_z2.specs.Parity.{xor};
ghost use Rattle.surf_surfaces.specs.SideNumber.{side_count, IsFaceOf};
ghost use Rattle.surf_soup.specs.Reach.{marked};
ghost use Rattle.surf_check.specs.Growth.{TreeGrows, TreeGrowsOn, IsCrossed, IsFlagTree};

use crate::face_tree::FaceTree;
use std::alloc::Global;
use surf_base::{EdgeId, FaceId, NoMemory, SideId};
use surf_mesh::Surface;

// Face 0 alone.
fn start(alloc: Global, mesh: &Surface) -> Result<FaceTree, NoMemory>
    ensures { IfOk result (λ t. TreeGrows mesh.now t × (t.listed.items ≡ 0 ∷ [])) }
{
    let count = mesh.faces() as usize;
    let mut seen = vec![in alloc; false; count]?;
    seen[0] = true;
    let mut listed = Vec::with_capacity(alloc, count)?;
    listed.push(FaceId::new(0))?;
    Ok(FaceTree {
        parent: vec![in alloc; FaceId::new(0); count]?,
        up: vec![in alloc; EdgeId::new(0); count]?,
        rank: vec![in alloc; 0u32; count]?,
        flags: vec![in alloc; false; count]?,
        seen,
        listed,
    })
}

/// Whether exactly one holds.
pub(crate) fn differ(a: bool, b: bool) -> bool
    ensures { result ≡ xor a b }
{
    a != b
}

// Hangs the face across a side on the side's face, unless it is in the tree.
fn cross(mesh: &Surface, side: SideId, tree: &mut FaceTree) -> Result<(), NoMemory>
    requires side { side < side_count mesh.now }
    requires grows { TreeGrows mesh.now tree.old }
    requires from { (f : ℕ) → IsFaceOf mesh.now side f → marked tree.old.seen.items f ≡ true }
    ensures grows { OnOk result (TreeGrows mesh.now tree.new) }
    ensures on { OnOk result (TreeGrowsOn tree.old tree.new) }
    ensures crossed { OnOk result (IsCrossed mesh.now tree.new.seen.items side) }
{
    mesh.law_of_surface();
    let across = mesh.mate(side);
    let face = mesh.face_of(across);
    let parent = mesh.face_of(side);
    let up = mesh.edge_of(side);
    if tree.seen[face.index()] {
        return Ok(());
    }
    let same = mesh.tail(side) == mesh.tail(across);
    let flag = differ(same, tree.flags[parent.index()]);
    tree.hang(face, parent, up, flag)?;
    Ok(())
}

// Goes over each side of a face of the tree.
fn go_over(mesh: &Surface, face: FaceId, tree: &mut FaceTree) -> Result<(), NoMemory>
    requires face { marked tree.old.seen.items face ≡ true }
    requires grows { TreeGrows mesh.now tree.old }
    ensures grows { OnOk result (TreeGrows mesh.now tree.new) }
    ensures on { OnOk result (TreeGrowsOn tree.old tree.new) }
    ensures crossed { OnOk result ((s : ℕ) → IsFaceOf mesh.now s face →
        IsCrossed mesh.now tree.new.seen.items s) }
{
    let (start, end) = mesh.side_span(face);
    for s in start..end {
        cross(mesh, SideId::new(s), tree)?;
    }
    Ok(())
}

/// A tree of all faces, breadth first from face 0, with flags that its edges fit.
pub(crate) fn grow(alloc: Global, mesh: &Surface) -> Result<FaceTree, NoMemory>
    ensures { IfOk result (λ t. IsFlagTree mesh.now t) }
{
    mesh.law_of_surface();
    let mut tree = start(alloc, mesh)?;
    let mut k = 0;
    while k < tree.listed.len() {
        let face = tree.listed[k];
        go_over(mesh, face, &mut tree)?;
        k += 1;
    }
    Ok(tree)
}
