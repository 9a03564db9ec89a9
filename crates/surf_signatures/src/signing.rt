//! Writes the signatures of edges into a flat table.
ghost use Rattle.std.specs.Prelude.{◌≡◌, ◌≢◌, ◌<◌, ◌≤◌, ◌*◌, ◌^◌, ◌&&◌, ◌⊎◌, ℕ, false, eqb, length};
ghost use Rattle.surf_z2.specs.Parity.{xor};
ghost use Rattle.surf_graphs.specs.Cells.{dual};
ghost use Rattle.surf_graphs.specs.Growth.{between};
ghost use Rattle.surf_graphs.specs.Trees.{IsTree};
ghost use Rattle.surf_surfaces.specs.Surface.{face_count, edge_count};
ghost use Rattle.surf_surfaces.specs.Cells.{cells_of};
ghost use Rattle.surf_base.specs.Tables.{at};
ghost use Rattle.surf_signatures.specs.Signs.{cell, sign_bit, has_left};
ghost use Rattle.surf_signatures.specs.Tables.{face_tree};

use surf_base::EdgeId;
use surf_mesh::HalfMesh;

/// A tree of the faces of a mesh by three tables: for each face but face 0 the face that it hangs on
/// and the edge between them, and for each face its depth.
#[derive(Drop)]
pub(crate) struct FaceTree<'t> {
    pub mesh: &'t HalfMesh,
    pub parent: &'t [u32],
    pub up: &'t [u32],
    pub depth: &'t [u32],
    pub ghost ups: { length up.now ≡ face_count mesh.now },
    pub ghost parents: { length parent.now ≡ face_count mesh.now },
    pub ghost spans: { IsTree (dual (cells_of mesh.now))
        (face_tree parent.now up.now depth.now) },
}

// Tells proofs the range of the words.
fn words_fit(signs: &[u64])
    ensures fit { (k : ℕ) → at signs.now k < 2 ^ 64 }
{}

// Turns bit `k` of an edge.
fn toggle(signs: &mut [u64], words: usize, edge: usize, k: usize)
    requires bit { k < 64 * words }
    requires cell { cell words edge k < length signs.old }
    ensures turned { (e j : ℕ) → j < 64 * words →
        sign_bit signs.new words e j ≡ xor (sign_bit signs.old words e j) (eqb edge e && eqb k j) }
{
    words_fit(signs);
    signs[edge * words + k / 64] ^= 1 << (k % 64);
}

// How deep a face is. A face that the table hasn't has depth 0.
fn depth_of(depth: &[u32], face: u32) -> u32
    ensures depth { result ≡ at depth.now face }
{
    if (face as usize) < depth.len() {
        depth[face as usize]
    } else {
        0
    }
}

// Two faces, the deeper one first, and never face 0.
fn deeper_first(tree: &FaceTree<'_>, near: u32, far: u32) -> (u32, u32)
    requires apart { near ≢ far }
    ensures both { ((result.0 ≡ near) × (result.1 ≡ far))
        ⊎ ((result.0 ≡ far) × (result.1 ≡ near)) }
    ensures below { result.0 ≢ 0 }
{
    let no_deeper = depth_of(tree.depth, far) <= depth_of(tree.depth, near);
    if far == 0 || (near != 0 && no_deeper) {
        (near, far)
    } else {
        (far, near)
    }
}

// Turns bit `k` of the edges between two faces, from both up to where their ways meet.
fn turn_between(tree: &FaceTree<'_>, signs: &mut [u64], words: usize, ends: (u32, u32), k: usize)
    requires faces { (ends.0 < face_count tree.now.mesh.now)
        × (ends.1 < face_count tree.now.mesh.now) }
    requires bit { k < 64 * words }
    requires room { length signs.old ≡ edge_count tree.now.mesh.now * words }
    ensures turned { (e j : ℕ) → j < 64 * words →
        sign_bit signs.new words e j ≡ xor (sign_bit signs.old words e j)
        (between (face_tree tree.now.parent.now tree.now.up.now tree.now.depth.now)
        ends.0 ends.1 e && eqb k j) }
{
    tree.mesh.law_of_surface();
    let mut near = ends.0;
    let mut far = ends.1;
    while near != far {
        let (face, other) = deeper_first(tree, near, far);
        toggle(signs, words, tree.up[face as usize] as usize, k);
        near = tree.parent[face as usize];
        far = other;
    }
}

// The two faces of an edge.
fn faces_beside(mesh: &HalfMesh, edge: EdgeId) -> (u32, u32)
    requires edge { edge < edge_count mesh.now }
    ensures near { result.0 ≡ (dual (cells_of mesh.now)).from edge }
    ensures far { result.1 ≡ (dual (cells_of mesh.now)).to edge }
    ensures inside { (result.0 < face_count mesh.now) × (result.1 < face_count mesh.now) }
{
    mesh.law_of_surface();
    let (near, far) = mesh.faces_of(edge);
    (near.number(), far.number())
}

// Writes the signatures of all edges: each left edge has its own place, and so have the edges of
// the tree between its two faces.
pub(crate) fn write_signs(tree: &FaceTree<'_>, left: &[EdgeId], signs: &mut [u64], words: usize)
    requires left { (k : ℕ) → k < length left.now → at left.now k < edge_count tree.now.mesh.now }
    requires bits { length left.now ≤ 64 * words }
    requires room { length signs.old ≡ edge_count tree.now.mesh.now * words }
    ensures fit { (k : ℕ) → at signs.new k < 2 ^ 64 }
    ensures rest { (e k : ℕ) → length left.now ≤ k → k < 64 * words →
        sign_bit signs.new words e k ≡ false }
    ensures signature { (e k : ℕ) → k < length left.now →
        sign_bit signs.new words e k ≡ has_left (dual (cells_of tree.now.mesh.now))
        (face_tree tree.now.parent.now tree.now.up.now tree.now.depth.now) (at left.now k) e }
{
    tree.mesh.law_of_surface();
    signs.fill(0);
    for k in 0..left.len() {
        let edge = left[k];
        toggle(signs, words, edge.index(), k);
        turn_between(tree, signs, words, faces_beside(tree.mesh, edge), k);
    }
    words_fit(signs);
}
