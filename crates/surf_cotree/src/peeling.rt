//! Takes off the faces that hang on the others by one edge, and hangs them on again.
ghost use Rattle.std.specs.Prelude.{◌≡◌, ◌<◌, ◌+◌, ◌⊎◌, ℕ, Bool, true, false, length, IfSome};
ghost use Rattle.surf_graphs.specs.Graphs.{joins};
ghost use Rattle.surf_graphs.specs.Cells.{dual};
ghost use Rattle.surf_surfaces.specs.Surface.{face_count, edge_count};
ghost use Rattle.surf_surfaces.specs.Cells.{cells_of};
ghost use Rattle.surf_surfaces.specs.SideNumber.{side_count};
ghost use Rattle.surf_mesh.specs.Links.{side_link};
ghost use Rattle.surf_cotree.specs.Searches.{outside, reached};
ghost use Rattle.surf_cotree.specs.Peeling.{IsOnlyEdge, TakesLeaf, IsPeeledBy, IsPeeledTo, IsHungBy};

use crate::search::FaceNetwork;
use surf_base::{EdgeId, FaceId, NOBODY, SideId};
use surf_mesh::HalfMesh;

// A face with more sides than these is walked round only where it may hang by one edge, which the
// number of its sides without a mark tells.
const FEW_SIDES: u32 = 8;

// Whether the edge of a side has no mark.
fn is_bare(network: &FaceNetwork<'_>, side: SideId) -> bool
    requires side { side < side_count network.now.mesh.now }
    ensures bare { result ≡ outside network.now.marks.now
        (side_link network.now.mesh.now side).1 }
{
    let marks = network.marks;
    let edge = network.mesh.edge_of(side);
    !marks[edge.index()]
}

// The side of a face whose edge isn't marked, where there is exactly one.
fn only_side(network: &FaceNetwork<'_>, face: FaceId) -> Option<SideId>
    requires face { face < face_count network.now.mesh.now }
    ensures side { IfSome result (λ s. s < side_count network.now.mesh.now) }
    ensures only { IfSome result (λ s. IsOnlyEdge (dual (cells_of network.now.mesh.now))
        (outside network.now.marks.now) face (side_link network.now.mesh.now s).0
        (side_link network.now.mesh.now s).1) }
{
    let mesh = network.mesh;
    mesh.law_of_surface();
    let mut found = None;
    let (start, end) = mesh.side_span(face);
    for s in start..end {
        let side = SideId::new(s);
        if is_bare(network, side) {
            if found.is_some() {
                return None;
            }
            found = Some(side);
        }
    }
    found
}

// How many sides of a face have no mark.
fn count_bare(network: &FaceNetwork<'_>, face: FaceId) -> u32
    requires face { face < face_count network.now.mesh.now }
{
    let mut count: u32 = 0;
    let (start, end) = network.mesh.side_span(face);
    for s in start..end {
        if is_bare(network, SideId::new(s)) {
            count = count.saturating_add(1);
        }
    }
    count
}

// Whether a face has so many sides that those without a mark are counted.
fn is_great(mesh: &HalfMesh, face: FaceId) -> bool
    requires face { face < face_count mesh.now }
{
    let (start, end) = mesh.side_span(face);
    end - start > FEW_SIDES
}

// Whether a face may hang by one edge, when its turn comes. Of a great face the sides without a
// mark are counted. Nothing but time rests on the counts, since a face is walked round before it is
// taken off.
fn may_hang(network: &FaceNetwork<'_>, bare: &mut [u32], face: u32) -> bool
    requires face { face < face_count network.now.mesh.now }
    requires counts { length bare.old ≡ face_count network.now.mesh.now }
{
    if !is_great(network.mesh, FaceId::new(face)) {
        return true;
    }
    let count = count_bare(network, FaceId::new(face));
    bare[face as usize] = count;
    count == 1
}

// Whether a face may hang by one edge, when one more of its edges has been marked. A face past the
// last one that had its turn waits for its own. The count of a great face falls, so that it isn't
// walked round for each of its edges.
fn may_hang_now(mesh: &HalfMesh, bare: &mut [u32], last: u32, face: u32) -> bool
    requires face { face < face_count mesh.now }
    requires counts { length bare.old ≡ face_count mesh.now }
{
    if face > last {
        return false;
    }
    if !is_great(mesh, FaceId::new(face)) {
        return true;
    }
    let count = bare[face as usize].saturating_sub(1);
    bare[face as usize] = count;
    count == 1
}

// Takes a face off that hangs on the others by one edge without a mark, marks the edge, and gives
// it with the face that it hung on. Face 0 stays.
fn take_leaf(mesh: &HalfMesh, marks: &mut [bool], face: u32) -> Option<(EdgeId, u32)>
    requires face { face < face_count mesh.now }
    requires marks { length marks.old ≡ edge_count mesh.now }
    ensures taken { TakesLeaf (dual (cells_of mesh.now)) marks.old marks.new face result }
{
    mesh.law_of_surface();
    if face == 0 {
        return None;
    }
    let side = only_side(&FaceNetwork { mesh, marks }, FaceId::new(face))?;
    let (on, edge) = mesh.across(side);
    marks[edge.index()] = true;
    Some((edge, on.number()))
}

// Takes a face off that hangs by one edge, and then each face that hangs by one edge when the one
// before it has gone, and lists the edges. A face past the first one waits for its turn.
fn list_chain(
    mesh: &HalfMesh,
    marks: &mut [bool],
    bare: &mut [u32],
    leaves: &mut [EdgeId],
    taken: usize,
    from: u32,
) -> usize
    requires face { from < face_count mesh.now }
    requires marks { length marks.old ≡ edge_count mesh.now }
    requires counts { length bare.old ≡ face_count mesh.now }
    ensures peeled { (allowed : ℕ → Bool) → IsPeeledBy (dual (cells_of mesh.now))
        allowed leaves.old taken (outside marks.old) →
        IsPeeledBy (dual (cells_of mesh.now)) allowed leaves.new result (outside marks.new) }
{
    let mut count = taken;
    let mut face = from;
    let mut hangs = may_hang(&FaceNetwork { mesh, marks }, bare, from);
    while hangs && count < leaves.len() {
        let Some((edge, on)) = take_leaf(mesh, marks, face) else {
            break;
        };
        leaves[count] = edge;
        count += 1;
        face = on;
        hangs = may_hang_now(mesh, bare, from, on);
    }
    count
}

/// Takes the faces off that hang on the others by one edge without a mark, one after the other, and
/// marks these edges. It lists them and gives their number. `bare` has room for a number of each
/// face.
pub(crate) fn list_peeled(
    mesh: &HalfMesh,
    marks: &mut [bool],
    bare: &mut [u32],
    leaves: &mut [EdgeId],
) -> usize
    requires marks { length marks.old ≡ edge_count mesh.now }
    requires counts { length bare.old ≡ face_count mesh.now }
    ensures peeled { IsPeeledBy (dual (cells_of mesh.now)) (outside marks.old) leaves.new result
        (outside marks.new) }
{
    let mut count = 0;
    for face in 0..mesh.faces() {
        count = list_chain(mesh, marks, bare, leaves, count, face);
    }
    count
}

// Takes a face off that hangs by one edge, and then each face that hangs by one edge when the one
// before it has gone. A face past the first one waits for its turn.
fn take_chain(mesh: &HalfMesh, marks: &mut [bool], bare: &mut [u32], from: u32)
    requires face { from < face_count mesh.now }
    requires marks { length marks.old ≡ edge_count mesh.now }
    requires counts { length bare.old ≡ face_count mesh.now }
    ensures peeled { (allowed : ℕ → Bool) → IsPeeledTo (dual (cells_of mesh.now)) allowed
        (outside marks.old) → IsPeeledTo (dual (cells_of mesh.now)) allowed (outside marks.new) }
{
    let mut face = from;
    let mut hangs = may_hang(&FaceNetwork { mesh, marks }, bare, from);
    while hangs {
        let Some((_, on)) = take_leaf(mesh, marks, face) else {
            break;
        };
        face = on;
        hangs = may_hang_now(mesh, bare, from, on);
    }
}

/// Takes the faces off that hang on the others by one edge without a mark, one after the other, and
/// marks these edges. `bare` has room for a number of each face.
pub(crate) fn peel(mesh: &HalfMesh, marks: &mut [bool], bare: &mut [u32])
    requires marks { length marks.old ≡ edge_count mesh.now }
    requires counts { length bare.old ≡ face_count mesh.now }
    ensures peeled { IsPeeledTo (dual (cells_of mesh.now)) (outside marks.old)
        (outside marks.new) }
{
    for face in 0..mesh.faces() {
        take_chain(mesh, marks, bare, face);
    }
}

// The face of an edge that isn't reached, and the face beyond it. Where neither is reached it may
// be either.
fn leaf_of(mesh: &HalfMesh, depth: &[u32], edge: EdgeId) -> (u32, u32)
    requires edge { edge < edge_count mesh.now }
    requires depths { length depth.now ≡ face_count mesh.now }
    ensures leaf { (f a : ℕ) → joins (dual (cells_of mesh.now)) f a edge ≡ true →
        reached depth.now f ≡ false → ((result.0 ≡ f) × (result.1 ≡ a)) ⊎
        ((result.0 ≡ a) × (result.1 ≡ f) × (reached depth.now a ≡ false)) }
{
    mesh.law_of_surface();
    let (near, far) = mesh.faces_of(edge);
    if depth[near.index()] == NOBODY {
        (near.number(), far.number())
    } else {
        (far.number(), near.number())
    }
}

/// Hangs the faces that were taken off on the tree again, the last first. The edge by which each
/// hangs tells it: that of the two faces of the edge which isn't reached yet.
pub(crate) fn hang(
    mesh: &HalfMesh,
    leaves: &[EdgeId],
    count: usize,
    depth: &mut [u32],
    parent: &mut [u32],
    up: &mut [u32],
)
    requires depths { length depth.old ≡ face_count mesh.now }
    requires parents { length parent.old ≡ face_count mesh.now }
    requires ups { length up.old ≡ face_count mesh.now }
    requires some { (allowed : ℕ → Bool) × (weight : ℕ → ℕ)
        × IsHungBy (dual (cells_of mesh.now)) allowed weight leaves.now count parent.old
        up.old depth.old }
    ensures hung { (allowed : ℕ → Bool) (weight : ℕ → ℕ) →
        IsHungBy (dual (cells_of mesh.now)) allowed weight leaves.now count parent.old up.old
        depth.old → IsHungBy (dual (cells_of mesh.now))
        allowed weight leaves.now 0 parent.new up.new depth.new }
{
    mesh.law_of_surface();
    for k in (0..count).rev() {
        let edge = leaves[k];
        let (face, on) = leaf_of(mesh, depth, edge);
        if depth[on as usize] != NOBODY {
            depth[face as usize] = depth[on as usize] + 1;
            parent[face as usize] = on;
            up[face as usize] = edge.number();
        }
    }
}
