//! Grows a heaviest tree of faces of a mesh from face 0.
ghost use Rattle.std.specs.Prelude.{◌≡◌, ◌<◌, ◌≤◌, ◌&&◌, ◌-◌, ◌==◌, ℕ, Bool, true, not, length, slice_set, Some};
ghost use Rattle.surf_z2.specs.Parity.{count_below};
ghost use Rattle.surf_graphs.specs.Graphs.{joins};
ghost use Rattle.surf_graphs.specs.Cells.{dual};
ghost use Rattle.surf_surfaces.specs.Surface.{face_count, edge_count};
ghost use Rattle.surf_surfaces.specs.Cells.{cells_of};
ghost use Rattle.surf_heap.specs.Entries.{entry_of, lesser, IsEmpty};
ghost use Rattle.surf_base.specs.Tables.{nobody, at};
ghost use Rattle.surf_cotree.specs.Searches.{heaviest, reached, outside, flag, IsOffered, IsPrim, spanned_tree};

use crate::weights::Weights;
use surf_base::{EdgeId, FaceId, NOBODY, SideId};
use surf_heap::Heap;
use surf_mesh::HalfMesh;

/// What a search over the faces sees: a mesh, whose edges join faces where they have no mark.
#[derive(Drop)]
pub(crate) struct FaceNetwork<'a> {
    pub mesh: &'a HalfMesh,
    pub marks: &'a [bool],
    pub ghost fit: { length marks.now ≡ edge_count mesh.now },
}

/// Which faces a search has reached.
pub(crate) trait Reached {
    // whether each face is reached
    ghost reaches: { Self → ℕ → Bool };

    // of how many faces it is told
    ghost count: { Self → ℕ };

    fn reaches(&self, face: FaceId) -> bool
        requires face { face < count self.now }
        ensures reaches { result ≡ reaches self.now face };
}

/// Faces that are reached where they have a depth.
#[derive(Drop)]
pub(crate) struct ByDepth<'a> {
    pub depth: &'a [u32],
}

impl Reached for ByDepth<'_> {
    ghost reaches = { λ r. reached r.depth.now };

    ghost count = { λ r. length r.depth.now };

    #[inline]
    fn reaches(&self, face: FaceId) -> bool {
        self.depth[face.index()] != NOBODY
    }
}

/// Faces that are reached where they have a flag.
#[derive(Drop)]
pub(crate) struct ByFlag<'a> {
    pub flags: &'a [bool],
}

impl Reached for ByFlag<'_> {
    ghost reaches = { λ r. flag r.flags.now };

    ghost count = { λ r. length r.flags.now };

    #[inline]
    fn reaches(&self, face: FaceId) -> bool {
        self.flags[face.index()]
    }
}

// Whether an edge isn't marked and leads to a face that isn't reached.
fn leads_on<R: Reached>(marks: &[bool], there: &R, edge: EdgeId, face: FaceId) -> bool
    requires edge { edge < length marks.now }
    requires face { face < R.count there.now }
    ensures leads { result ≡ (outside marks.now edge && not (R.reaches there.now face)) }
{
    !marks[edge.index()] && !there.reaches(face)
}

// Offers a face to the heap by an edge that leads to it: the heavier the edge, the lesser the
// entry.
fn offer_by<W: Weights>(heap: &mut Heap, weight: &W, edge: EdgeId, face: FaceId)
    requires face { face < length heap.old }
    requires edge { edge < W.count weight.now }
    ensures entry { heap.new ≡ slice_set heap.old face (Some (lesser (entry_of heap.old face)
        (heaviest - W.weight weight.now edge) (nobody - edge))) }
{
    let key = u64::MAX - weight.weight_of(edge);
    heap.offer(face.number(), key, NOBODY - edge.number());
}

/// Offers the unreached neighbours of a face to the heap.
pub(crate) fn offer_neighbours<W: Weights, R: Reached>(
    network: &FaceNetwork<'_>,
    weight: &W,
    there: &R,
    heap: &mut Heap,
    face: u32,
)
    requires face { face < face_count network.now.mesh.now }
    requires faces { R.count there.now ≡ face_count network.now.mesh.now }
    requires weights { W.count weight.now ≡ edge_count network.now.mesh.now }
    requires places { length heap.old ≡ face_count network.now.mesh.now }
    ensures offered { IsOffered (dual (cells_of network.now.mesh.now))
        (outside network.now.marks.now) (W.weight weight.now) (R.reaches there.now)
        face heap.old heap.new }
{
    network.mesh.law_of_surface();
    let (start, end) = network.mesh.side_span(FaceId::new(face));
    for s in start..end {
        let (next, edge) = network.mesh.across(SideId::new(s));
        if leads_on(network.marks, there, edge, next) {
            offer_by(heap, weight, edge, next);
        }
    }
}

// The face on the other side of an edge.
pub(crate) fn face_across(mesh: &HalfMesh, edge: u32, face: u32) -> u32
    requires edge { edge < edge_count mesh.now }
    ensures across { (a : ℕ) → joins (dual (cells_of mesh.now)) face a edge ≡ true → result ≡ a }
{
    let (near, far) = mesh.faces_of(EdgeId::new(edge));
    let (near, far) = (near.number(), far.number());
    if near == face { far } else { near }
}

// Grows the heaviest tree of the faces that edges without a mark join to face 0.
pub(crate) fn span<W: Weights>(
    network: &FaceNetwork<'_>,
    weight: &W,
    heap: &mut Heap,
    depth: &mut [u32],
    parent: &mut [u32],
    up: &mut [u32],
)
    requires depths { length depth.old ≡ face_count network.now.mesh.now }
    requires parents { length parent.old ≡ face_count network.now.mesh.now }
    requires ups { length up.old ≡ face_count network.now.mesh.now }
    requires weights { W.count weight.now ≡ edge_count network.now.mesh.now }
    requires places { length heap.old ≡ face_count network.now.mesh.now }
    ensures grown { IsPrim (dual (cells_of network.now.mesh.now)) (outside network.now.marks.now)
        (W.weight weight.now) (reached depth.new) (spanned_tree 0 parent.new up.new depth.new)
        heap.new (count_below (face_count network.now.mesh.now) (λ f. at depth.new f == nobody)) }
    ensures empty { IsEmpty heap.new }
    ensures root { at up.new 0 ≡ nobody }
    ensures places { length heap.new ≡ face_count network.now.mesh.now }
{
    network.mesh.law_of_surface();
    depth.fill(NOBODY);
    depth[0] = 0;
    up[0] = NOBODY;
    heap.clear();
    offer_neighbours(network, weight, &ByDepth { depth }, heap, 0);
    while let Some((face, _, tie)) = heap.take_least() {
        let edge = NOBODY - tie;
        let from = face_across(network.mesh, edge, face);
        depth[face as usize] = depth[from as usize] + 1;
        parent[face as usize] = from;
        up[face as usize] = edge;
        offer_neighbours(network, weight, &ByDepth { depth }, heap, face);
    }
}
