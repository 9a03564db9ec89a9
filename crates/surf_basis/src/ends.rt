//! Ends of the edges whose signatures aren't empty.
ghost use Rattle.std.specs.Prelude.{◌≡◌, ◌≢◌, ◌<◌, ◌⊎◌, ℕ, false, true, All, IfOk, length, slice_index, slice_index_or};
ghost use Rattle.surf_surfaces.specs.Surface.{edge_count};
ghost use Rattle.surf_basis.specs.Ends.{AreSignedEnds, HasMarkedEnd, IsBusierEnd};

use std::alloc::Global;
use surf_base::{EdgeId, NoMemory, VertexId};
use surf_finder::{EdgeSigns, list_marked};
use surf_mesh::HalfMesh;
use surf_search::{count_signed, lesser_first};

// Marks the second of two vertices, unless the first is marked.
fn mark_one(first: VertexId, second: VertexId, marked: &mut [bool])
    requires inside { (first < length marked.old) × (second < length marked.old) }
    ensures one { (slice_index_or marked.new first false ≡ true)
        ⊎ (slice_index_or marked.new second false ≡ true) }
    ensures stay { (v : ℕ) → slice_index_or marked.old v false ≡ true →
        slice_index_or marked.new v false ≡ true }
    ensures only { (v : ℕ) → slice_index_or marked.new v false ≡ true →
        (slice_index_or marked.old v false ≡ true) ⊎ (v ≡ second) }
    ensures kept { slice_index_or marked.old first false ≡ true → marked.new ≡ marked.old }
    ensures count { length marked.new ≡ length marked.old }
{
    if !marked[first.index()] {
        marked[second.index()] = true;
    }
}

// Marks an end of each edge whose signature isn't empty: the one at which there are more such edges
// in all, unless the other one is marked. So few vertices are marked.
fn mark_ends(mesh: &HalfMesh, signatures: &EdgeSigns, degrees: &[u32], marked: &mut [bool])
    requires table { length signatures.now.signatures ≡ edge_count mesh.now }
    requires degrees { length degrees.now ≡ mesh.now.vertices }
    requires marks { length marked.old ≡ mesh.now.vertices }
    ensures marks { length marked.new ≡ mesh.now.vertices }
    ensures ends { (e : ℕ) → e < edge_count mesh.now → slice_index signatures.now.signatures e ≢ 0 →
        HasMarkedEnd mesh.now marked.new e }
    ensures only { (v : ℕ) → slice_index_or marked.new v false ≡ true →
        (slice_index_or marked.old v false ≡ true)
        ⊎ IsBusierEnd mesh.now signatures.now (slice_index degrees.now) v }
{
    mesh.law_of_surface();
    for e in 0..mesh.edges() {
        let edge = EdgeId::new(e);
        if signatures.is_signed(edge) {
            let (low, high) = mesh.ends(edge);
            let (less, more) = lesser_first(degrees, low, high);
            mark_one(less, more, marked);
        }
    }
}

// Ends of the edges whose signatures aren't empty, one of each edge at least, each once; each is the
// end of such an edge at which there are more of them. Every closed walk that isn't null has such an
// edge, and so meets one of them.
pub(crate) fn signed_ends(
    alloc: Global,
    mesh: &HalfMesh,
    signatures: &EdgeSigns,
) -> Result<Vec<VertexId>, NoMemory>
    requires table { length signatures.now.signatures ≡ edge_count mesh.now }
    ensures inside { IfOk result (λ list. All (λ v. v < mesh.now.vertices) list.items) }
    ensures ends { IfOk result (λ list. AreSignedEnds mesh.now signatures.now list.items) }
{
    let mut degrees = vec![in alloc; 0u32; mesh.vertices() as usize]?;
    count_signed(mesh, signatures, &mut degrees);
    let mut marked = vec![in alloc; false; mesh.vertices() as usize]?;
    mark_ends(mesh, signatures, &degrees, &mut marked);
    list_marked(alloc, &marked)
}
