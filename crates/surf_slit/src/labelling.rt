//! Labels of all corners at a vertex.
ghost use Rattle.std.specs.Prelude.{◌≡◌, ◌≢◌, ◌<◌, ◌≤◌, ◌+◌, ◌^◌, ℕ, length, slice_index};
ghost use Rattle.surf_z2.specs.Parity.{count_below};
ghost use Rattle.surf_surfaces.specs.Surface.{edge_count};
ghost use Rattle.surf_surfaces.specs.SideNumber.{side_count};
ghost use Rattle.surf_soup.specs.Ring.{BeginsAt};
ghost use Rattle.surf_slit.specs.Labels.{corner_at, IsLabelledAt};
ghost use Rattle.surf_slit.specs.Link.{run_of};
ghost use Rattle.surf_slit.specs.Place.{cut_behind};

use surf_base::{CopyId, EdgeId, SideId, VertexId};
use surf_mesh::HalfMesh;

// How many edges of a list are cut.
fn count_cut(edges: &[EdgeId], cut: &[bool]) -> u32
    requires few { length edges.now < 2 ^ 32 }
    requires inside { (k : ℕ) → k < length edges.now → slice_index edges.now k < length cut.now }
    ensures { result ≡ count_below (length edges.now) (cut_behind edges.now cut.now) }
{
    let mut count = 0;
    for k in 0..edges.len() {
        if cut[edges[k].index()] {
            count += 1;
        }
    }
    count
}

// Gives the corners of each run a label, from a first one on. So many of the edges are cut.
fn label_runs(
    ring: &[SideId],
    edges: &[EdgeId],
    cut: &[bool],
    cuts: u32,
    first: u32,
    labels: &mut [CopyId],
)
    requires size { length edges.now ≡ length ring.now }
    requires few { length ring.now < 2 ^ 30 }
    requires first { first < 2 ^ 30 }
    requires cuts { cuts ≡ count_below (length edges.now) (cut_behind edges.now cut.now) }
    requires edges { (k : ℕ) → k < length edges.now → slice_index edges.now k < length cut.now }
    requires sides { (k : ℕ) → k < length ring.now → slice_index ring.now k < length labels.old }
    requires differ { (i k : ℕ) → i < k → k < length ring.now →
        slice_index ring.now i ≢ slice_index ring.now k }
    ensures runs { (k : ℕ) → k < length ring.now → slice_index labels.new (slice_index ring.now k)
        ≡ first + run_of (length edges.now) (cut_behind edges.now cut.now) k }
    ensures kept { (s : ℕ) → ((k : ℕ) → k < length ring.now → slice_index ring.now k ≢ s) →
        slice_index labels.new s ≡ slice_index labels.old s }
{
    let mut run = 0;
    for k in 0..ring.len() {
        let shown = if run == cuts { 0 } else { run };
        labels[ring[k].index()] = CopyId::new(first + shown);
        if cut[edges[k].index()] {
            run += 1;
        }
    }
}

// Labels the corners at a vertex from a first label on, and says how many labels they have.
pub(crate) fn label_vertex(
    mesh: &HalfMesh,
    cut: &[bool],
    labels: &mut [CopyId],
    first: u32,
    v: VertexId,
) -> u32
    requires vertex { v < mesh.now.vertices }
    requires flags { length cut.now ≡ edge_count mesh.now }
    requires size { length labels.old ≡ side_count mesh.now }
    requires first { first ≤ side_count mesh.now }
    ensures few { result < 2 ^ 30 }
    ensures labelled { IsLabelledAt mesh.now cut.now labels.new v first result }
    ensures others { (s : ℕ) → s < side_count mesh.now → corner_at mesh.now s ≢ v →
        slice_index labels.new s ≡ slice_index labels.old s }
{
    mesh.law_of_surface();
    let (ring, edges) = mesh.round(v);
    let cuts = count_cut(edges, cut);
    label_runs(ring, edges, cut, cuts, first, labels);
    if cuts == 0 { 1 } else { cuts }
}

// Gives all corners at a vertex its number for a label.
pub(crate) fn label_whole(mesh: &HalfMesh, labels: &mut [CopyId], v: VertexId)
    requires vertex { v < mesh.now.vertices }
    requires size { length labels.old ≡ side_count mesh.now }
    ensures here { (s : ℕ) → BeginsAt mesh.now v s → slice_index labels.new s ≡ v }
    ensures others { (s : ℕ) → s < side_count mesh.now → corner_at mesh.now s ≢ v →
        slice_index labels.new s ≡ slice_index labels.old s }
{
    for side in mesh.ring(v) {
        labels[side.index()] = CopyId::new(v.number());
    }
}
