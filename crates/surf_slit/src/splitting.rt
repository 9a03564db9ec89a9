//! Labels where one edge more is cut.
ghost use Rattle.std.specs.Prelude.{◌≡◌, ◌≢◌, ◌<◌, ◌≤◌, ◌+◌, ◌^◌, ℕ, true, false, length, MatchOption, slice_index};
ghost use Rattle.std.specs.Prelude.{slice_index_or, slice_set};
ghost use Rattle.surf_surfaces.specs.Surface.{edge_count};
ghost use Rattle.surf_surfaces.specs.SideNumber.{side_count};
ghost use Rattle.surf_soup.specs.Ring.{IsEdgeAt};
ghost use Rattle.surf_slit.specs.Labels.{corner_at, AgreeAt, AreNumbers, AreLabels};
ghost use Rattle.surf_slit.specs.Place.{place, NoneCut, IsNextCut};

use surf_base::{CopyId, EdgeId, SideId, VertexId};
use surf_mesh::HalfMesh;

// The place of an edge in a list.
fn place_of(edges: &[EdgeId], e: EdgeId) -> usize
    requires { (k : ℕ) × (k < length edges.now) × (slice_index edges.now k ≡ e) }
    ensures within { result < length edges.now }
    ensures found { slice_index edges.now result ≡ e }
{
    for k in 0..edges.len() {
        if edges[k] == e {
            return k;
        }
    }
    unreachable!()
}

// Around a vertex, the place that is one and some further steps after another one.
fn step_from(count: usize, from: usize, steps: usize) -> usize
    requires few { count < 2 ^ 32 }
    requires from { from < count }
    requires steps { steps < count }
    ensures { result ≡ place count from steps }
{
    let k = from + 1 + steps;
    if k < count { k } else { k - count }
}

// How many uncut edges follow that at a place, up to the next cut one.
fn next_cut(edges: &[EdgeId], cut: &[bool], from: usize) -> Option<usize>
    requires few { length edges.now < 2 ^ 32 }
    requires from { from < length edges.now }
    requires inside { (k : ℕ) → k < length edges.now → slice_index edges.now k < length cut.now }
    ensures { MatchOption result (NoneCut edges.now cut.now from)
        (λ q. IsNextCut edges.now cut.now from q) }
{
    for steps in 0..edges.len() - 1 {
        let k = step_from(edges.len(), from, steps);
        if cut[edges[k].index()] {
            return Some(steps);
        }
    }
    None
}

// Gives the corners that follow a place one label.
fn relabel(ring: &[SideId], labels: &mut [CopyId], from: usize, count: usize, label: u32)
    requires few { length ring.now < 2 ^ 32 }
    requires from { from < length ring.now }
    requires count { count ≤ length ring.now }
    requires inside { (k : ℕ) → k < length ring.now → slice_index ring.now k < length labels.old }
    ensures split { (d : ℕ) → d < count → slice_index labels.new (slice_index ring.now
        (place (length ring.now) from d)) ≡ label }
    ensures kept { (s : ℕ) → ((d : ℕ) → d < count →
        slice_index ring.now (place (length ring.now) from d) ≢ s) →
        slice_index labels.new s ≡ slice_index labels.old s }
{
    for steps in 0..count {
        let k = step_from(ring.len(), from, steps);
        labels[ring[k].index()] = CopyId::new(label);
    }
}

// Splits the corners at an end of an edge that is cut besides, and counts the labels.
pub(crate) fn split_at(
    mesh: &HalfMesh,
    cut: &[bool],
    labels: &mut [CopyId],
    count: u32,
    v: VertexId,
    e: EdgeId,
) -> u32
    requires vertex { v < mesh.now.vertices }
    requires edge { IsEdgeAt mesh.now v e }
    requires flags { length cut.now ≡ edge_count mesh.now }
    requires is_cut { slice_index_or cut.now e false ≡ true }
    requires numbers { AreNumbers mesh.now labels.old count }
    requires agree { AgreeAt mesh.now (slice_set cut.now e false) labels.old v }
    ensures numbers { AreNumbers mesh.now labels.new result }
    ensures agree { AgreeAt mesh.now cut.now labels.new v }
    ensures others { (s : ℕ) → s < side_count mesh.now → corner_at mesh.now s ≢ v →
        slice_index labels.new s ≡ slice_index labels.old s }
{
    mesh.law_of_surface();
    let (ring, edges) = mesh.round(v);
    let from = place_of(edges, e);
    match next_cut(edges, cut, from) {
        None => count,
        Some(steps) => {
            relabel(ring, labels, from, steps + 1, count);
            count + 1
        }
    }
}

// Splits the corners at both ends of an edge that is cut besides, and counts the labels.
pub(crate) fn split_ends(
    mesh: &HalfMesh,
    cut: &[bool],
    labels: &mut [CopyId],
    count: u32,
    e: EdgeId,
) -> u32
    requires edge { e < edge_count mesh.now }
    requires flags { length cut.now ≡ edge_count mesh.now }
    requires is_cut { slice_index_or cut.now e false ≡ true }
    requires labels { AreLabels mesh.now (slice_set cut.now e false) labels.old count }
    ensures { AreLabels mesh.now cut.now labels.new result }
{
    mesh.law_of_surface();
    let (u, v) = mesh.ends(e);
    let more = split_at(mesh, cut, labels, count, u, e);
    split_at(mesh, cut, labels, more, v, e)
}
