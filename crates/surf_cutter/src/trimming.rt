//! Trimming a cut: edges that end where no other cut edge goes on are taken out of it.
ghost use Rattle.std.specs.Prelude.{◌≡◌, ◌≢◌, ◌<◌, ◌≤◌, ◌+◌, ◌^◌, ℕ, true, false, length, slice_index, slice_index_or};
ghost use Rattle.surf_z2.specs.Parity.{count_below};
ghost use Rattle.surf_surfaces.specs.Surface.{edge_count};
ghost use Rattle.surf_opening.specs.Laws.{cut_count};
ghost use Rattle.surf_surfaces.specs.Degrees.{AreDegreesTo, degree_in};
ghost use Rattle.surf_cutter.specs.Trimming.{is_cut, AreDegrees, IsTakenBack, IsTrimmedFrom};
ghost use Rattle.surf_cutter.specs.Trimming.{HasNoLeafFrom, HasEndedBy};

use surf_base::{EdgeId, VertexId};
use surf_mesh::HalfMesh;

// Counts an edge at both of its ends.
fn count_at(degree: &mut [u32], u: VertexId, v: VertexId)
    requires first { u < length degree.old }
    requires second { v < length degree.old }
    requires differ { u ≢ v }
    requires few_first { slice_index degree.old u < 2 ^ 31 }
    requires few_second { slice_index degree.old v < 2 ^ 31 }
    ensures first { slice_index degree.new u ≡ slice_index degree.old u + 1 }
    ensures second { slice_index degree.new v ≡ slice_index degree.old v + 1 }
    ensures others { (w : ℕ) → w ≢ u → w ≢ v → slice_index degree.new w ≡ slice_index degree.old w }
{
    degree[u.index()] += 1;
    degree[v.index()] += 1;
}

// Takes the count of an edge back at both of its ends.
fn uncount_at(degree: &mut [u32], u: VertexId, v: VertexId)
    requires first { u < length degree.old }
    requires second { v < length degree.old }
    requires differ { u ≢ v }
    requires some_first { 0 < slice_index degree.old u }
    requires some_second { 0 < slice_index degree.old v }
    ensures first { slice_index degree.new u + 1 ≡ slice_index degree.old u }
    ensures second { slice_index degree.new v + 1 ≡ slice_index degree.old v }
    ensures others { (w : ℕ) → w ≢ u → w ≢ v → slice_index degree.new w ≡ slice_index degree.old w }
{
    degree[u.index()] -= 1;
    degree[v.index()] -= 1;
}

// Goes on to count the cut edges of each vertex by one edge.
fn count_edge(mesh: &HalfMesh, cut: &[bool], degree: &mut [u32], e: u32)
    requires edge { e < edge_count mesh.now }
    requires flags { length cut.now ≡ edge_count mesh.now }
    requires size { length degree.old ≡ mesh.now.vertices }
    requires so_far { AreDegreesTo mesh.now (is_cut cut.now) e degree.old }
    ensures { AreDegreesTo mesh.now (is_cut cut.now) (e + 1) degree.new }
{
    mesh.law_of_surface();
    if cut[e as usize] {
        let (u, v) = mesh.ends(EdgeId::new(e));
        count_at(degree, u, v);
    }
}

// How many cut edges each vertex has.
pub(crate) fn count_degrees(mesh: &HalfMesh, cut: &[bool], degree: &mut [u32])
    requires flags { length cut.now ≡ edge_count mesh.now }
    requires size { length degree.old ≡ mesh.now.vertices }
    requires none { (v : ℕ) → v < mesh.now.vertices → slice_index degree.old v ≡ 0 }
    ensures { AreDegrees mesh.now cut.now degree.new }
{
    for e in 0..mesh.edges() {
        count_edge(mesh, cut, degree, e);
    }
}

// How many edges are cut.
pub(crate) fn count_cut(cut: &[bool]) -> u32
    requires { length cut.now < 2 ^ 32 }
    ensures { result ≡ count_below (length cut.now) (is_cut cut.now) }
{
    let mut count = 0;
    for e in 0..cut.len() {
        if cut[e] {
            count += 1;
        }
    }
    count
}

// The place of the first cut edge of a list.
fn first_cut(edges: &[EdgeId], cut: &[bool]) -> usize
    requires inside { (k : ℕ) → k < length edges.now → slice_index edges.now k < length cut.now }
    requires some { (k : ℕ) × (k < length edges.now)
        × (slice_index_or cut.now (slice_index edges.now k) false ≡ true) }
    ensures within { result < length edges.now }
    ensures found { slice_index_or cut.now (slice_index edges.now result) false ≡ true }
{
    for k in 0..edges.len() {
        if cut[edges[k].index()] {
            return k;
        }
    }
    unreachable!()
}

/// Takes the only cut edge of a vertex out of the cut, and tells its other end.
pub(crate) fn take_back(
    mesh: &HalfMesh,
    cut: &mut [bool],
    degree: &mut [u32],
    leaf: VertexId,
) -> VertexId
    requires degrees { AreDegrees mesh.now cut.old degree.old }
    requires vertex { leaf < mesh.now.vertices }
    requires one { slice_index degree.old leaf ≡ 1 }
    ensures { IsTakenBack mesh.now leaf result cut.old cut.new degree.old degree.new }
{
    mesh.law_of_surface();
    let edges = mesh.ring_edges(leaf);
    let e = edges[first_cut(edges, cut)];
    let (u, v) = mesh.ends(e);
    cut[e.index()] = false;
    uncount_at(degree, u, v);
    if u == leaf { v } else { u }
}

// Takes edges back from a leaf on, as long as the other end is a greater leaf, and counts what is
// left.
fn trim_from(
    mesh: &HalfMesh,
    cut: &mut [bool],
    degree: &mut [u32],
    count: u32,
    low: VertexId,
) -> u32
    requires degrees { AreDegrees mesh.now cut.old degree.old }
    requires count { count ≡ cut_count mesh.now (is_cut cut.old) }
    requires vertex { low < mesh.now.vertices }
    requires above { HasNoLeafFrom mesh.now (low + 1) degree.old count }
    ensures degrees { AreDegrees mesh.now cut.new degree.new }
    ensures count { result ≡ cut_count mesh.now (is_cut cut.new) }
    ensures trimmed { IsTrimmedFrom mesh.now cut.old cut.new }
    ensures ended { HasNoLeafFrom mesh.now low degree.new result }
{
    mesh.law_of_surface();
    let mut left = count;
    let mut leaf = low;
    while left > 2 && degree[leaf.index()] == 1 {
        let next = take_back(mesh, cut, degree, leaf);
        left -= 1;
        leaf = next;
        if next < low {
            break;
        }
    }
    left
}

/// Trims a cut: while more than two edges are cut and a vertex has exactly one of them, the
/// greatest such vertex loses it.
pub(crate) fn trim(mesh: &HalfMesh, cut: &mut [bool], degree: &mut [u32])
    requires degrees { AreDegrees mesh.now cut.old degree.old }
    ensures trimmed { IsTrimmedFrom mesh.now cut.old cut.new }
    ensures ended { HasEndedBy mesh.now cut.new }
{
    mesh.law_of_surface();
    let mut left = count_cut(cut);
    for low in (0..mesh.vertices()).rev() {
        left = trim_from(mesh, cut, degree, left, VertexId::new(low));
    }
}
