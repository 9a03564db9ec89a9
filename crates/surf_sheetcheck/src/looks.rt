//! Whether a sheet holds.
ghost use Rattle.std.specs.Prelude.{◌≡◌, ◌<◌, ◌≤◌, ◌+◌, ◌*◌, ◌⊎◌, ℕ, true, length, bit_xor};
ghost use Rattle.surf_graphs.specs.Graphs.{joins};
ghost use Rattle.surf_graphs.specs.Cells.{primal};
ghost use Rattle.surf_surfaces.specs.Cells.{cells_of};
ghost use Rattle.surf_surfaces.specs.Surface.{edge_count, ends};
ghost use Rattle.surf_sheets.specs.Sheets.{way_over};
ghost use Rattle.surf_treecheck.specs.First.{Tells};
ghost use Rattle.surf_sheetcheck.specs.Cocycles.{edge_set};
ghost use Rattle.surf_sheetcheck.specs.Parts.{size_at};
ghost use Rattle.surf_sheetcheck.specs.Tables.{label_in, distance_in, IsReady, IsTask};
ghost use Rattle.surf_sheetcheck.specs.Tables.{IsSearched, IsLongIn, IsShortSoFar, IsLeastShort};

use crate::cases::{SheetCase, Task};
use crate::labels::Labels;
use crate::search::FAR;
use crate::sets::{add_set, has_set, last_in};
use surf_base::{EdgeId, NOBODY, VertexId};
use surf_bits::Signature;
use surf_treecheck::ends_inside;

// The distance of a vertex, or the limit where the search didn't come to it.
fn distance_of(task: &Task<'_>, distance: &[u64], v: VertexId) -> u128
    requires vertex { v < length distance.now }
    ensures distance { result ≡ distance_in task.now.limit distance.now v }
{
    let d = distance[v.index()];
    if d == FAR { task.limit } else { u128::from(d) }
}

// The labels of the ends of an edge and its set, added up.
fn sum_over(case: &SheetCase<'_>, labels: &Labels, u: u32, v: u32, e: EdgeId) -> Signature
    requires ready { IsReady case.now }
    requires one { u < length labels.now }
    requires other { v < length labels.now }
    requires edge { e < edge_count case.now.mesh.now }
    ensures sum { result ≡ bit_xor (bit_xor (label_in labels.now u) (label_in labels.now v))
        (edge_set case.now.mesh.now case.now.cert.now e) }
{
    let mut sum = Signature::zero();
    labels.add_to(u, &mut sum);
    labels.add_to(v, &mut sum);
    add_set(case, e, &mut sum);
    sum
}

// The set of the numbers for which an edge is crossed.
fn crossed(case: &SheetCase<'_>, labels: &Labels, e: EdgeId) -> Signature
    requires ready { IsReady case.now }
    requires room { length labels.now ≡ case.now.mesh.now.vertices }
    requires edge { e < edge_count case.now.mesh.now }
    ensures crossed { result
        ≡ bit_xor (bit_xor (label_in labels.now (ends case.now.mesh.now e).0)
        (label_in labels.now (ends case.now.mesh.now e).1))
        (edge_set case.now.mesh.now case.now.cert.now e) }
{
    let (u, v) = ends_inside(case.mesh, e);
    if !has_set(case, e) && labels.are_shared(u.number(), v.number()) {
        return Signature::zero();
    }
    sum_over(case, labels, u.number(), v.number(), e)
}

// The way over an edge.
fn way_along(case: &SheetCase<'_>, task: &Task<'_>, distance: &[u64], e: EdgeId) -> u128
    requires ready { IsReady case.now }
    requires task { IsTask case.now task.now }
    requires room { length distance.now ≡ case.now.mesh.now.vertices }
    requires edge { e < edge_count case.now.mesh.now }
    ensures way { result ≡ way_over case.now.mesh.now case.now.lengths.now
        (distance_in task.now.limit distance.now) e }
{
    let (u, v) = ends_inside(case.mesh, e);
    let there = distance_of(task, distance, u);
    let back = distance_of(task, distance, v);
    there + u128::from(case.lengths.of(e)) + back
}

// Whether the way over an edge is as long as the walk with a number asks.
fn is_as_long(case: &SheetCase<'_>, task: &Task<'_>, distance: &[u64], e: EdgeId, i: u32) -> bool
    requires ready { IsReady case.now }
    requires task { IsTask case.now task.now }
    requires room { length distance.now ≡ case.now.mesh.now.vertices }
    requires edge { e < edge_count case.now.mesh.now }
    requires walk { i < length case.now.cert.now.cycles }
    ensures as_long { Tells result
        (size_at case.now.mesh.now case.now.lengths.now case.now.cert.now i
        + 2 * task.now.row.now.margin ≤ way_over case.now.mesh.now case.now.lengths.now
        (distance_in task.now.limit distance.now) e) }
{
    let least = case.sizes[i as usize] + 2 * u128::from(task.row.margin());
    least <= way_along(case, task, distance, e)
}

// Whether the sheet holds at an edge. Walks are in the order of length, so that the greatest number
// tells.
fn is_long(
    case: &SheetCase<'_>,
    task: &Task<'_>,
    distance: &[u64],
    labels: &Labels,
    e: EdgeId,
) -> bool
    requires ready { IsReady case.now }
    requires task { IsTask case.now task.now }
    requires distances { length distance.now ≡ case.now.mesh.now.vertices }
    requires room { length labels.now ≡ case.now.mesh.now.vertices }
    requires edge { e < edge_count case.now.mesh.now }
    ensures long { Tells result (IsLongIn case.now task.now distance.now labels.now e) }
{
    let (from, to) = task.row.range();
    let sum = crossed(case, labels, e);
    match last_in(&sum.bits(), from, to) {
        None => true,
        Some(i) => is_as_long(case, task, distance, e, i),
    }
}

// An edge at which the sheet doesn't hold, if it is less than the least one so far, or that.
fn lesser(
    case: &SheetCase<'_>,
    task: &Task<'_>,
    distance: &[u64],
    labels: &Labels,
    e: EdgeId,
    least: u32,
) -> u32
    requires ready { IsReady case.now }
    requires task { IsTask case.now task.now }
    requires distances { length distance.now ≡ case.now.mesh.now.vertices }
    requires room { length labels.now ≡ case.now.mesh.now.vertices }
    requires edge { e < edge_count case.now.mesh.now }
    requires short { IsShortSoFar (edge_count case.now.mesh.now)
        (IsLongIn case.now task.now distance.now labels.now) least }
    ensures short { IsShortSoFar (edge_count case.now.mesh.now)
        (IsLongIn case.now task.now distance.now labels.now) result }
    ensures lower { result ≤ least }
    ensures seen { IsLongIn case.now task.now distance.now labels.now e ⊎ (result ≤ e) }
{
    if e.number() >= least {
        return least;
    }
    if is_long(case, task, distance, labels, e) {
        return least;
    }
    e.number()
}

// The lesser of an edge and the least edge at a vertex at which the sheet doesn't hold.
fn lesser_short(
    case: &SheetCase<'_>,
    task: &Task<'_>,
    distance: &[u64],
    labels: &Labels,
    v: u32,
    best: u32,
) -> u32
    requires ready { IsReady case.now }
    requires task { IsTask case.now task.now }
    requires distances { length distance.now ≡ case.now.mesh.now.vertices }
    requires room { length labels.now ≡ case.now.mesh.now.vertices }
    requires vertex { v < case.now.mesh.now.vertices }
    requires short { IsShortSoFar (edge_count case.now.mesh.now)
        (IsLongIn case.now task.now distance.now labels.now) best }
    ensures short { IsShortSoFar (edge_count case.now.mesh.now)
        (IsLongIn case.now task.now distance.now labels.now) result }
    ensures lower { result ≤ best }
    ensures seen { (w e : ℕ) → e < edge_count case.now.mesh.now →
        joins (primal (cells_of case.now.mesh.now)) v w e ≡ true →
        IsLongIn case.now task.now distance.now labels.now e ⊎ (result ≤ e) }
{
    let mut least = best;
    for e in case.mesh.edges_at(VertexId::new(v)) {
        least = lesser(case, task, distance, labels, *e, least);
    }
    least
}

/// The least edge at which the sheet doesn't hold, or nobody.
pub(crate) fn least_short(
    case: &SheetCase<'_>,
    task: &Task<'_>,
    distance: &[u64],
    labels: &Labels,
    order: &[u32],
) -> u32
    requires ready { IsReady case.now }
    requires task { IsTask case.now task.now }
    requires searched { IsSearched case.now task.now distance.now labels.now order.now }
    ensures least { IsLeastShort (edge_count case.now.mesh.now)
        (IsLongIn case.now task.now distance.now labels.now) result }
{
    case.mesh.law_of_surface();
    let mut least = NOBODY;
    for i in 0..order.len() {
        least = lesser_short(case, task, distance, labels, order[i], least);
    }
    least
}
