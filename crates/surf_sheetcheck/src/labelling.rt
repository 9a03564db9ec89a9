//! The labels of the vertices that a search came to.
ghost use Rattle.std.specs.Prelude.{◌≡◌, ◌≢◌, ◌<◌, ◌≤◌, ◌+◌, ℕ, Some, None, IfOk, All, Contains};
ghost use Rattle.std.specs.Prelude.{take, length, bit_xor, get_or, slice_set};
ghost use Rattle.surf_graphs.specs.Cells.{primal};
ghost use Rattle.surf_surfaces.specs.Cells.{cells_of};
ghost use Rattle.surf_surfaces.specs.Mesh.{edges, pair_of, steps};
ghost use Rattle.surf_surfaces.specs.Surface.{edge_count};
ghost use Rattle.surf_surfaces.specs.Walk.{edge_length};
ghost use Rattle.surf_base.specs.Tables.{at};
ghost use Rattle.surf_sheetcheck.specs.Cocycles.{edge_set, walk_set};
ghost use Rattle.surf_treecheck.specs.First.{Tells};
ghost use Rattle.surf_sheetcheck.specs.Searches.{AreSettled, IsLeastTight};
ghost use Rattle.surf_sheetcheck.specs.Tables.{label_in, IsReady, IsTask};
ghost use Rattle.surf_sheetcheck.specs.Tables.{ArePartLabels, AreLabelsUpTo};

use crate::cases::{SheetCase, Task};
use crate::labels::Labels;
use crate::sets::{add_set, has_set};
use surf_base::{EdgeId, NOBODY, NoMemory, VertexId};
use surf_bits::Signature;
use surf_treecheck::edge_between;

// Adds the set of the edge by which a part comes to a place; the first place has none.
fn add_step(case: &SheetCase<'_>, part: &[VertexId], place: usize, sum: &mut Signature)
    requires ready { IsReady case.now }
    requires along { All (λ s. Contains (edges case.now.mesh.now) (pair_of s)) (steps part.now) }
    requires place { place < length part.now }
    requires before { sum.old ≡ walk_set case.now.mesh.now case.now.cert.now
        (take place part.now) }
    ensures after { sum.new ≡ walk_set case.now.mesh.now case.now.cert.now
        (take (place + 1) part.now) }
{
    if place > 0 {
        let e = edge_between(case.mesh, part[place - 1], part[place]);
        add_set(case, e, sum);
    }
}

// Gives a vertex a label, where it has none.
fn put_first(labels: &mut Labels, v: VertexId, sum: &Signature) -> Result<(), NoMemory>
    requires vertex { v < length labels.old }
    ensures kept { get_or labels.old v None ≢ None → labels.new ≡ labels.old }
    ensures put { get_or labels.old v None ≡ None →
        IfOk result (λ _. labels.new ≡ slice_set labels.old v (Some sum.now)) }
{
    if labels.has(v.number()) {
        return Ok(());
    }
    labels.put(v.number(), sum.copy())
}

/// Gives the vertices of a part their labels.
pub(crate) fn label_part(
    case: &SheetCase<'_>,
    task: &Task<'_>,
    labels: &mut Labels,
) -> Result<(), NoMemory>
    requires ready { IsReady case.now }
    requires task { IsTask case.now task.now }
    requires room { length labels.old ≡ case.now.mesh.now.vertices }
    requires none { (v : ℕ) → v < case.now.mesh.now.vertices → get_or labels.old v None ≡ None }
    ensures labels { IfOk result (λ _. ArePartLabels case.now.mesh.now case.now.cert.now
        task.now.part.items (length task.now.part.items) labels.new) }
{
    let mut sum = Signature::zero();
    for place in 0..task.part.len() {
        add_step(case, &task.part, place, &mut sum);
        put_first(labels, task.part[place], &sum)?;
    }
    Ok(())
}

// Whether a distance and a length make up another distance.
fn adds_up(there: u64, length: u32, here: u64) -> bool
    requires some { 1 ≤ length }
    ensures sum { Tells result (there + length ≡ here) }
{
    there < here && here - there == u64::from(length)
}

// The least neighbour that is nearer by the length of the edge to it, with that edge. `u32::MAX`
// stands for none.
fn parent_of(case: &SheetCase<'_>, distance: &[u64], v: u32) -> (u32, EdgeId)
    requires ready { IsReady case.now }
    requires distances { length distance.now ≡ case.now.mesh.now.vertices }
    requires vertex { v < case.now.mesh.now.vertices }
    ensures least { IsLeastTight (primal (cells_of case.now.mesh.now))
        (edge_length case.now.lengths.now) (at distance.now) v result.0 result.1 }
{
    let here = distance[v as usize];
    let mut best = NOBODY;
    let mut up = EdgeId::new(0);
    for e in case.mesh.edges_at(VertexId::new(v)) {
        let u = case.mesh.other_end(VertexId::new(v), *e);
        let tight = adds_up(distance[u.index()], case.lengths.of(*e), here);
        if tight && u.number() < best {
            best = u.number();
            up = *e;
        }
    }
    (best, up)
}

// Gives a vertex the label of another one, with the set of an edge added.
fn label_from(
    case: &SheetCase<'_>,
    labels: &mut Labels,
    v: u32,
    u: u32,
    e: EdgeId,
) -> Result<(), NoMemory>
    requires ready { IsReady case.now }
    requires edge { e < edge_count case.now.mesh.now }
    requires vertex { v < length labels.old }
    requires other { u < length labels.old }
    requires some { get_or labels.old u None ≢ None }
    ensures label { IfOk result (λ _. labels.new ≡ slice_set labels.old v
        (Some (bit_xor (label_in labels.old u) (edge_set case.now.mesh.now case.now.cert.now e)))) }
{
    if !has_set(case, e) {
        labels.share(v, u);
        return Ok(());
    }
    let mut sum = Signature::zero();
    labels.add_to(u, &mut sum);
    add_set(case, e, &mut sum);
    labels.put(v, sum)
}

// Gives the vertex at a place of the list its label, where it has none.
fn label_at(
    case: &SheetCase<'_>,
    task: &Task<'_>,
    distance: &[u64],
    order: &[u32],
    labels: &mut Labels,
    place: usize,
) -> Result<(), NoMemory>
    requires ready { IsReady case.now }
    requires distances { length distance.now ≡ case.now.mesh.now.vertices }
    requires settled { AreSettled (primal (cells_of case.now.mesh.now))
        (edge_length case.now.lengths.now) task.now.part.items task.now.limit distance.now order.now }
    requires place { place < length order.now }
    requires labels { AreLabelsUpTo case.now.mesh.now case.now.lengths.now case.now.cert.now
        task.now.part.items task.now.limit distance.now order.now place labels.old }
    ensures labels { IfOk result (λ _. AreLabelsUpTo case.now.mesh.now case.now.lengths.now
        case.now.cert.now task.now.part.items task.now.limit distance.now order.now (place + 1)
        labels.new) }
{
    case.mesh.law_of_surface();
    case.lengths.law_of_lengths();
    let v = order[place];
    if labels.has(v) {
        return Ok(());
    }
    let (u, e) = parent_of(case, distance, v);
    label_from(case, labels, v, u, e)
}

/// Gives the other vertices their labels, in the order of distance.
pub(crate) fn label_others(
    case: &SheetCase<'_>,
    task: &Task<'_>,
    distance: &[u64],
    order: &[u32],
    labels: &mut Labels,
) -> Result<(), NoMemory>
    requires ready { IsReady case.now }
    requires task { IsTask case.now task.now }
    requires distances { length distance.now ≡ case.now.mesh.now.vertices }
    requires settled { AreSettled (primal (cells_of case.now.mesh.now))
        (edge_length case.now.lengths.now) task.now.part.items task.now.limit distance.now order.now }
    requires labels { ArePartLabels case.now.mesh.now case.now.cert.now
        task.now.part.items (length task.now.part.items) labels.old }
    ensures labels { IfOk result (λ _. AreLabelsUpTo case.now.mesh.now case.now.lengths.now
        case.now.cert.now task.now.part.items task.now.limit distance.now order.now
        (length order.now) labels.new) }
{
    for place in 0..order.len() {
        label_at(case, task, distance, order, labels, place)?;
    }
    Ok(())
}
