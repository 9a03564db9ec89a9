//! What sheets serve.
ghost use Rattle.std.specs.Prelude.{◌≡◌, ◌≢◌, ◌<◌, ◌≤◌, ℕ, true, false, length};
ghost use Rattle.surf_graphs.specs.Cells.{primal};
ghost use Rattle.surf_surfaces.specs.Cells.{cells_of};
ghost use Rattle.surf_surfaces.specs.Surface.{edge_count, ends, touches};
ghost use Rattle.surf_surfaces.specs.Walk.{edge_length};
ghost use Rattle.surf_sheetcheck.specs.Searches.{AreSettled};
ghost use Rattle.surf_base.specs.Tables.{at};
ghost use Rattle.surf_treecheck.specs.First.{FindsFirst};
ghost use Rattle.surf_sheetcheck.specs.Tables.{IsReady, IsTask, distance_in};
ghost use Rattle.surf_sheetcheck.specs.Serving.{AreLefts, IsTaken, IsKept, IsNearBy};

use crate::cases::{SheetCase, Task};
use crate::sets::clear_within;
use surf_base::{EdgeId, NOBODY, VertexId};
use surf_bits::Signature;
use surf_signatures::VertexSets;

// Takes the numbers of a sheet out of what is left of an edge.
fn serve_edge(case: &SheetCase<'_>, task: &Task<'_>, e: EdgeId, left: &mut VertexSets)
    requires ready { IsReady case.now }
    requires task { IsTask case.now task.now }
    requires edge { e < edge_count case.now.mesh.now }
    requires lefts { AreLefts case.now left.old }
    ensures lefts { AreLefts case.now left.new }
    ensures taken { IsTaken case.now task.now.row.now left.old left.new e }
    ensures kept { (f : ℕ) → f < edge_count case.now.mesh.now → f ≢ e →
        IsKept case.now left.old left.new f }
{
    let slot = case.slots[e.index()];
    if slot != NOBODY {
        let (from, to) = task.row.range();
        let mut set = Signature::zero();
        set.add(left.of(VertexId::new(slot)));
        clear_within(&mut set, from, to);
        left.put(VertexId::new(slot), &set.bits());
    }
}

// Takes them out at the edges of a vertex.
fn serve_at(case: &SheetCase<'_>, task: &Task<'_>, v: u32, left: &mut VertexSets)
    requires ready { IsReady case.now }
    requires task { IsTask case.now task.now }
    requires vertex { v < case.now.mesh.now.vertices }
    requires lefts { AreLefts case.now left.old }
    ensures lefts { AreLefts case.now left.new }
    ensures taken { (e : ℕ) → e < edge_count case.now.mesh.now →
        touches v (ends case.now.mesh.now e) ≡ true →
        IsTaken case.now task.now.row.now left.old left.new e }
    ensures kept { (e : ℕ) → e < edge_count case.now.mesh.now →
        touches v (ends case.now.mesh.now e) ≡ false → IsKept case.now left.old left.new e }
{
    for e in case.mesh.edges_at(VertexId::new(v)) {
        serve_edge(case, task, *e, left);
    }
}

// The same at a vertex within the margin alone.
fn serve_near(
    case: &SheetCase<'_>,
    task: &Task<'_>,
    distance: &[u64],
    v: u32,
    left: &mut VertexSets,
)
    requires ready { IsReady case.now }
    requires task { IsTask case.now task.now }
    requires distances { length distance.now ≡ case.now.mesh.now.vertices }
    requires vertex { v < case.now.mesh.now.vertices }
    requires lefts { AreLefts case.now left.old }
    ensures lefts { AreLefts case.now left.new }
    ensures away { task.now.row.now.margin < at distance.now v → left.new ≡ left.old }
    ensures taken { at distance.now v ≤ task.now.row.now.margin →
        (e : ℕ) → e < edge_count case.now.mesh.now → touches v (ends case.now.mesh.now e) ≡ true →
        IsTaken case.now task.now.row.now left.old left.new e }
    ensures kept { at distance.now v ≤ task.now.row.now.margin →
        (e : ℕ) → e < edge_count case.now.mesh.now → touches v (ends case.now.mesh.now e) ≡ false →
        IsKept case.now left.old left.new e }
{
    if distance[v as usize] <= task.row.margin() {
        serve_at(case, task, v, left);
    }
}

/// Takes the numbers of a sheet out of what is left of the edges that it serves.
pub(crate) fn serve(
    case: &SheetCase<'_>,
    task: &Task<'_>,
    distance: &[u64],
    order: &[u32],
    left: &mut VertexSets,
)
    requires ready { IsReady case.now }
    requires task { IsTask case.now task.now }
    requires distances { length distance.now ≡ case.now.mesh.now.vertices }
    requires settled { AreSettled (primal (cells_of case.now.mesh.now))
        (edge_length case.now.lengths.now) task.now.part.items task.now.limit distance.now order.now }
    requires lefts { AreLefts case.now left.old }
    ensures lefts { AreLefts case.now left.new }
    ensures taken { (e : ℕ) → e < edge_count case.now.mesh.now →
        IsNearBy case.now task.now.row.now (distance_in task.now.limit distance.now) e →
        IsTaken case.now task.now.row.now left.old left.new e }
    ensures kept { (e : ℕ) → e < edge_count case.now.mesh.now →
        (IsNearBy case.now task.now.row.now (distance_in task.now.limit distance.now) e → ⊥) →
        IsKept case.now left.old left.new e }
{
    case.mesh.law_of_surface();
    for i in 0..order.len() {
        serve_near(case, task, distance, order[i], left);
    }
}

/// The least place of an edge of which something is left.
pub(crate) fn first_left(left: &VertexSets, count: u32) -> Option<u32>
    requires room { count ≤ length left.now.sets }
    ensures first { FindsFirst count (λ j. at left.now.sets j ≡ 0) result }
{
    for place in 0..count {
        if !left.of(VertexId::new(place)).is_empty() {
            return Some(place);
        }
    }
    None
}
