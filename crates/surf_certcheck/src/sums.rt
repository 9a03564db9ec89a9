//! The coordinates of the ways up a tree, summed up from its base on.
ghost use Rattle.std.specs.Prelude.{◌≡◌, ◌≢◌, ◌<◌, ◌≤◌, ℕ, length};
ghost use Rattle.std.specs.Prelude.{slice_index, Some, IsPermutation, IfOk};
ghost use Rattle.std.specs.List.{range_with_len};
ghost use Rattle.std.specs.List.Sorted.{IsNonDecreasingBy};
ghost use Rattle.surf_graphs.specs.Cells.{Split};
ghost use Rattle.surf_surfaces.specs.Surface.{edge_count};
ghost use Rattle.surf_validity.specs.Valid.{distance_at, parent_at};
ghost use Rattle.surf_certcheck.specs.Frames.{AreTaken};
ghost use Rattle.surf_certcheck.specs.Climbs.{IsClimbed, AreSummed, IsSummedAt};

use std::alloc::Global;
use surf_base::{EdgeId, NoMemory, VertexId};
use surf_bits::Signature;
use surf_mesh::HalfMesh;
use surf_records::TreeRows;
use surf_signatures::{Signs, VertexSets};
use surf_treecheck::edge_between;

/// All vertices.
pub(crate) fn all_vertices(alloc: Global, mesh: &HalfMesh) -> Result<Vec<VertexId>, NoMemory>
    ensures all { IfOk result (λ v. v.items ≡ range_with_len 0 mesh.now.vertices) }
{
    let mut all = Vec::with_capacity(alloc, mesh.vertices() as usize)?;
    for v in 0..mesh.vertices() {
        all.push(VertexId::new(v))?;
    }
    Ok(all)
}

// How far a vertex is from the base.
fn distance_of(rows: &TreeRows, v: VertexId) -> u64
    ensures distance { result ≡ distance_at rows.now v }
{
    match rows.distance().get(v.index()) {
        Some(distance) => *distance,
        None => 0,
    }
}

// Sorts vertices by their distances from the base.
fn sort_vertices(rows: &TreeRows, order: &mut [VertexId])
    ensures same { IsPermutation order.old order.new }
    ensures sorted { IsNonDecreasingBy (distance_at rows.now) order.new }
{
    order.sort_unstable_by_key(|v| distance_of(rows, *v));
}

// The parent of a vertex.
fn parent_of(rows: &TreeRows, v: VertexId) -> Option<VertexId>
    requires vertex { v < length rows.now.parent }
    ensures parent { result ≡ parent_at rows.now v }
{
    rows.parent()[v.index()]
}

// Gives a vertex the sum of its parent and the edge between them, or the empty set at the base.
fn sum_way(mesh: &HalfMesh, rows: &TreeRows, signs: &Signs, v: VertexId, sums: &mut VertexSets)
    requires climbed { IsClimbed mesh.now rows.now }
    requires count { length signs.now.sets ≡ edge_count mesh.now }
    requires vertex { v < mesh.now.vertices }
    requires room { length sums.old.sets ≡ mesh.now.vertices }
    requires width { sums.old.width ≡ signs.now.width }
    ensures summed { (d : Split) (to : ℕ → ℕ) → AreTaken mesh.now d to signs.now.sets
        → ((p : ℕ) → parent_at rows.now v ≡ Some p
        → IsSummedAt mesh.now rows.now d to sums.old.sets p)
        → IsSummedAt mesh.now rows.now d to sums.new.sets v }
    ensures rest { (u : ℕ) → u ≢ v
        → slice_index sums.new.sets u ≡ slice_index sums.old.sets u }
    ensures room { length sums.new.sets ≡ mesh.now.vertices }
    ensures width { sums.new.width ≡ signs.now.width }
{
    let mut sum = Signature::zero();
    if let Some(parent) = parent_of(rows, v) {
        sum.add(sums.of(parent));
        sum.add(signs.signature(edge_between(mesh, parent, v)));
    }
    sums.put(v, &sum.bits());
}

/// Gives each vertex the sum of the coordinates of the edges on its way up to the base, the nearest
/// vertices first. The list has all vertices, before and after.
pub(crate) fn sum_ways(
    mesh: &HalfMesh,
    rows: &TreeRows,
    signs: &Signs,
    order: &mut [VertexId],
    sums: &mut VertexSets,
)
    requires climbed { IsClimbed mesh.now rows.now }
    requires count { length signs.now.sets ≡ edge_count mesh.now }
    requires all { IsPermutation (range_with_len 0 mesh.now.vertices) order.old }
    requires room { length sums.old.sets ≡ mesh.now.vertices }
    requires width { sums.old.width ≡ signs.now.width }
    ensures all { IsPermutation (range_with_len 0 mesh.now.vertices) order.new }
    ensures summed { AreSummed mesh.now rows.now signs.now.sets sums.new.sets }
    ensures room { length sums.new.sets ≡ mesh.now.vertices }
    ensures width { sums.new.width ≡ signs.now.width }
{
    sort_vertices(rows, order);
    for k in 0..order.len() {
        sum_way(mesh, rows, signs, order[k], sums);
    }
}
