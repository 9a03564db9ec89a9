//! Distances from the part of a sheet, up to a limit.
ghost use Rattle.std.specs.Prelude.{◌≡◌, ◌<◌, ◌+◌, ◌^◌, ℕ, [], None, length, IfOk, All};
ghost use Rattle.surf_graphs.specs.Cells.{primal};
ghost use Rattle.surf_surfaces.specs.Cells.{cells_of};
ghost use Rattle.surf_surfaces.specs.Surface.{edge_count};
ghost use Rattle.surf_surfaces.specs.Walk.{edge_length};
ghost use Rattle.surf_lengths.specs.Lengths.{longest};
ghost use Rattle.surf_base.specs.Tables.{at};
ghost use Rattle.surf_heap.specs.Entries.{entry_of};
ghost use Rattle.surf_sheetcheck.specs.Searches.{far, IsOffered, AreSeeds, AreSettled};

use surf_base::{NoMemory, VertexId};
use surf_heap::Heap;
use surf_lengths::Lengths;
use surf_mesh::HalfMesh;

/// The distance of a vertex that the search didn't come to.
pub(crate) const FAR: u64 = u64::MAX;

/// What a search runs over, from where and how far.
#[derive(Drop)]
pub(crate) struct Field<'f> {
    pub(crate) mesh: &'f HalfMesh,
    pub(crate) lengths: &'f Lengths,
    pub(crate) part: &'f [VertexId],
    pub(crate) limit: u128,
}

// Offers the unsettled neighbours of a vertex at distance `d` to the heap, those below the limit.
fn offer_neighbours(field: &Field<'_>, distance: &[u64], heap: &mut Heap, node: u32, d: u64)
    requires lengths { length field.now.lengths.now ≡ edge_count field.now.mesh.now }
    requires node { node < field.now.mesh.now.vertices }
    requires distances { length distance.now ≡ field.now.mesh.now.vertices }
    requires places { length heap.old ≡ field.now.mesh.now.vertices }
    requires fits { d + longest < 2 ^ 64 }
    ensures offered { IsOffered (primal (cells_of field.now.mesh.now))
        (edge_length field.now.lengths.now) field.now.limit (at distance.now)
        node d heap.old heap.new }
{
    for e in field.mesh.edges_at(VertexId::new(node)) {
        let w = field.mesh.other_end(VertexId::new(node), *e);
        let key = d + u64::from(field.lengths.of(*e));
        if distance[w.index()] == FAR && u128::from(key) < field.limit {
            heap.offer(w.number(), key, 0);
        }
    }
}

/// Offers the vertices of a part to an empty heap.
pub(crate) fn offer_part(heap: &mut Heap, part: &[VertexId])
    requires inside { All (λ v. v < length heap.old) part.now }
    requires empty { (v : ℕ) → entry_of heap.old v ≡ None }
    ensures seeds { AreSeeds part.now (length heap.old) heap.new }
{
    for i in 0..part.len() {
        heap.offer(part[i].number(), 0, 0);
    }
}

/// Settles all vertices that are nearer to the part than the limit, from a heap that has the part:
/// each gets its distance, and they are listed in the order of distance.
pub(crate) fn settle(
    field: &Field<'_>,
    distance: &mut [u64],
    heap: &mut Heap,
    order: &mut Vec<u32>,
) -> Result<(), NoMemory>
    requires lengths { length field.now.lengths.now ≡ edge_count field.now.mesh.now }
    requires limit { 0 < field.now.limit }
    requires inside { All (λ v. v < field.now.mesh.now.vertices) field.now.part.now }
    requires distances { length distance.old ≡ field.now.mesh.now.vertices }
    requires free { (v : ℕ) → v < field.now.mesh.now.vertices → at distance.old v ≡ far }
    requires seeds { AreSeeds field.now.part.now field.now.mesh.now.vertices heap.old }
    requires order { order.old.items ≡ [] }
    ensures settled { IfOk result (λ _. AreSettled (primal (cells_of field.now.mesh.now))
        (edge_length field.now.lengths.now) field.now.part.now field.now.limit
        distance.new order.new.items) }
    ensures places { length heap.new ≡ field.now.mesh.now.vertices }
    ensures empty { IfOk result (λ _. (v : ℕ) → entry_of heap.new v ≡ None) }
{
    field.mesh.law_of_surface();
    field.lengths.law_of_lengths();
    while let Some((node, d, _)) = heap.take_least() {
        distance[node as usize] = d;
        order.push(node)?;
        offer_neighbours(field, distance, heap, node, d);
    }
    Ok(())
}
