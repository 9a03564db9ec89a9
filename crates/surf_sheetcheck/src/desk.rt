//! The tables of a sheet's search.
ghost use Rattle.std.specs.Prelude.{◌≡◌, ◌<◌, ℕ, [], None, IfOk, length, get_or, slice_set};
ghost use Rattle.surf_base.specs.Tables.{at};
ghost use Rattle.surf_sheetcheck.specs.Searches.{far};
ghost use Rattle.surf_sheetcheck.specs.Tables.{IsFresh};
ghost use Rattle.surf_sheetcheck.specs.Used.{IsStillUsed};

use crate::labels::Labels;
use crate::search::FAR;
use std::alloc::Global;
use surf_base::NoMemory;
use surf_heap::Heap;
use surf_mesh::HalfMesh;

/// For each vertex its distance from the part and its label, where a search came to it, and the
/// vertices that it came to in the order of distance.
#[derive(Drop)]
pub(crate) struct Desk {
    pub(crate) distance: Vec<u64>,
    pub(crate) labels: Labels,
    pub(crate) heap: Heap,
    pub(crate) order: Vec<u32>,
}

impl Desk {
    /// The tables for a mesh, to none of whose vertices a search came.
    pub(crate) fn make(alloc: Global, mesh: &HalfMesh) -> Result<Desk, NoMemory>
        ensures fresh { IfOk result (λ d. IsFresh mesh.now d.distance.items d.labels d.heap
            d.order.items) }
    {
        let vertices = mesh.vertices();
        let distance = vec![in alloc; FAR; vertices as usize]?;
        let labels = Labels::make(alloc, vertices)?;
        let heap = Heap::make(alloc, vertices)?;
        Ok(Desk {
            distance,
            labels,
            heap,
            order: Vec::new(alloc),
        })
    }
}

// Takes its distance and its label from a vertex.
fn forget(distance: &mut [u64], labels: &mut Labels, v: u32)
    requires vertex { v < length distance.old }
    requires label { v < length labels.old }
    ensures distance { distance.new ≡ slice_set distance.old v far }
    ensures labels { labels.new ≡ slice_set labels.old v None }
{
    distance[v as usize] = FAR;
    labels.take(v);
}

/// Puts the tables back that a search used.
pub(crate) fn put_back(
    mesh: &HalfMesh,
    distance: &mut [u64],
    labels: &mut Labels,
    order: &mut Vec<u32>,
)
    requires used { IsStillUsed mesh.now distance.old labels.old order.old.items 0 }
    requires inside { (i : ℕ) → i < length order.old.items → at order.old.items i < mesh.now.vertices }
    ensures free { (v : ℕ) → v < mesh.now.vertices → at distance.new v ≡ far }
    ensures none { (v : ℕ) → v < mesh.now.vertices → get_or labels.new v None ≡ None }
    ensures room { length labels.new ≡ mesh.now.vertices }
    ensures unlisted { order.new.items ≡ [] }
{
    for i in 0..order.len() {
        forget(distance, labels, order[i]);
    }
    order.clear();
    labels.clear();
}
