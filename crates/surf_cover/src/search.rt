//! Settles the nodes of a network within a radius of a base, the nearest first.
ghost use Rattle.std.specs.Prelude.{◌≡◌, ◌≢◌, ◌<◌, ◌≤◌, ◌+◌, ◌^◌, ◌++◌, ◌∷◌, ℕ, [], length, slice_set};
ghost use Rattle.std.specs.Prelude.{MatchOption, None, vec_len, vec_capacity};
ghost use Rattle.surf_base.specs.Tables.{at};
ghost use Rattle.surf_heap.specs.Entries.{IsLeastEntry};
ghost use Rattle.surf_lengths.specs.Lengths.{longest};
ghost use Rattle.surf_tree.specs.Searches.{far, IsOffered, IsSearchable};
ghost use Rattle.surf_cover.specs.Within.{ArePast, AreListed, IsReachedWithin};

use surf_heap::Heap;
use surf_tree::Network;

/// The distance of a node that isn't settled.
pub(crate) const FAR: u64 = u64::MAX;

/// The distances of the settled nodes, and a list of these.
#[derive(Drop)]
pub(crate) struct Reached {
    pub(crate) distance: Vec<u64>,
    pub(crate) settled: Vec<u32>,
}

impl Reached {
    // Takes the distances of all nodes away.
    fn forget(&mut self)
        requires listed { AreListed self.old.distance.items self.old.settled.items }
        ensures none { (n : ℕ) → n < length self.new.distance.items →
            at self.new.distance.items n ≡ far }
        ensures nodes { length self.new.distance.items ≡ length self.old.distance.items }
        ensures settled { self.new.settled.items ≡ [] }
        ensures room { vec_capacity self.old.settled ≤ vec_capacity self.new.settled }
    {
        take_away(&mut self.distance, &self.settled);
        self.settled.clear();
    }

    // Gives a node its distance.
    fn settle(&mut self, node: u32, distance: u64)
        requires node { node < length self.old.distance.items }
        requires room { vec_len self.old.settled < vec_capacity self.old.settled }
        ensures distance { self.new.distance.items ≡ slice_set self.old.distance.items node distance }
        ensures settled { self.new.settled.items ≡ self.old.settled.items ++ node ∷ [] }
        ensures room { vec_capacity self.old.settled ≤ vec_capacity self.new.settled }
    {
        self.distance[node as usize] = distance;
        self.settled.push_reserved(node);
    }
}

// Takes the distances of listed nodes away.
fn take_away(distance: &mut [u64], settled: &[u32])
    requires listed { AreListed distance.old settled.now }
    ensures none { (n : ℕ) → n < length distance.new → at distance.new n ≡ far }
{
    for node in settled {
        distance[*node as usize] = FAR;
    }
}

// Takes out the least entry of a heap, unless it is past a radius, and gives its place and key.
fn take_within(heap: &mut Heap, radius: u64) -> Option<(u32, u64)>
    ensures taken { MatchOption result (ArePast radius heap.old)
        (λ r. (r.1 ≤ radius) × (heap.new ≡ slice_set heap.old r.0 None)
        × ((tie : ℕ) × IsLeastEntry heap.old r.0 r.1 tie)) }
    ensures places { length heap.new ≡ length heap.old }
{
    let (node, key, _) = heap.take_least()?;
    if key > radius {
        return None;
    }
    Some((node, key))
}

// Offers the unsettled neighbours of a node at distance `d` to the heap.
fn offer_links<N: Network>(network: &N, distance: &[u64], heap: &mut Heap, node: u32, d: u64)
    requires valid { N.valid network.now }
    requires node { node < (N.graph network.now).nodes }
    requires distances { length distance.now ≡ (N.graph network.now).nodes }
    requires places { length heap.old ≡ (N.graph network.now).nodes }
    requires fits { d + longest < 2 ^ 64 }
    ensures offered { IsOffered (N.graph network.now) (N.weight network.now) (at distance.now)
        node d heap.old heap.new }
{
    for e in network.edges_at(node) {
        let (w, length) = network.across(node, *e);
        if distance[w as usize] == FAR {
            heap.offer(w, d + u64::from(length), 0);
        }
    }
}

/// Settles the nodes of a network within a radius: each of them gets its distance from the base,
/// and no other node has one. What was settled before is forgotten. It takes no memory.
pub(crate) fn settle_within<N: Network>(
    network: &N,
    reached: &mut Reached,
    heap: &mut Heap,
    base: u32,
    radius: u64,
)
    requires valid { N.valid network.now }
    requires searchable { IsSearchable (N.graph network.now) (N.weight network.now) }
    requires base { base < (N.graph network.now).nodes }
    requires nodes { length reached.old.distance.items ≡ (N.graph network.now).nodes }
    requires listed { AreListed reached.old.distance.items reached.old.settled.items }
    requires room { (N.graph network.now).nodes ≤ vec_capacity reached.old.settled }
    requires places { length heap.old ≡ (N.graph network.now).nodes }
    ensures reached { IsReachedWithin (N.graph network.now) (N.weight network.now) base radius
        (at reached.new.distance.items) }
    ensures nodes { length reached.new.distance.items ≡ (N.graph network.now).nodes }
    ensures listed { AreListed reached.new.distance.items reached.new.settled.items }
    ensures room { (N.graph network.now).nodes ≤ vec_capacity reached.new.settled }
    ensures places { length heap.new ≡ (N.graph network.now).nodes }
{
    reached.forget();
    heap.clear();
    heap.offer(base, 0, 0);
    while let Some((node, d)) = take_within(heap, radius) {
        reached.settle(node, d);
        offer_links(network, &reached.distance, heap, node, d);
    }
}
