//! Settles the nodes of a network from a base on, the nearest first.
ghost use Rattle.std.specs.Prelude.{◌≡◌, ◌<◌, ◌≤◌, ◌+◌, ◌^◌, length};
ghost use Rattle.surf_lengths.specs.Lengths.{longest};
ghost use Rattle.surf_base.specs.Tables.{at};
ghost use Rattle.surf_tree.specs.Searches.{IsOffered, IsSearchable, IsSettled};

use crate::network::Network;
use surf_heap::Heap;

// The distance of a node that isn't settled.
pub(crate) const FAR: u64 = u64::MAX;

// Offers the unsettled neighbours of a node at distance `d` to the heap.
fn offer_neighbours<N: Network>(network: &N, distance: &[u64], heap: &mut Heap, node: u32, d: u64)
    requires valid { N.valid network.now }
    requires node { node < (N.graph network.now).nodes }
    requires distances { length distance.now ≡ (N.graph network.now).nodes }
    requires places { length heap.old ≡ (N.graph network.now).nodes }
    requires fits { d + longest < 2 ^ 64 }
    ensures offered { IsOffered (N.graph network.now) (N.weight network.now) (at distance.now)
        node d heap.old heap.new }
{
    for e in network.edges_at(node) {
        let (w, length) = network.across(node, *e);
        if distance[w as usize] == FAR {
            heap.offer(w, d + u64::from(length), 0);
        }
    }
}

/// Settles all nodes of a network: each gets its distance from the base. It takes no memory.
pub fn settle<N: Network>(network: &N, distance: &mut [u64], heap: &mut Heap, base: u32)
    requires valid { N.valid network.now }
    requires searchable { IsSearchable (N.graph network.now) (N.weight network.now) }
    requires base { base < (N.graph network.now).nodes }
    requires distances { length distance.old ≡ (N.graph network.now).nodes }
    requires places { length heap.old ≡ (N.graph network.now).nodes }
    ensures settled { IsSettled (N.graph network.now) (N.weight network.now) base
        (at distance.new) }
    ensures places { length heap.new ≡ (N.graph network.now).nodes }
{
    distance.fill(FAR);
    heap.clear();
    heap.offer(base, 0, 0);
    while let Some((node, d, _)) = heap.take_least() {
        distance[node as usize] = d;
        offer_neighbours(network, distance, heap, node, d);
    }
}
