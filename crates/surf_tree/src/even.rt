//! Settles the nodes of a network from a base on where all edges have one length.
ghost use Rattle.std.specs.Prelude.{◌≡◌, ◌<◌, ◌≤◌, ◌+◌, ℕ, length};
ghost use Rattle.surf_lengths.specs.Lengths.{AreLengths, longest};
ghost use Rattle.surf_base.specs.Tables.{at};
ghost use Rattle.surf_tree.specs.Searches.{IsSearchable, IsSettled};
ghost use Rattle.surf_tree.specs.Queues.{AreUpTo, IsEvenness, IsQueue};

use crate::network::Network;
use crate::search::FAR;
use surf_base::EdgeId;
use surf_lengths::Lengths;

/// The length that all edges have, where they have one.
pub fn even_length(lengths: &Lengths) -> Option<u32>
    ensures lengths { AreLengths lengths.now }
    ensures even { IsEvenness lengths.now result }
{
    if lengths.count() == 0 {
        return None;
    }
    let first = lengths.of(EdgeId::new(0));
    for e in 1..lengths.count() {
        if lengths.of(EdgeId::new(e)) != first {
            return None;
        }
    }
    Some(first)
}

/// The greatest of all lengths, and 0 where there is none.
pub fn greatest_length(lengths: &Lengths) -> u32
    ensures greatest { AreUpTo lengths.now result }
    ensures least { (n : ℕ) → AreUpTo lengths.now n → result ≤ n }
{
    let mut greatest = 0;
    for e in 0..lengths.count() {
        greatest = greatest.max(lengths.of(EdgeId::new(e)));
    }
    greatest
}

// Lists the neighbours of the listed node at a place that aren't listed yet, and gives how many
// nodes are listed then.
fn pass_on<N: Network>(
    network: &N,
    distance: &mut [u64],
    order: &mut [u32],
    count: usize,
    place: usize,
    size: u32,
) -> usize
    requires valid { N.valid network.now }
    requires few { (N.graph network.now).nodes ≤ longest }
    requires even { (e : ℕ) → e < (N.graph network.now).edges → N.weight network.now e ≡ size }
    requires queue { IsQueue (N.graph network.now) (N.weight network.now) size
        distance.old order.old count place }
    requires place { place < count }
    ensures queue { IsQueue (N.graph network.now) (N.weight network.now) size
        distance.new order.new result (place + 1) }
    ensures first { at order.new 0 ≡ at order.old 0 }
{
    let v = order[place];
    let next = distance[v as usize] + u64::from(size);
    let mut count = count;
    for e in network.edges_at(v) {
        let (w, _) = network.across(v, *e);
        if distance[w as usize] == FAR {
            distance[w as usize] = next;
            order[count] = w;
            count += 1;
        }
    }
    count
}

/// Settles all nodes of a network whose edges have the length `size`: each gets its distance from
/// the base. The list of settled nodes in `order` is the queue. It takes no memory.
pub(crate) fn settle_even<N: Network>(
    network: &N,
    distance: &mut [u64],
    order: &mut [u32],
    base: u32,
    size: u32,
)
    requires valid { N.valid network.now }
    requires searchable { IsSearchable (N.graph network.now) (N.weight network.now) }
    requires even { (e : ℕ) → e < (N.graph network.now).edges → N.weight network.now e ≡ size }
    requires base { base < (N.graph network.now).nodes }
    requires distances { length distance.old ≡ (N.graph network.now).nodes }
    requires order { length order.old ≡ (N.graph network.now).nodes }
    ensures settled { IsSettled (N.graph network.now) (N.weight network.now) base
        (at distance.new) }
{
    distance.fill(FAR);
    distance[base as usize] = 0;
    order[0] = base;
    let mut count = 1;
    let mut place = 0;
    while place < count {
        count = pass_on(network, distance, order, count, place, size);
        place += 1;
    }
}
