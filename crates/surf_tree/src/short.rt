//! Settles the nodes of a network from a base on where no edge is as long as there are buckets.
ghost use Rattle.std.specs.Prelude.{◌≡◌, ◌≢◌, ◌<◌, ◌≤◌, ◌+◌, ◌^◌, ℕ, length};
ghost use Rattle.surf_buckets.specs.declared.TheConstants.{BUCKETS};
ghost use Rattle.surf_buckets.specs.Lent.{waiting, settled, IsFiling};
ghost use Rattle.surf_lengths.specs.Lengths.{longest};
ghost use Rattle.surf_base.specs.Tables.{at};
ghost use Rattle.surf_tree.specs.Searches.{far, IsOffered, IsSearchable, IsSettled};

use crate::network::Network;
use surf_buckets::LentBuckets;

// Offers the neighbours of a node at distance `d` to the buckets. A settled one stays as it is,
// since it isn't farther.
fn offer_near<N: Network>(
    network: &N,
    distance: &mut [u64],
    buckets: &mut LentBuckets,
    node: u32,
    d: u64,
)
    requires valid { N.valid network.now }
    requires node { node < (N.graph network.now).nodes }
    requires distances { length distance.old ≡ (N.graph network.now).nodes }
    requires filing { IsFiling buckets.old distance.old }
    requires now { buckets.old.now ≡ d }
    requires short { (e : ℕ) → e < (N.graph network.now).edges →
        N.weight network.now e < BUCKETS }
    requires fits { d + longest < 2 ^ 64 }
    requires settled { (u : ℕ) → u < (N.graph network.now).nodes →
        at (settled buckets.old distance.old) u ≢ far →
        at (settled buckets.old distance.old) u ≤ d }
    ensures filing { IsFiling buckets.new distance.new }
    ensures offered { IsOffered (N.graph network.now) (N.weight network.now)
        (at (settled buckets.old distance.old)) node d
        (waiting buckets.old distance.old) (waiting buckets.new distance.new) }
    ensures settled { settled buckets.new distance.new ≡ settled buckets.old distance.old }
    ensures places { buckets.new.places ≡ buckets.old.places }
{
    for e in network.edges_at(node) {
        let (w, length) = network.across(node, *e);
        buckets.offer(distance, w, d + u64::from(length));
    }
}

/// Settles all nodes of a network whose edges are shorter than there are buckets: each gets its
/// distance from the base, and has there before the distance at which it waits. It takes no
/// memory.
pub(crate) fn settle_short<N: Network>(
    network: &N,
    distance: &mut [u64],
    buckets: &mut LentBuckets,
    base: u32,
)
    requires valid { N.valid network.now }
    requires searchable { IsSearchable (N.graph network.now) (N.weight network.now) }
    requires short { (e : ℕ) → e < (N.graph network.now).edges →
        N.weight network.now e < BUCKETS }
    requires base { base < (N.graph network.now).nodes }
    requires distances { length distance.old ≡ (N.graph network.now).nodes }
    requires places { buckets.old.places ≡ (N.graph network.now).nodes }
    ensures settled { IsSettled (N.graph network.now) (N.weight network.now) base
        (at distance.new) }
    ensures places { buckets.new.places ≡ (N.graph network.now).nodes }
{
    buckets.start(distance);
    buckets.offer(distance, base, 0);
    while let Some((node, d)) = buckets.take_least() {
        offer_near(network, distance, buckets, node, d);
    }
}
