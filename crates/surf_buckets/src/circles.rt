//! Nodes in circles: the places and, behind them, the buckets.
ghost use Rattle.std.specs.Prelude.{◌≡◌, ◌≢◌, ℕ, ◌+◌, ◌<◌, ◌≤◌, ◌^◌, ◌%◌, ◌==◌, if◌then◌else◌, length, MatchOption};
ghost use Rattle.surf_buckets.specs.declared.TheConstants.{BUCKETS};
ghost use Rattle.surf_buckets.specs.Circles.{nothing, of_node, bucket, IsTakenOut, IsPutBehind};
ghost use Rattle.surf_buckets.specs.Circles.{IsEmptyBucket, IsFirstFull};

use crate::BUCKETS;

/// A node with the numbers of those behind and before it in its circle.
pub(crate) trait Linked: Copy {
    // the node behind it
    ghost next: { Self → ℕ };

    // the node before it
    ghost prev: { Self → ℕ };

    // what else it has
    ghost key: { Self → ℕ };

    // what stands for a node past the end of a table
    ghost blank: { Self };

    /// The node behind it.
    fn behind(&self) -> u32
        ensures { result ≡ next self.now };

    /// The node before it.
    fn before(&self) -> u32
        ensures { result ≡ prev self.now };

    /// Lets another node be behind it.
    fn set_behind(&mut self, node: u32)
        ensures next { next self.new ≡ node }
        ensures prev { prev self.new ≡ prev self.old }
        ensures key { key self.new ≡ key self.old };

    /// Lets another node be before it.
    fn set_before(&mut self, node: u32)
        ensures next { next self.new ≡ next self.old }
        ensures prev { prev self.new ≡ node }
        ensures key { key self.new ≡ key self.old };
}

/// The bucket of a key.
#[inline]
pub(crate) fn bucket_of(places: u32, key: u64) -> u32
    requires few { places < 2 ^ 31 }
    ensures bucket { result ≡ bucket places key }
{
    places + (key % u64::from(BUCKETS)) as u32
}

// Lets one node follow another one.
#[inline]
fn join<N: Linked>(nodes: &mut [N], from: u32, to: u32)
    requires from_in { from < length nodes.old }
    requires to_in { to < length nodes.old }
    ensures next { (i : ℕ) → of_node N.next N.blank nodes.new i
        ≡ (if i == from then to else of_node N.next N.blank nodes.old i) }
    ensures prev { (i : ℕ) → of_node N.prev N.blank nodes.new i
        ≡ (if i == to then from else of_node N.prev N.blank nodes.old i) }
    ensures key { (i : ℕ) → of_node N.key N.blank nodes.new i
        ≡ of_node N.key N.blank nodes.old i }
{
    nodes[from as usize].set_behind(to);
    nodes[to as usize].set_before(from);
}

/// Takes a node out of its circle, so that it stands alone.
#[inline]
pub(crate) fn take_out<N: Linked>(nodes: &mut [N], node: u32)
    requires node { node < length nodes.old }
    requires next { of_node N.next N.blank nodes.old node < length nodes.old }
    requires prev { of_node N.prev N.blank nodes.old node < length nodes.old }
    ensures taken_out { IsTakenOut (of_node N.next N.blank nodes.old)
        (of_node N.prev N.blank nodes.old) node
        (of_node N.next N.blank nodes.new) (of_node N.prev N.blank nodes.new) }
    ensures key { (i : ℕ) → of_node N.key N.blank nodes.new i
        ≡ of_node N.key N.blank nodes.old i }
{
    let before = nodes[node as usize].before();
    let behind = nodes[node as usize].behind();
    join(nodes, before, behind);
    join(nodes, node, node);
}

/// Puts a node between another one and the one behind that.
#[inline]
pub(crate) fn put_behind<N: Linked>(nodes: &mut [N], first: u32, node: u32)
    requires first { first < length nodes.old }
    requires node { node < length nodes.old }
    requires apart { first ≢ node }
    requires next { of_node N.next N.blank nodes.old first < length nodes.old }
    ensures put { IsPutBehind (of_node N.next N.blank nodes.old)
        (of_node N.prev N.blank nodes.old) first node
        (of_node N.next N.blank nodes.new) (of_node N.prev N.blank nodes.new) }
    ensures key { (i : ℕ) → of_node N.key N.blank nodes.new i
        ≡ of_node N.key N.blank nodes.old i }
{
    let behind = nodes[first as usize].behind();
    join(nodes, node, behind);
    join(nodes, first, node);
}

/// The first place in the first bucket that doesn't stand alone, of those of the keys from `now`
/// on as far as `last`, and that key.
#[inline]
pub(crate) fn first_full<N: Linked>(
    nodes: &[N],
    places: u32,
    now: u64,
    last: u64,
) -> Option<(u32, u64)>
    requires all { length nodes.now ≡ places + BUCKETS }
    requires few { places < 2 ^ 31 }
    requires last { last < nothing }
    ensures { MatchOption result
        ((k : ℕ) → now ≤ k → k ≤ last → IsEmptyBucket places (of_node N.next N.blank nodes.now) k)
        (λ r. IsFirstFull places (of_node N.next N.blank nodes.now) now last r.0 r.1) }
{
    let mut key = now;
    while key <= last {
        let bucket = bucket_of(places, key);
        let first = nodes[bucket as usize].behind();
        if first != bucket {
            return Some((first, key));
        }
        key += 1;
    }
    None
}
