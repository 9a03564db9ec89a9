//! Buckets whose nodes have the keys.
ghost use Rattle.std.specs.Prelude.{◌≡◌, ◌≢◌, ℕ, ◌+◌, ◌<◌, ◌≤◌, ◌^◌, ◌==◌, if◌then◌else◌, length, replicate};
ghost use Rattle.std.specs.Prelude.{slice_set, MatchOption, None, Some, IfOk};
ghost use Rattle.surf_heap.specs.Entries.{entry_of, lesser};
ghost use Rattle.surf_buckets.specs.declared.TheConstants.{BUCKETS};
ghost use Rattle.surf_buckets.specs.Circles.{nothing};
ghost use Rattle.surf_buckets.specs.Nodes.{key_at, next_at, prev_at, AreNodes, IsAlone, IsBuckets};
ghost use Rattle.surf_buckets.specs.Buckets.{IsNearest, TakesNearest};

use crate::circles::{Linked, bucket_of, first_full, put_behind, take_out};
use crate::{BUCKETS, NOTHING};
use std::alloc::{AllocError, Global};
use std::marker::Model;
use surf_base::NoMemory;

// A place or, behind the places, a bucket: the key of the place, and the nodes behind and before it
// in their circle.
#[derive(Clone, Copy)]
struct Node {
    key: u64,
    next: u32,
    prev: u32,
}

impl Linked for Node {
    ghost use Rattle.surf_buckets.specs.Nodes.{blank};

    ghost next = { λ n. n.next };

    ghost prev = { λ n. n.prev };

    ghost key = { λ n. n.key };

    ghost blank = { blank };

    #[inline]
    fn behind(&self) -> u32 {
        self.next
    }

    #[inline]
    fn before(&self) -> u32 {
        self.prev
    }

    #[inline]
    fn set_behind(&mut self, node: u32) {
        self.next = node;
    }

    #[inline]
    fn set_before(&mut self, node: u32) {
        self.prev = node;
    }
}

// Gives a place a key, wherever it stands.
#[inline]
fn set_key(nodes: &mut [Node], place: u32, key: u64)
    requires place { place < length nodes.old }
    ensures next { (i : ℕ) → next_at nodes.new i ≡ next_at nodes.old i }
    ensures prev { (i : ℕ) → prev_at nodes.new i ≡ prev_at nodes.old i }
    ensures key { (i : ℕ) → key_at nodes.new i ≡ (if i == place then key else key_at nodes.old i) }
{
    nodes[place as usize].key = key;
}

// Takes a place out of its circle, and its key away.
#[inline]
fn remove(nodes: &mut [Node], places: u32, place: u32)
    requires circles { AreNodes places nodes.old }
    requires place { place < places }
    ensures circles { AreNodes places nodes.new }
    ensures key { (i : ℕ) → key_at nodes.new i
        ≡ (if i == place then nothing else key_at nodes.old i) }
{
    take_out(nodes, place);
    set_key(nodes, place, NOTHING);
}

// Puts a place that has no key behind a bucket.
#[inline]
fn insert(nodes: &mut [Node], places: u32, place: u32, key: u64)
    requires circles { AreNodes places nodes.old }
    requires place { place < places }
    requires absent { key_at nodes.old place ≡ nothing }
    requires key { key < nothing }
    ensures circles { AreNodes places nodes.new }
    ensures key { (i : ℕ) → key_at nodes.new i ≡ (if i == place then key else key_at nodes.old i) }
{
    put_behind(nodes, bucket_of(places, key), place);
    set_key(nodes, place, key);
}

// Puts a place into the bucket of a key, wherever it stands.
#[inline]
fn lower(nodes: &mut [Node], places: u32, place: u32, key: u64)
    requires circles { AreNodes places nodes.old }
    requires place { place < places }
    requires key { key < nothing }
    ensures circles { AreNodes places nodes.new }
    ensures key { (i : ℕ) → key_at nodes.new i ≡ (if i == place then key else key_at nodes.old i) }
{
    remove(nodes, places, place);
    insert(nodes, places, place, key);
}

// Takes all places out of their circles.
fn remove_all(nodes: &mut [Node], places: u32)
    requires circles { AreNodes places nodes.old }
    ensures circles { AreNodes places nodes.new }
    ensures none { (p : ℕ) → p < places → key_at nodes.new p ≡ nothing }
{
    for place in 0..places {
        remove(nodes, places, place);
    }
}

// A place whose key is least, where there is one. The walk over the buckets ends at the greatest
// key that was offered.
#[inline]
fn nearest(nodes: &[Node], places: u32, now: u64, last: u64) -> Option<(u32, u64)>
    requires buckets { IsBuckets places nodes.now now last }
    ensures { MatchOption result ((p : ℕ) → p < places → key_at nodes.now p ≡ nothing)
        (λ r. IsNearest places (key_at nodes.now) r.0 r.1) }
{
    first_full(nodes, places, now, last)
}

// Takes all places out of their circles, where there is one in any.
fn drain(nodes: &mut [Node], places: u32, now: u64, last: u64)
    requires buckets { IsBuckets places nodes.old now last }
    ensures circles { AreNodes places nodes.new }
    ensures none { (p : ℕ) → p < places → key_at nodes.new p ≡ nothing }
{
    if let Some(_) = nearest(nodes, places, now, last) {
        remove_all(nodes, places);
    }
}

// A node for each place, each of which stands alone.
fn lone_nodes(alloc: Global, count: u32) -> Result<Vec<Node>, AllocError>
    ensures { IfOk result (λ v. IsAlone count v.items) }
{
    let mut nodes = Vec::with_capacity(alloc, count as usize)?;
    for i in 0..count {
        nodes.push(Node {
            key: NOTHING,
            next: i,
            prev: i,
        })?;
    }
    Ok(nodes)
}

/// For each of its places a key, or nothing.
#[derive(Drop)]
pub struct Buckets {
    nodes: Vec<Node>,
    places: u32,
    now: u64,
    last: u64,
}

impl Model for Buckets {
    ghost use Rattle.surf_buckets.specs.Buckets.{BucketTables};

    ghost Value = { BucketTables };

    ghost use Rattle.surf_buckets.specs.Nodes.{key_at, IsBuckets};
    ghost use Rattle.surf_buckets.specs.Buckets.{entries_of};

    ghost view = { λ b. record {
      entries = entries_of b.places (key_at b.nodes.items);
      now = b.now;
    } };

    ghost invariant = { λ b. IsBuckets b.places b.nodes.items b.now b.last };
}

impl Buckets {
    /// A queue for the places below a number, which holds nothing and has come to 0. No later call
    /// takes memory.
    pub fn make(alloc: Global, places: u32) -> Result<Buckets, NoMemory>
        requires few { places < 2 ^ 31 }
        ensures empty { IfOk result (λ b. b.entries ≡ replicate places None) }
        ensures now { IfOk result (λ b. b.now ≡ 0) }
    {
        let nodes = lone_nodes(alloc, places + BUCKETS)?;
        Ok(Buckets {
            nodes,
            places,
            now: 0,
            last: 0,
        })
    }

    /// Gives a place a key, unless it has one that is no greater. All other places stay as they
    /// are.
    #[inline]
    pub fn offer(&mut self, place: u32, key: u64)
        requires place { place < length self.old.entries }
        requires from { self.old.now ≤ key }
        requires window { key < self.old.now + BUCKETS }
        requires key { key < nothing }
        ensures entry { self.new.entries ≡ slice_set self.old.entries place
            (Some (lesser (entry_of self.old.entries place) key 0)) }
        ensures now { self.new.now ≡ self.old.now }
    {
        if key < self.nodes[place as usize].key {
            lower(&mut self.nodes, self.places, place, key);
            self.last = self.last.max(key);
        }
    }

    /// Takes out an entry whose key is least, and gives its place and its key, to which the queue
    /// has come. None exactly where no place has anything.
    #[inline]
    pub fn take_least(&mut self) -> Option<(u32, u64)>
        ensures taken { TakesNearest self.old.entries self.new.entries result }
        ensures now { MatchOption result (self.new.now ≡ self.old.now) (λ r. self.new.now ≡ r.1) }
    {
        match nearest(&self.nodes, self.places, self.now, self.last) {
            None => {
                self.last = 0;
                None
            }
            Some((place, key)) => {
                remove(&mut self.nodes, self.places, place);
                self.now = key;
                Some((place, key))
            }
        }
    }

    /// Takes all entries out, and goes back to 0. It is quick where all have been taken.
    pub fn clear(&mut self)
        ensures empty { self.new.entries ≡ replicate (length self.old.entries) None }
        ensures now { self.new.now ≡ 0 }
    {
        drain(&mut self.nodes, self.places, self.now, self.last);
        self.now = 0;
        self.last = 0;
    }
}
