//! Buckets over keys that are lent.
ghost use Rattle.std.specs.Prelude.{◌≡◌, ◌≢◌, ℕ, ◌+◌, ◌<◌, ◌≤◌, ◌^◌, length, replicate, vec_capacity};
ghost use Rattle.std.specs.Prelude.{List, ◌==◌, if◌then◌else◌};
ghost use Rattle.std.specs.Prelude.{slice_index, slice_set, MatchOption, None, Some, IfOk};
ghost use Rattle.surf_heap.specs.Entries.{entry_of, lesser};
ghost use Rattle.surf_buckets.specs.declared.TheConstants.{BUCKETS};
ghost use Rattle.surf_buckets.specs.Circles.{nothing};
ghost use Rattle.surf_buckets.specs.Buckets.{TakesNearest};
ghost use Rattle.surf_buckets.specs.Lent.{waiting_key, settled_key, waiting, settled};
ghost use Rattle.surf_buckets.specs.Lent.{AreLent, IsFiling, AreLone};

use crate::circles::{Linked, bucket_of, first_full, put_behind, take_out};
use crate::{BUCKETS, NOTHING};
use std::alloc::Global;
use std::marker::Model;
use surf_base::NoMemory;

// A place or, behind the places, a bucket: the nodes behind and before it in their circle.
#[derive(Clone, Copy)]
struct Link {
    next: u32,
    prev: u32,
}

impl Linked for Link {
    ghost use Rattle.surf_buckets.specs.Lent.{lone};

    ghost next = { λ n. n.next };

    ghost prev = { λ n. n.prev };

    ghost key = { λ n. 0 };

    ghost blank = { lone };

    #[inline]
    fn behind(&self) -> u32 {
        self.next
    }

    #[inline]
    fn before(&self) -> u32 {
        self.prev
    }

    #[inline]
    fn set_behind(&mut self, node: u32) {
        self.next = node;
    }

    #[inline]
    fn set_before(&mut self, node: u32) {
        self.prev = node;
    }
}

// Lets there be as many nodes as are asked for, each of which stands alone.
fn lay_out(links: &mut Vec<Link>, count: u32)
    requires room { count ≤ vec_capacity links.old }
    ensures room { vec_capacity links.new ≡ vec_capacity links.old }
    ensures alone { AreLone count links.new.items }
{
    links.clear();
    for i in 0..count {
        links.push_reserved(Link { next: i, prev: i });
    }
}

// Lets a place wait with a key, wherever it stands.
#[inline]
fn wait(links: &mut [Link], keys: &mut [u64], places: u32, place: u32, key: u64)
    requires circles { AreLent places links.old keys.old }
    requires room { length keys.old ≡ places }
    requires place { place < places }
    requires key { key < nothing }
    ensures circles { AreLent places links.new keys.new }
    ensures waiting { (p : ℕ) → p < places → waiting_key links.new keys.new p
        ≡ (if p == place then key else waiting_key links.old keys.old p) }
    ensures settled { (p : ℕ) → p < places → settled_key links.new keys.new p
        ≡ (if p == place then nothing else settled_key links.old keys.old p) }
{
    keys[place as usize] = key;
    take_out(links, place);
    put_behind(links, bucket_of(places, key), place);
}

// Takes a place out of its circle, so that it is settled with the key that it has.
#[inline]
fn settle(links: &mut [Link], places: u32, place: u32)
    requires circles { (keys : List ℕ) × AreLent places links.old keys }
    requires place { place < places }
    ensures circles { (keys : List ℕ) → AreLent places links.old keys →
        AreLent places links.new keys }
    ensures waiting { (keys : List ℕ) → AreLent places links.old keys → (p : ℕ) → p < places →
        waiting_key links.new keys p
        ≡ (if p == place then nothing else waiting_key links.old keys p) }
    ensures settled { (keys : List ℕ) → AreLent places links.old keys → (p : ℕ) → p < places →
        settled_key links.new keys p
        ≡ (if p == place then slice_index keys p else settled_key links.old keys p) }
{
    take_out(links, place);
}

/// A queue for the places below a number, whose keys stand in a table that is lent to each call.
#[derive(Drop)]
pub struct LentBuckets {
    links: Vec<Link>,
    places: u32,
    now: u64,
    last: u64,
}

impl Model for LentBuckets {
    ghost use Rattle.std.specs.Prelude.{◌≡◌, ◌<◌, ◌≤◌, ◌+◌, ◌^◌, vec_capacity};
    ghost use Rattle.surf_buckets.specs.Lent.{LentTables};

    ghost Value = { LentTables };

    ghost view = { λ b. record {
      links = b.links.items;
      places = b.places;
      now = b.now;
      last = b.last;
    } };

    ghost invariant = { λ b. (b.places < 2 ^ 31) × (b.places + 4096 ≤ vec_capacity b.links) };
}

impl LentBuckets {
    /// A queue for the places below a number. No later call takes memory, and none of it is
    /// written before the first `start`.
    pub fn make(alloc: Global, places: u32) -> Result<LentBuckets, NoMemory>
        requires few { places < 2 ^ 31 }
        ensures places { IfOk result (λ b. b.places ≡ places) }
    {
        let links = Vec::with_capacity(alloc, (places + BUCKETS) as usize)?;
        Ok(LentBuckets {
            links,
            places,
            now: 0,
            last: 0,
        })
    }

    /// Begins anew: no place waits, and none is settled. Each key is that of a place without one.
    pub fn start(&mut self, keys: &mut [u64])
        requires room { length keys.old ≡ self.old.places }
        ensures filing { IsFiling self.new keys.new }
        ensures waiting { waiting self.new keys.new ≡ replicate (length keys.old) None }
        ensures settled { settled self.new keys.new ≡ replicate (length keys.old) nothing }
        ensures now { self.new.now ≡ 0 }
        ensures places { self.new.places ≡ self.old.places }
    {
        keys.fill(NOTHING);
        lay_out(&mut self.links, self.places + BUCKETS);
        self.now = 0;
        self.last = 0;
    }

    /// Lets a place wait with a key, unless it waits with one that is no greater, or is settled.
    /// All other places stay as they are.
    #[inline]
    pub fn offer(&mut self, keys: &mut [u64], place: u32, key: u64)
        requires filing { IsFiling self.old keys.old }
        requires place { place < length keys.old }
        requires from { self.old.now ≤ key }
        requires window { key < self.old.now + BUCKETS }
        requires key { key < nothing }
        requires settled { slice_index (settled self.old keys.old) place ≢ nothing →
            slice_index (settled self.old keys.old) place ≤ key }
        ensures filing { IsFiling self.new keys.new }
        ensures waiting { slice_index (settled self.old keys.old) place ≡ nothing →
            waiting self.new keys.new ≡ slice_set (waiting self.old keys.old) place
            (Some (lesser (entry_of (waiting self.old keys.old) place) key 0)) }
        ensures stays { slice_index (settled self.old keys.old) place ≢ nothing →
            waiting self.new keys.new ≡ waiting self.old keys.old }
        ensures settled { settled self.new keys.new ≡ settled self.old keys.old }
        ensures now { self.new.now ≡ self.old.now }
        ensures places { self.new.places ≡ self.old.places }
    {
        if key < keys[place as usize] {
            wait(&mut self.links, keys, self.places, place, key);
            self.last = self.last.max(key);
        }
    }

    /// Takes out a place whose key is least, and gives it with its key, to which the queue has
    /// come and with which the place is settled. None exactly where no place waits, and then each
    /// key is that of a settled place. It reads no key, and serves for all that it files.
    #[inline]
    pub fn take_least(&mut self) -> Option<(u32, u64)>
        requires filing { (keys : List ℕ) × IsFiling self.old keys }
        ensures filing { (keys : List ℕ) → IsFiling self.old keys → IsFiling self.new keys }
        ensures taken { (keys : List ℕ) → IsFiling self.old keys →
            TakesNearest (waiting self.old keys) (waiting self.new keys) result }
        ensures settled { (keys : List ℕ) → IsFiling self.old keys →
            MatchOption result ((settled self.old keys ≡ keys) × (settled self.new keys ≡ keys))
            (λ r. settled self.new keys ≡ slice_set (settled self.old keys) r.0 r.1) }
        ensures now { MatchOption result (self.new.now ≡ self.old.now) (λ r. self.new.now ≡ r.1) }
        ensures places { self.new.places ≡ self.old.places }
    {
        match first_full(&self.links, self.places, self.now, self.last) {
            None => None,
            Some((place, key)) => {
                settle(&mut self.links, self.places, place);
                self.now = key;
                Some((place, key))
            }
        }
    }
}
