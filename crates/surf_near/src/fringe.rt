//! The vertices that a search has reached and not settled.
ghost use Rattle.std.specs.Prelude.{◌≡◌, ◌<◌, ◌≤◌, ◌+◌, ◌^◌, length, replicate, slice_set, MatchOption, None, Some, IfOk};
ghost use Rattle.surf_heap.specs.Entries.{entry_of, lesser};
ghost use Rattle.surf_buckets.specs.Buckets.{TakesNearest};
ghost use Rattle.surf_near.specs.Near.{never};

use std::alloc::Global;
use std::marker::Model;
use surf_base::NoMemory;
use surf_buckets::{BUCKETS, Buckets};
use surf_heap::Heap;

/// For each vertex the distance at which it waits, or nothing. Where no edge is as long as there
/// are buckets, they wait in buckets, and else in a heap.
#[derive(Drop)]
pub(crate) struct Fringe {
    heap: Heap,
    buckets: Buckets,
    step: u32,
    now: u64,
}

impl Model for Fringe {
    ghost use Rattle.surf_near.specs.Fringe.{FringeTables, waiting, IsFringe};

    ghost Value = { FringeTables };

    ghost view = { λ f. record {
      entries = waiting f.step f.buckets.entries f.heap;
      now = f.now;
      step = f.step;
    } };

    ghost invariant = { λ f. IsFringe f.step f.now f.buckets f.heap };
}

impl Fringe {
    /// A fringe for the vertices below a number. No later call takes memory.
    pub(crate) fn make(alloc: Global, vertices: u32) -> Result<Fringe, NoMemory>
        requires few { vertices < 2 ^ 31 }
        ensures places { IfOk result (λ f. length f.entries ≡ vertices) }
    {
        let heap = Heap::make(alloc, vertices)?;
        let buckets = Buckets::make(alloc, vertices)?;
        Ok(Fringe {
            heap,
            buckets,
            step: 0,
            now: 0,
        })
    }

    /// Lets no vertex wait. From now on each edge is at most as long as `step`.
    pub(crate) fn clear(&mut self, step: u32)
        ensures empty { self.new.entries ≡ replicate (length self.old.entries) None }
        ensures now { self.new.now ≡ 0 }
        ensures step { self.new.step ≡ step }
    {
        if step < BUCKETS {
            self.buckets.clear();
        } else {
            self.heap.clear();
        }
        self.step = step;
        self.now = 0;
    }

    /// Lets a vertex wait at a distance, unless it waits at one that is no greater.
    #[inline]
    pub(crate) fn offer(&mut self, v: u32, distance: u64)
        requires vertex { v < length self.old.entries }
        requires from { self.old.now ≤ distance }
        requires to { distance ≤ self.old.now + self.old.step }
        requires distance { distance < never }
        ensures entry { self.new.entries ≡ slice_set self.old.entries v
            (Some (lesser (entry_of self.old.entries v) distance 0)) }
        ensures now { self.new.now ≡ self.old.now }
        ensures step { self.new.step ≡ self.old.step }
    {
        if self.step < BUCKETS {
            self.buckets.offer(v, distance);
        } else {
            self.heap.offer(v, distance, 0);
        }
    }

    /// Takes out a vertex whose distance is least, and gives it with its distance. None exactly
    /// where none waits.
    #[inline]
    pub(crate) fn take_least(&mut self) -> Option<(u32, u64)>
        ensures taken { TakesNearest self.old.entries self.new.entries result }
        ensures now { MatchOption result (self.new.now ≡ self.old.now) (λ r. self.new.now ≡ r.1) }
        ensures step { self.new.step ≡ self.old.step }
    {
        if self.step < BUCKETS {
            let (v, distance) = self.buckets.take_least()?;
            self.now = distance;
            return Some((v, distance));
        }
        let (v, distance, _) = self.heap.take_least()?;
        self.now = distance;
        Some((v, distance))
    }
}
