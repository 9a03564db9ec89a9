//! The tables of a search.
ghost use Rattle.std.specs.Prelude.{◌≡◌, ◌≢◌, ◌<◌, ◌≤◌, ◌+◌, ℕ, min, length, slice_set};
ghost use Rattle.surf_base.specs.Tables.{at};
ghost use Rattle.surf_near.specs.Near.{never};
ghost use Rattle.surf_near.specs.Searching.{ListsSettled};

use surf_base::{EdgeId, VertexId};

/// The distance of a vertex that isn't settled.
pub(crate) const NEVER: u64 = u64::MAX;

/// What the links of a vertex tell of it: its least tight neighbour, the edge to that, and the
/// least vertex on a shortest way.
#[derive(Clone, Copy)]
pub(crate) struct Choice {
    pub parent: u32,
    pub up: u32,
    pub least: u32,
}

impl Choice {
    /// The choice where one more neighbour is tight, with the edge to it and its least vertex.
    #[inline]
    pub(crate) fn with_tight(self, to: u32, edge: u32, least: u32) -> Choice
        ensures lower { to < self.parent → (result.parent ≡ to) × (result.up ≡ edge) }
        ensures higher { self.parent ≤ to →
            (result.parent ≡ self.parent) × (result.up ≡ self.up) }
        ensures least { result.least ≡ min self.least least }
    {
        Choice {
            parent: self.parent.min(to),
            up: if to < self.parent { edge } else { self.up },
            least: self.least.min(least),
        }
    }
}

/// The settled vertices in order, and what is known of each vertex.
#[derive(Drop)]
pub(crate) struct Tables {
    pub order: Vec<VertexId>,
    pub count: usize,
    pub distance: Vec<u64>,
    pub parent: Vec<u32>,
    pub up: Vec<u32>,
    pub least: Vec<u32>,
}

impl Tables {
    /// Lists a vertex as the next one, with its distance.
    pub(crate) fn list(&mut self, v: u32, distance: u64)
        requires vertex { v < length self.old.distance.items }
        requires room { self.old.count < length self.old.order.items }
        ensures order { self.new.order.items ≡ slice_set self.old.order.items self.old.count v }
        ensures count { self.new.count ≡ self.old.count + 1 }
        ensures distance { self.new.distance.items ≡ slice_set self.old.distance.items v distance }
        ensures parent { self.new.parent ≡ self.old.parent }
        ensures up { self.new.up ≡ self.old.up }
        ensures least { self.new.least ≡ self.old.least }
    {
        self.order[self.count] = VertexId::new(v);
        self.count += 1;
        self.distance[v as usize] = distance;
    }

    /// Keeps what the links of a vertex tell.
    pub(crate) fn keep(&mut self, v: u32, choice: Choice)
        requires parent { v < length self.old.parent.items }
        requires up { v < length self.old.up.items }
        requires least { v < length self.old.least.items }
        ensures order { self.new.order ≡ self.old.order }
        ensures count { self.new.count ≡ self.old.count }
        ensures distance { self.new.distance ≡ self.old.distance }
        ensures parent { self.new.parent.items ≡ slice_set self.old.parent.items v choice.parent }
        ensures up { self.new.up.items ≡ slice_set self.old.up.items v choice.up }
        ensures least { self.new.least.items ≡ slice_set self.old.least.items v choice.least }
    {
        self.parent[v as usize] = choice.parent;
        self.up[v as usize] = choice.up;
        self.least[v as usize] = choice.least;
    }
}

/// Takes the listed vertices' distances away.
pub(crate) fn forget(order: &[VertexId], distance: &mut [u64])
    requires inside { (i : ℕ) → i < length order.now → at order.now i < length distance.old }
    requires listed { ListsSettled order.now distance.old }
    ensures none { (v : ℕ) → v < length distance.old → at distance.new v ≡ never }
{
    for v in order {
        distance[v.index()] = NEVER;
    }
}
