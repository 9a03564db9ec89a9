//! What a search from one vertex tells of the loop of an edge.
ghost use Rattle.std.specs.Prelude.{◌≡◌, true, false, IsTrue, min};
ghost use Rattle.surf_choice.specs.Places.{place_of, is_sought};
ghost use Rattle.surf_finder.specs.Found.{IsSearched, IsReachedAt, IsUnwanted, IsKeyOf, reached_at, is_between, told_loop, may_matter};
ghost use Rattle.surf_finder.specs.Keys.{IsKey, key_class};
ghost use Rattle.surf_finder.specs.Places.{radius_of};
ghost use Rattle.surf_finder.specs.Rises.{IsRise};

use crate::keys::Key;
use crate::kinds::Kinds;
use crate::rises::{Rise, Rises};
use crate::surface::SignedSurface;
use crate::ways::Ways;
use surf_base::VertexId;
use surf_bits::Signature;
use surf_choice::Candidate;
use surf_near::{Links, NearDesk};

/// What a search from a base has reached, on a surface whose edges have kinds and are in the order
/// of their lesser ends. Lengths are those of the links.
#[derive(Clone, Copy)]
pub(crate) struct Reached<'r, 'a> {
    pub surface: &'r SignedSurface<'a>,
    pub links: &'r Links<'a>,
    pub kinds: &'r Kinds,
    pub rises: &'r Rises,
    pub desk: &'r NearDesk,
    pub ways: &'r Ways,
}

/// Whether a candidate comes before a limit, by length and then by base.
pub fn is_sought(candidate: &Candidate, limit: &Option<Candidate>) -> bool
    ensures sought { result ≡ is_sought limit.now (place_of candidate.now) }
{
    match limit {
        Some(last) => {
            candidate.length < last.length
                || candidate.length == last.length && candidate.base.number() < last.base.number()
        }
        None => true,
    }
}

// How far a search has to go that finds the loops before a limit: the ends of an edge are within
// half the length of its loop. No loop as long as a limit at vertex 0 comes before it.
pub(crate) fn radius(limit: &Option<Candidate>) -> u64
    ensures radius { result ≡ radius_of limit.now }
{
    match limit {
        Some(last) if last.base.number() == 0 => last.length.saturating_sub(1) / 2,
        Some(last) => last.length / 2,
        None => u64::MAX,
    }
}

// The lesser of two vertices.
fn lesser(u: VertexId, v: VertexId) -> VertexId
    ensures lesser { result ≡ min u v }
{
    if u.number() <= v.number() { u } else { v }
}

// Whether the greater end of an edge was reached too, and its loop may be other than null. Most
// edges are passed over here, by what stands at their two ends.
pub(crate) fn may_matter(reached: &Reached<'_, '_>, rise: &Rise) -> bool
    requires searched { IsSearched reached.now }
    requires rise { IsRise reached.now.surface.now.mesh.now rise.now }
    requires low { IsReachedAt reached.now rise.now.low }
    ensures matters { result ≡ may_matter (reached_at reached.now) rise.now }
    ensures off { result ≡ false → IsUnwanted (reached_at reached.now) rise.now.edge }
    ensures between { result ≡ true → IsTrue (is_between (reached_at reached.now) rise.now.edge) }
{
    reached.desk.is_near(rise.high)
        && !(reached.kinds.kind(rise.edge) == 0 && reached.ways.are_alike(rise.low, rise.high))
}

// The length and the least base of the loop of an edge whose ends were reached.
pub(crate) fn candidate_of(reached: &Reached<'_, '_>, rise: &Rise) -> Candidate
    requires searched { IsSearched reached.now }
    requires rise { IsRise reached.now.surface.now.mesh.now rise.now }
    requires between { IsTrue (is_between (reached_at reached.now) rise.now.edge) }
    ensures told { result ≡ (told_loop (reached_at reached.now) rise.now.edge).candidate }
{
    let desk = reached.desk;
    let length = u64::from(reached.links.length_of(rise.edge));
    Candidate {
        length: desk.distance(rise.low) + length + desk.distance(rise.high),
        base: lesser(desk.least(rise.low), desk.least(rise.high)),
        edge: rise.edge,
    }
}

// The key of the loop of an edge whose ends were reached.
pub(crate) fn key_of(reached: &Reached<'_, '_>, rise: &Rise) -> Key
    requires searched { IsSearched reached.now }
    requires rise { IsRise reached.now.surface.now.mesh.now rise.now }
    requires between { IsTrue (is_between (reached_at reached.now) rise.now.edge) }
    ensures key { IsKeyOf reached.now rise.now.edge result }
{
    let low = reached.ways.number(rise.low);
    let high = reached.ways.number(rise.high);
    Key::new(low, high, reached.kinds.kind(rise.edge))
}

// The class of a loop, by its key.
pub(crate) fn class_of(reached: &Reached<'_, '_>, key: &Key) -> Signature
    requires key { IsKey reached.now.ways.now reached.now.kinds.now key.now }
    ensures class { result ≡ key_class reached.now.ways.now reached.now.kinds.now key.now }
{
    let mut class = reached.ways.class(key.low).copy();
    class.add(reached.kinds.signature(key.kind).bits());
    class.add(reached.ways.class(key.high).bits());
    class
}

// The hash of that class.
pub(crate) fn hash_of(reached: &Reached<'_, '_>, key: &Key) -> u64
    requires key { IsKey reached.now.ways.now reached.now.kinds.now key.now }
{
    reached.ways.hash(key.low) ^ reached.kinds.hash(key.kind) ^ reached.ways.hash(key.high)
}
