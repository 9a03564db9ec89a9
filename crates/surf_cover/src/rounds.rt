//! The vertex at which the shortest walk that is chosen in a class begins.
ghost use Rattle.std.specs.Prelude.{◌≡◌, ◌≢◌, ◌<◌, ◌≤◌, ◌*◌, ◌/◌, ◌%◌, ◌⊎◌, ℕ, true, false, None, Some, length, MatchBool};
ghost use Rattle.std.specs.Prelude.{MatchOption};
ghost use Rattle.surf_z2.specs.Sieve.{has};
ghost use Rattle.surf_graphs.specs.Cells.{IsSplit};
ghost use Rattle.surf_graphs.specs.Trees.{Tree};
ghost use Rattle.surf_surfaces.specs.Cells.{cells_of};
ghost use Rattle.surf_surfaces.specs.Surface.{edge_count};
ghost use Rattle.surf_cotree.specs.Tables.{split_with};
ghost use Rattle.surf_tree.specs.Searches.{far};
ghost use Rattle.surf_cover.specs.Tables.{AreCoverTables, distance_at, sets_of};
ghost use Rattle.surf_cover.specs.Grown.{IsSigned};
ghost use Rattle.surf_cover.specs.Within.{AreListed};
ghost use Rattle.surf_cover.specs.Starts.{IsLesserEnd, IsDivided, IsOnRound, AreClosedSets};
ghost use Rattle.surf_cover.specs.Starts.{IsStartBy, IsUpTo, IsBetter, IsLeastStart};

use crate::desk::CoverDesk;
use crate::search::FAR;
use surf_base::VertexId;
use surf_cotree::CotreeDesk;
use surf_lengths::Lengths;
use surf_mesh::HalfMesh;

/// Where a round begins, and its length.
#[derive(Clone, Copy)]
pub(crate) struct Start {
    pub(crate) vertex: VertexId,
    pub(crate) length: u64,
}

// The least number of a set that isn't empty.
fn least_number(set: u32) -> u32
    requires some { set ≢ 0 }
    ensures few { result < 32 }
    ensures has { has set result ≡ true }
    ensures least { (k : ℕ) → k < result → has set k ≡ false }
{
    set.trailing_zeros()
}

// Whether a vertex is the lesser end of an edge whose signature has a number.
fn is_lesser_end(mesh: &HalfMesh, cotree: &CotreeDesk, v: VertexId, number: u32) -> bool
    requires vertex { v < mesh.now.vertices }
    requires number { number < 32 }
    requires signatures { length cotree.now.signatures ≡ edge_count mesh.now }
    ensures end { MatchBool result (IsLesserEnd mesh.now cotree.now.signatures number v)
        (IsLesserEnd mesh.now cotree.now.signatures number v → ⊥) }
{
    for edge in mesh.edges_at(v) {
        let (end, _) = mesh.ends(*edge);
        if end == v && cotree.signature(*edge).bit(number) {
            return true;
        }
    }
    false
}

// Whether the ways from the base to a vertex, with a part of a set and with the rest, are so long
// together.
fn is_on_round(desk: &CoverDesk, v: VertexId, part: u32, set: u32, length: u64) -> bool
    requires vertex { v < desk.now.vertices }
    requires part { part < desk.now.sets }
    requires set { set < desk.now.sets }
    requires closed { AreClosedSets desk.now }
    ensures on_round { MatchBool result (IsDivided desk.now set length v part)
        (IsDivided desk.now set length v part → ⊥) }
{
    let there = desk.distance(v, part);
    let back = desk.distance(v, set ^ part);
    there <= length && back == length - there
}

// The lesser of a vertex and that of a node by which a round with a set and of a length goes.
fn lesser_by(desk: &CoverDesk, node: u32, set: u32, length: u64, vertex: VertexId) -> VertexId
    requires node { node < desk.now.vertices * desk.now.sets }
    requires set { set < desk.now.sets }
    requires closed { AreClosedSets desk.now }
    ensures one { (result ≡ vertex) ⊎ IsOnRound desk.now set length result }
    ensures low { result ≤ vertex }
    ensures here { IsDivided desk.now set length (node / desk.now.sets) (node % desk.now.sets) →
        result ≤ node / desk.now.sets }
{
    let sets = desk.sets();
    let v = VertexId::new(node / sets);
    if v.number() < vertex.number() && is_on_round(desk, v, node % sets, set, length) {
        v
    } else {
        vertex
    }
}

// The least vertex on the shortest rounds with a set at the base, or none where these are past the
// radius of the search.
fn start_by(desk: &CoverDesk, base: VertexId, set: u32) -> Option<Start>
    requires base { base < desk.now.vertices }
    requires set { set < desk.now.sets }
    requires closed { AreClosedSets desk.now }
    requires listed { AreListed desk.now.distances desk.now.settled }
    requires nodes { length desk.now.distances ≡ desk.now.vertices * desk.now.sets }
    requires none { distance_at desk.now base 0 ≡ 0 }
    ensures start { MatchOption result (distance_at desk.now base set ≡ far)
        (IsStartBy desk.now base set) }
{
    let length = desk.distance(base, set);
    if length == FAR {
        return None;
    }
    let mut vertex = base;
    for node in desk.settled() {
        vertex = lesser_by(desk, *node, set, length, vertex);
    }
    Some(Start { vertex, length })
}

// The shorter of the best start so far, if there is one, and another: of two as short the one at
// the lesser vertex.
fn better(best: Option<Start>, other: Start) -> Start
    ensures one { (result ≡ other) ⊎ (best ≡ Some result) }
    ensures other { IsUpTo result other.vertex other.length }
    ensures best { (start : Start) → best ≡ Some start → IsUpTo result start.vertex start.length }
{
    let Some(best) = best else {
        return other;
    };
    let is_before = best.vertex.number() <= other.vertex.number();
    if best.length < other.length || (best.length == other.length && is_before) {
        best
    } else {
        other
    }
}

// The best start so far, if there is one, or the better of it and another that was found.
fn improved(best: Option<Start>, found: Option<Start>) -> Option<Start>
    ensures none { found ≡ None → result ≡ best }
    ensures some { (other : Start) → found ≡ Some other → IsBetter best other result }
{
    match found {
        None => best,
        Some(other) => Some(better(best, other)),
    }
}

// How far a search need go: what is farther is on no round that is as short as the best so far.
fn length_so_far(best: &Option<Start>) -> u64
    ensures length { MatchOption best.now (result ≡ far) (λ start. result ≡ start.length) }
{
    match best {
        None => FAR,
        Some(start) => start.length,
    }
}

/// The least vertex at which a round with a set is shortest, and its length. Such a round goes by
/// way of the lesser end of an edge whose signature has the least number of the set, so searches
/// begin at these vertices alone. None goes farther than the best length so far: a round that is
/// just as long may still begin at a lesser vertex.
pub(crate) fn least_start(
    desk: &mut CoverDesk,
    mesh: &HalfMesh,
    lengths: &Lengths,
    cotree: &CotreeDesk,
    set: u32,
) -> Start
    requires made { AreCoverTables mesh.now desk.old }
    requires signed { IsSigned mesh.now cotree.now }
    requires lengths { length lengths.now ≡ edge_count mesh.now }
    requires set { set < sets_of mesh.now }
    requires some { set ≢ 0 }
    ensures made { AreCoverTables mesh.now desk.new }
    ensures least { (tree : Tree) → IsSplit (cells_of mesh.now) (split_with tree cotree.now) →
        IsLeastStart mesh.now lengths.now (split_with tree cotree.now) set result }
{
    mesh.law_of_surface();
    lengths.law_of_lengths();
    let number = least_number(set);
    desk.sign(mesh, cotree);
    let mut best = None;
    for v in 0..mesh.vertices() {
        let base = VertexId::new(v);
        if is_lesser_end(mesh, cotree, base, number) {
            desk.grow_within(mesh, lengths, base, length_so_far(&best));
            let found = start_by(desk, base, set);
            best = improved(best, found);
        }
    }
    match best {
        Some(start) => start,
        None => unreachable!(),
    }
}
