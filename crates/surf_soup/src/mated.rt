//! The mates of sides alone, read off the sorted rows.
ghost use Rattle.std.specs.Prelude.{◌≡◌, ◌<◌, ◌+◌, ◌↔◌, length, take, slice_set, replicate, true, false, Some, None, IsTrue, IfOk, IfErr, MatchBool, MatchOption};
ghost use Rattle.std.specs.List.{sum_by};
ghost use Rattle.surf_surfaces.specs.Surface.{face_count};
ghost use Rattle.surf_soup.specs.Half.{AreAllMates};
ghost use Rattle.surf_soup.specs.Pairs.{HasTwoFaces, IsPairFault};
ghost use Rattle.surf_soup.specs.Pairing.{AreMated, AreGreaterEnds};
ghost use Rattle.surf_surfaces.specs.Mesh.{edges};

use crate::Soup;
use crate::entries::{SideEntries, side_entries};
use crate::pairs::{PairFault, find_fault};
use std::alloc::Global;
use surf_base::{NoMemory, SideId, VertexId};

/// The mate of each side, and whether each vertex is the greater end of an edge.
#[derive(Drop)]
pub struct MatedSides {
    pub mate: Vec<SideId>,
    pub greater: Vec<bool>,
}

// The mates of the sides so far, the greater ends of their edges, and the last edge.
#[derive(Drop)]
struct Mates {
    mate: Vec<SideId>,
    greater: Vec<bool>,
    last: Option<(VertexId, VertexId)>,
}

// No mates yet, with room for those of some sides over some vertices.
fn no_mates(alloc: Global, sides: usize, vertices: usize) -> Result<Mates, NoMemory>
    ensures size { IfOk result (λ mates. length mates.mate.items ≡ sides) }
    ensures unmarked { IfOk result (λ mates. mates.greater.items ≡ replicate vertices false) }
    ensures none { IfOk result (λ mates. mates.last ≡ None) }
{
    Ok(Mates {
        mate: vec![in alloc; SideId::new(0); sides]?,
        greater: vec![in alloc; false; vertices]?,
        last: None,
    })
}

// Whether the last pair is this one.
fn is_last_pair(last: Option<(VertexId, VertexId)>, low: VertexId, high: VertexId) -> bool
    ensures { IsTrue result ↔ (last ≡ Some (low, high)) }
{
    match last {
        None => false,
        Some(pair) => pair.0 == low && pair.1 == high,
    }
}

// Makes two sides mates.
fn join_mates(mates: &mut Mates, ends: (VertexId, VertexId), first: SideId, second: SideId)
    requires first { first < length mates.old.mate.items }
    requires second { second < length mates.old.mate.items }
    requires high { ends.1 < length mates.old.greater.items }
    ensures mates { mates.new.mate.items
        ≡ slice_set (slice_set mates.old.mate.items first second) second first }
    ensures greater { mates.new.greater.items ≡ slice_set mates.old.greater.items ends.1 true }
    ensures last { mates.new.last ≡ Some ends }
{
    mates.mate[first.index()] = second;
    mates.mate[second.index()] = first;
    mates.greater[ends.1.index()] = true;
    mates.last = Some(ends);
}

// Joins the sides with a lesser end, if they come in pairs.
fn mate_row(entries: &SideEntries<'_>, vertex: u32, mates: &mut Mates) -> bool
    requires vertex { vertex < entries.now.mesh.vertices }
    requires so_far { AreMated entries.now.mesh (sum_by length (take vertex entries.now.rows))
        mates.old }
    ensures { MatchBool result (AreMated entries.now.mesh (sum_by length
        (take (vertex + 1) entries.now.rows)) mates.new) (HasTwoFaces entries.now.mesh → ⊥) }
{
    entries.law_of_entries();
    let low = VertexId::new(vertex);
    let row = entries.row(vertex);
    for k in 0..row.len() / 2 {
        let (high, first) = row[2 * k];
        let (other, second) = row[2 * k + 1];
        if other != high || is_last_pair(mates.last, low, high) {
            return false;
        }
        join_mates(mates, (low, high), first, second);
    }
    row.len() % 2 == 0
}

// Joins all sides, if they come in pairs.
fn mate_rows(entries: &SideEntries<'_>, mates: &mut Mates) -> bool
    requires { AreMated entries.now.mesh 0 mates.old }
    ensures { MatchBool result (AreMated entries.now.mesh (sum_by length entries.now.rows) mates.new)
        (HasTwoFaces entries.now.mesh → ⊥) }
{
    entries.law_of_entries();
    for v in 0..entries.vertices() {
        if !mate_row(entries, v, mates) {
            return false;
        }
    }
    true
}

// The mate of each side, exactly where each edge is a side of exactly two faces.
fn soup_mates(alloc: Global, soup: &Soup) -> Result<Option<MatedSides>, NoMemory>
    ensures { IfOk result (λ found. MatchOption found (HasTwoFaces soup.now → ⊥)
        (λ mated. HasTwoFaces soup.now × AreAllMates soup.now mated.mate.items
        × AreGreaterEnds soup.now.vertices (edges soup.now) mated.greater.items)) }
{
    soup.law_of_soup();
    let entries = side_entries(alloc, soup)?;
    entries.law_of_entries();
    let mut mates = no_mates(alloc, soup.side_count() as usize, soup.vertices() as usize)?;
    if mate_rows(&entries, &mut mates) {
        let Mates { mate, greater, .. } = mates;
        Ok(Some(MatedSides { mate, greater }))
    } else {
        Ok(None)
    }
}

/// The mate of each side, exactly where a soup has a face and each edge is a side of exactly two
/// faces; else the first fault, in the order of `PairFault`. Unlike `paired_sides` it makes no
/// table of the edges.
pub fn mated_sides(alloc: Global, soup: &Soup) -> Result<MatedSides, PairFault>
    ensures some { IfOk result (λ _. 0 < face_count soup.now) }
    ensures two { IfOk result (λ _. HasTwoFaces soup.now) }
    ensures mates { IfOk result (λ mated. AreAllMates soup.now mated.mate.items) }
    ensures greater { IfOk result (λ mated. AreGreaterEnds soup.now.vertices (edges soup.now)
        mated.greater.items) }
    ensures fault { IfErr result (λ e. IsPairFault soup.now e) }
{
    if soup.faces() == 0 {
        return Err(PairFault::Empty);
    }
    match soup_mates(alloc, soup)? {
        Some(mated) => Ok(mated),
        None => Err(find_fault(alloc, soup)?),
    }
}
