//! Sides in pairs, read off the sorted rows.
ghost use Rattle.std.specs.Prelude.{◌≡◌, ◌<◌, ◌+◌, ◌^◌, ◌∷◌, ◌++◌, [], length, take, slice_set, OnOk, IfOk, MatchBool, MatchOption};
ghost use Rattle.std.specs.List.{sum_by};
ghost use Rattle.surf_soup.specs.Pairs.{HasTwoFaces};
ghost use Rattle.surf_soup.specs.Pairing.{IsPairingOf, ArePaired, AreNoPairs, HasAllPairs};

use crate::Soup;
use crate::entries::{SideEntries, side_entries};
use crate::side_faces::SideFaces;
use crate::tables::is_last;
use std::alloc::Global;
use surf_base::{EdgeId, NoMemory, SideId, VertexId};

/// The edges of a soup that are sides of exactly two faces each, and for each of them the lesser of
/// its two sides; the mate, the edge and the face of each side.
#[derive(Drop)]
pub struct Pairing {
    pub edges: Vec<(VertexId, VertexId)>,
    pub first: Vec<SideId>,
    pub mate: Vec<SideId>,
    pub edge_of: Vec<EdgeId>,
    pub face_of: SideFaces,
}

// What is known of the edges and sides that are paired so far.
#[derive(Drop)]
struct Pairs {
    edges: Vec<(VertexId, VertexId)>,
    first: Vec<SideId>,
    mate: Vec<SideId>,
    edge_of: Vec<EdgeId>,
}

// No pairs yet, with room for those of some sides.
fn no_pairs(alloc: Global, sides: usize) -> Result<Pairs, NoMemory>
    ensures { IfOk result (λ pairs. AreNoPairs sides pairs) }
{
    Ok(Pairs {
        edges: Vec::with_capacity(alloc, sides / 2)?,
        first: Vec::with_capacity(alloc, sides / 2)?,
        mate: vec![in alloc; SideId::new(0); sides]?,
        edge_of: vec![in alloc; EdgeId::new(0); sides]?,
    })
}

// Adds an edge with its two sides.
fn join_sides(
    pairs: &mut Pairs,
    ends: (VertexId, VertexId),
    first: SideId,
    second: SideId,
) -> Result<(), NoMemory>
    requires first { first < length pairs.old.mate.items }
    requires second { second < length pairs.old.mate.items }
    requires numbers { length pairs.old.edge_of.items ≡ length pairs.old.mate.items }
    requires few { length pairs.old.edges.items < 2 ^ 32 }
    ensures edges { OnOk result (pairs.new.edges.items ≡ pairs.old.edges.items ++ ends ∷ []) }
    ensures firsts { OnOk result (pairs.new.first.items ≡ pairs.old.first.items ++ first ∷ []) }
    ensures mates { OnOk result (pairs.new.mate.items
        ≡ slice_set (slice_set pairs.old.mate.items first second) second first) }
    ensures numbers { OnOk result (pairs.new.edge_of.items ≡ slice_set
        (slice_set pairs.old.edge_of.items first (length pairs.old.edges.items)) second
        (length pairs.old.edges.items)) }
{
    let edge = EdgeId::new(pairs.edges.len() as u32);
    pairs.mate[first.index()] = second;
    pairs.mate[second.index()] = first;
    pairs.edge_of[first.index()] = edge;
    pairs.edge_of[second.index()] = edge;
    pairs.edges.push(ends)?;
    pairs.first.push(first)?;
    Ok(())
}

// Pairs the sides with a lesser end, if they come in pairs.
fn pair_row(entries: &SideEntries<'_>, vertex: u32, pairs: &mut Pairs) -> Result<bool, NoMemory>
    requires vertex { vertex < entries.now.mesh.vertices }
    requires so_far { ArePaired entries.now.mesh (sum_by length (take vertex entries.now.rows))
        pairs.old }
    ensures { IfOk result (λ paired. MatchBool paired (ArePaired entries.now.mesh (sum_by length
        (take (vertex + 1) entries.now.rows)) pairs.new) (HasTwoFaces entries.now.mesh → ⊥)) }
{
    entries.law_of_entries();
    let low = VertexId::new(vertex);
    let row = entries.row(vertex);
    for k in 0..row.len() / 2 {
        let (high, first) = row[2 * k];
        let (other, second) = row[2 * k + 1];
        if other != high || is_last(&pairs.edges, low, high) {
            return Ok(false);
        }
        join_sides(pairs, (low, high), first, second)?;
    }
    Ok(row.len() % 2 == 0)
}

// Pairs all sides, if they come in pairs.
fn pair_rows(entries: &SideEntries<'_>, pairs: &mut Pairs) -> Result<bool, NoMemory>
    requires { ArePaired entries.now.mesh 0 pairs.old }
    ensures { IfOk result (λ paired. MatchBool paired (ArePaired entries.now.mesh (sum_by length
        entries.now.rows) pairs.new) (HasTwoFaces entries.now.mesh → ⊥)) }
{
    entries.law_of_entries();
    for v in 0..entries.vertices() {
        if !pair_row(entries, v, pairs)? {
            return Ok(false);
        }
    }
    Ok(true)
}

// The pairs of a soup whose edges are sides of exactly two faces each.
fn soup_pairs(alloc: Global, soup: &Soup) -> Result<Option<Pairs>, NoMemory>
    ensures { IfOk result (λ found. MatchOption found (HasTwoFaces soup.now → ⊥)
        (λ pairs. HasAllPairs soup.now pairs)) }
{
    soup.law_of_soup();
    let entries = side_entries(alloc, soup)?;
    entries.law_of_entries();
    let mut pairs = no_pairs(alloc, soup.side_count() as usize)?;
    if pair_rows(&entries, &mut pairs)? {
        Ok(Some(pairs))
    } else {
        Ok(None)
    }
}

/// The sides of a soup in pairs, exactly where each edge is a side of exactly two faces.
pub fn pair_sides(alloc: Global, soup: &Soup) -> Result<Option<Pairing>, NoMemory>
    ensures { IfOk result (λ found. MatchOption found (HasTwoFaces soup.now → ⊥)
        (λ pairing. HasTwoFaces soup.now × IsPairingOf soup.now pairing)) }
{
    soup.law_of_soup();
    let Some(pairs) = soup_pairs(alloc, soup)? else {
        return Ok(None);
    };
    let Pairs {
        edges,
        first,
        mate,
        edge_of,
    } = pairs;
    Ok(Some(Pairing {
        edges,
        first,
        mate,
        edge_of,
        face_of: SideFaces::build(alloc, soup)?,
    }))
}
