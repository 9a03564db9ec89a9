//! The rings of vertices, and where there is none.
ghost use Rattle.std.specs.Prelude.{◌≡◌, ◌<◌, ℕ, length, replicate, OnOk, IfOk, MatchOption};
ghost use Rattle.std.specs.Prelude.{slice_index, true, false};
ghost use Rattle.surf_surfaces.specs.Surface.{HasOneFan};
ghost use Rattle.surf_soup.specs.Reach.{marked};
ghost use Rattle.surf_surfaces.specs.SideNumber.{side_count, owners};
ghost use Rattle.surf_soup.specs.EdgeTable.{AreEdgeNumbers};
ghost use Rattle.surf_soup.specs.Half.{AreAllMates};
ghost use Rattle.surf_soup.specs.Pairing.{IsPairingOf};
ghost use Rattle.surf_soup.specs.Pairs.{HasTwoFaces};
ghost use Rattle.surf_soup.specs.Vertices.{all_corners, AllMet};
ghost use Rattle.surf_soup.specs.Ring.{IsRoundMarked, IsRoundListed, BeginsAt, AreMarkedFans, AreMarkedRings};
ghost use Rattle.surf_soup.specs.Ring.{IsLeastPinch, AreRings};
ghost use Rattle.surf_soup.specs.First.{AreFirstSides, IsFirstLeft};

use crate::Soup;
use crate::darts::Darts;
use crate::pairing::Pairing;
use crate::side_faces::SideFaces;
use std::alloc::Global;
use surf_base::{EdgeId, FaceId, NoMemory, SideId, VertexId};
use surf_rows::PairedRows;

/// The ring of each vertex and the edges that go with it, or the least vertex whose faces are more
/// than one cycle.
#[derive(Drop)]
pub enum Rings {
    All(PairedRows<SideId, EdgeId>),
    Pinched {
        v: VertexId,
        first: FaceId,
        second: FaceId,
    },
}

/// The least vertex whose faces are more than one cycle, its least face, and the least face outside
/// that face's cycle.
#[derive(Clone, Copy, Debug, PartialEq, Eq)]
pub struct Pinch {
    pub v: VertexId,
    pub first: FaceId,
    pub second: FaceId,
}

// Goes round a vertex from one of its sides, and marks the sides that it meets.
fn mark_round(darts: &Darts<'_>, home: SideId, seen: &mut [bool])
    requires home { home < side_count darts.now.mesh }
    requires size { length seen.old ≡ side_count darts.now.mesh }
    requires fresh { (s : ℕ) → BeginsAt darts.now.mesh
        (slice_index (all_corners darts.now.mesh) home) s → marked seen.old s ≡ false }
    ensures { IsRoundMarked darts.now.mesh darts.now.mate home seen.old seen.new }
{
    darts.law_of_darts();
    let mut side = darts.side_before(home);
    let mut head = true;
    let mut at = home;
    while !seen[at.index()] {
        seen[at.index()] = true;
        (side, head, at) = darts.turn_dart(side, head);
    }
}

// Goes round a vertex from one of its sides, and lists the sides and the edges that it meets.
fn go_round(
    darts: &Darts<'_>,
    edge_of: &[EdgeId],
    home: SideId,
    seen: &mut [bool],
    sides: &mut Vec<SideId>,
    edges: &mut Vec<EdgeId>,
) -> Result<(), NoMemory>
    requires numbers { AreEdgeNumbers darts.now.mesh edge_of.now }
    requires home { home < side_count darts.now.mesh }
    requires size { length seen.old ≡ side_count darts.now.mesh }
    requires fresh { (s : ℕ) → BeginsAt darts.now.mesh
        (slice_index (all_corners darts.now.mesh) home) s → marked seen.old s ≡ false }
    ensures { OnOk result (IsRoundListed darts.now.mesh darts.now.mate
        edge_of.now home seen.old seen.new
        sides.old.items sides.new.items edges.old.items edges.new.items) }
{
    darts.law_of_darts();
    let mut side = darts.side_before(home);
    let mut head = true;
    let mut corner = home;
    while !seen[corner.index()] {
        seen[corner.index()] = true;
        sides.push(corner)?;
        edges.push(edge_of[side.index()])?;
        (side, head, corner) = darts.turn_dart(side, head);
    }
    Ok(())
}

/// The first of some sides that isn't marked.
pub fn first_left(row: &[SideId], seen: &[bool]) -> Option<usize>
    requires { (k : ℕ) → k < length row.now → slice_index row.now k < length seen.now }
    ensures { MatchOption result ((k : ℕ) → k < length row.now →
        marked seen.now (slice_index row.now k) ≡ true) (λ f. (f < length row.now)
        × (marked seen.now (slice_index row.now f) ≡ false) × ((j : ℕ) → j < f →
        marked seen.now (slice_index row.now j) ≡ true)) }
{
    for k in 0..row.len() {
        if !seen[row[k].index()] {
            return Some(k);
        }
    }
    None
}

// Goes round each vertex in turn, from the first of its sides, and marks the sides that are met.
fn mark_rounds(darts: &Darts<'_>, seen: &mut [bool])
    requires fresh { seen.old ≡ replicate (side_count darts.now.mesh) false }
    ensures { AreMarkedFans darts.now.mesh seen.new darts.now.mesh.vertices }
{
    darts.law_of_darts();
    let first = darts.firsts();
    for home in first {
        mark_round(darts, *home, seen);
    }
}

// Goes round each vertex in turn, from the first of its sides, and lists the rings.
fn go_rings(
    alloc: Global,
    darts: &Darts<'_>,
    edge_of: &[EdgeId],
    seen: &mut [bool],
) -> Result<PairedRows<SideId, EdgeId>, NoMemory>
    requires numbers { AreEdgeNumbers darts.now.mesh edge_of.now }
    requires fresh { seen.old ≡ replicate (side_count darts.now.mesh) false }
    ensures fans { OnOk result (AreMarkedFans darts.now.mesh seen.new
        darts.now.mesh.vertices) }
    ensures rings { IfOk result (λ t. AreMarkedRings darts.now.mesh seen.new
        darts.now.mesh.vertices t.0 t.1) }
{
    darts.law_of_darts();
    let first = darts.firsts();
    let room = darts.tails().len();
    let mut sides = Vec::with_capacity(alloc, room)?;
    let mut edges = Vec::with_capacity(alloc, room)?;
    let mut ends = Vec::with_capacity(alloc, first.len())?;
    for home in first {
        go_round(darts, edge_of, *home, seen, &mut sides, &mut edges)?;
        ends.push(sides.len() as u32)?;
    }
    Ok(PairedRows::from_parts(sides, edges, ends))
}

// The least vertex with a side that isn't marked, and the least such side there.
fn least_left(darts: &Darts<'_>, seen: &[bool]) -> Option<(VertexId, SideId)>
    requires { length seen.now ≡ side_count darts.now.mesh }
    ensures { MatchOption result ((s : ℕ) → s < side_count darts.now.mesh →
        marked seen.now s ≡ true)
        (λ p. IsFirstLeft (all_corners darts.now.mesh) seen.now p.0 p.1) }
{
    darts.law_of_darts();
    let corners = darts.tails();
    let none = VertexId::new(darts.vertices());
    let mut least = none;
    let mut side = SideId::new(0);
    for s in 0..corners.len() {
        if !seen[s] && corners[s] < least {
            least = corners[s];
            side = SideId::new(s as u32);
        }
    }
    if least == none {
        return None;
    }
    Some((least, side))
}

// The pinch at the least vertex with a side that no round met.
fn pinch_left(darts: &Darts<'_>, seen: &[bool]) -> Option<Pinch>
    requires size { length seen.now ≡ side_count darts.now.mesh }
    requires fans { AreMarkedFans darts.now.mesh seen.now darts.now.mesh.vertices }
    ensures { MatchOption result ((s : ℕ) → s < side_count darts.now.mesh →
        marked seen.now s ≡ true) (λ p. IsLeastPinch darts.now.mesh p.v p.first p.second) }
{
    darts.law_of_darts();
    let first = darts.firsts();
    match least_left(darts, seen) {
        None => None,
        Some((v, left)) => {
            let home = first[v.index()];
            Some(Pinch {
                v,
                first: darts.face_at(home),
                second: darts.face_at(left),
            })
        }
    }
}

// The pinch at the least vertex that has one, by marks of the sides that rounds meet.
fn pinch_by(darts: &Darts<'_>, seen: &mut [bool]) -> Option<Pinch>
    requires fresh { seen.old ≡ replicate (side_count darts.now.mesh) false }
    ensures { MatchOption result ((v : ℕ) → v < darts.now.mesh.vertices →
        HasOneFan darts.now.mesh v)
        (λ p. IsLeastPinch darts.now.mesh p.v p.first p.second) }
{
    mark_rounds(darts, seen);
    pinch_left(darts, seen)
}

// The rings of all vertices where no side is left, and else the pinch at the least vertex with one
// that is.
fn judge_rings(
    alloc: Global,
    darts: &Darts<'_>,
    edge_of: &[EdgeId],
    seen: &mut [bool],
) -> Result<Rings, NoMemory>
    requires numbers { AreEdgeNumbers darts.now.mesh edge_of.now }
    requires fresh { seen.old ≡ replicate (side_count darts.now.mesh) false }
    ensures { IfOk result (λ r. AreRings darts.now.mesh r) }
{
    let rings = go_rings(alloc, darts, edge_of, seen)?;
    match pinch_left(darts, seen) {
        None => Ok(Rings::All(rings)),
        Some(Pinch { v, first, second }) => Ok(Rings::Pinched { v, first, second }),
    }
}

/// The ring of each vertex, or the least vertex whose faces are more than one cycle.
///
/// A round from the first side of a vertex marks the sides that it meets. Where one side is left
/// after all rounds, its vertex is pinched.
pub fn find_rings(
    alloc: Global,
    soup: &Soup,
    pairing: &Pairing,
    first: &[SideId],
) -> Result<Rings, NoMemory>
    requires two { HasTwoFaces soup.now }
    requires pairing { IsPairingOf soup.now pairing.now }
    requires first { AreFirstSides soup.now first.now }
    requires met { AllMet soup.now }
    ensures { IfOk result (λ r. AreRings soup.now r) }
{
    soup.law_of_soup();
    let darts = Darts {
        soup,
        face_of: &pairing.face_of,
        mate: &pairing.mate,
        first,
    };
    let mut seen = vec![in alloc; false; soup.side_count() as usize]?;
    let rings = judge_rings(alloc, &darts, &pairing.edge_of, &mut seen)?;
    Ok(rings)
}

/// The least vertex whose faces are more than one cycle. It makes the rounds of `find_rings`, and
/// lists nothing.
pub fn find_pinch(
    alloc: Global,
    soup: &Soup,
    pairing: &Pairing,
    first: &[SideId],
) -> Result<Option<Pinch>, NoMemory>
    requires two { HasTwoFaces soup.now }
    requires pairing { IsPairingOf soup.now pairing.now }
    requires first { AreFirstSides soup.now first.now }
    requires met { AllMet soup.now }
    ensures { IfOk result (λ found. MatchOption found ((v : ℕ) → v < soup.now.vertices →
        HasOneFan soup.now v) (λ p. IsLeastPinch soup.now p.v p.first p.second)) }
{
    find_pinch_by(alloc, soup, &pairing.mate, &pairing.face_of, first)
}

/// The least pinch, as [`find_pinch`] finds it, by the mates and the faces of sides alone.
pub fn find_pinch_by(
    alloc: Global,
    soup: &Soup,
    mate: &[SideId],
    face_of: &SideFaces,
    first: &[SideId],
) -> Result<Option<Pinch>, NoMemory>
    requires two { HasTwoFaces soup.now }
    requires mates { AreAllMates soup.now mate.now }
    requires faces { face_of.now ≡ owners 0 soup.now.faces }
    requires first { AreFirstSides soup.now first.now }
    requires met { AllMet soup.now }
    ensures { IfOk result (λ found. MatchOption found ((v : ℕ) → v < soup.now.vertices →
        HasOneFan soup.now v) (λ p. IsLeastPinch soup.now p.v p.first p.second)) }
{
    soup.law_of_soup();
    let darts = Darts {
        soup,
        face_of,
        mate,
        first,
    };
    let mut seen = vec![in alloc; false; soup.side_count() as usize]?;
    let found = pinch_by(&darts, &mut seen);
    Ok(found)
}
