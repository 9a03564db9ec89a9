//! Whether the faces at each vertex are connected through the sides that end there.
ghost use Rattle.std.specs.Prelude.{◌≡◌, ◌≢◌, ◌<◌, ◌^◌, ℕ, length, All, IfOk, OnOk, IfErr, slice_index};
ghost use Rattle.std.specs.Prelude.{slice_index_or, []};
ghost use Rattle.surf_surfaces.specs.SideNumber.{side_count};
ghost use Rattle.surf_soup.specs.Vertices.{all_corners, AllMet};
ghost use Rattle.surf_disc.specs.Across.{NoneCrowded};
ghost use Rattle.surf_disc.specs.Links.{AreLinked, AreFirsts, AreFansMarked, over_corner};
ghost use Rattle.surf_disc.specs.Fault.{AllFans, IsDiscFault};
ghost use Rattle.surf_disc.specs.declared.faults.DiscFault.TheVariants.{Memory};

use crate::DiscFault;
use crate::corners::CornerTables;
use std::alloc::Global;
use surf_base::{FaceId, NoMemory, SideId, VertexId};
use surf_rows::Rows;
use surf_soup::{face_in, first_left, reach};

// The corner at a vertex across a side that ends there.
fn corner_across(
    next: &[SideId],
    across: &[SideId],
    tails: &[VertexId],
    side: SideId,
    v: VertexId,
) -> SideId
    requires side { side < length across.now }
    requires across { All (λ t. t < length next.now) across.now }
    requires tails { length tails.now ≡ length next.now }
    ensures corner { result ≡ over_corner next.now across.now tails.now side v }
{
    let over = across[side.index()];
    if tails[over.index()] == v {
        over
    } else {
        next[over.index()]
    }
}

// For each corner the corners of its vertex across its two sides.
fn link_corners(alloc: Global, corners: &CornerTables<'_>) -> Result<Rows<u32>, NoMemory>
    ensures rows { IfOk result (λ rows. AreLinked
        corners.now.next.now corners.now.prev.now corners.now.across.now
        (all_corners corners.now.soup.now) (side_count corners.now.soup.now) rows) }
{
    let soup = corners.soup;
    let next = corners.next;
    let prev = corners.prev;
    let across = corners.across;
    soup.law_of_soup();
    let tails = soup.corners();
    let count = soup.side_count() as usize;
    let vertices = soup.vertices() as usize;
    // (a further row has the first corner of each vertex)
    let ends = Vec::with_capacity(alloc, count + 1)?;
    let mut rows = Rows::in_room(Vec::with_capacity(alloc, 2 * count + vertices)?, ends);
    for s in 0..soup.side_count() {
        let side = SideId::new(s);
        let v = tails[side.index()];
        let before = prev[side.index()];
        let over_this = corner_across(next, across, tails, side, v);
        let over_that = corner_across(next, across, tails, before, v);
        rows.push(&[over_this.number(), over_that.number()])?;
    }
    Ok(rows)
}

// The first corner of each vertex.
fn first_corners(alloc: Global, at_vertex: &Rows<SideId>) -> Result<Vec<u32>, NoMemory>
    requires some { (v : ℕ) → v < length at_vertex.now
        → 0 < length (slice_index_or at_vertex.now v []) }
    ensures firsts { IfOk result (λ firsts.
        AreFirsts at_vertex.now (length at_vertex.now) firsts.items) }
{
    let mut firsts = Vec::with_capacity(alloc, at_vertex.len())?;
    for v in 0..at_vertex.len() {
        firsts.push(at_vertex.row(v)[0].number())?;
    }
    Ok(firsts)
}

// Marks the corners whose faces are connected with the first face of their vertex: one walk from
// a further row that leads to the first corner of each vertex.
fn mark_fans(alloc: Global, corners: &CornerTables<'_>) -> Result<Vec<bool>, NoMemory>
    requires met { AllMet corners.now.soup.now }
    ensures fans { IfOk result (λ seen. AreFansMarked corners.now.soup.now seen.items) }
{
    let soup = corners.soup;
    soup.law_of_soup();
    let start = soup.side_count();
    let mut rows = link_corners(alloc, corners)?;
    let firsts = first_corners(alloc, corners.at_vertex)?;
    rows.push(&firsts)?;
    let seen = reach(alloc, &rows, start)?;
    Ok(seen)
}

// Looks for the first vertex with a corner that isn't marked.
fn refuse_unmarked(corners: &CornerTables<'_>, seen: &[bool]) -> Result<(), DiscFault>
    requires none_crowded { NoneCrowded corners.now.soup.now }
    requires met { AllMet corners.now.soup.now }
    requires fans { AreFansMarked corners.now.soup.now seen.now }
    ensures ok { OnOk result (AllFans corners.now.soup.now) }
    ensures fault { IfErr result (λ e. IsDiscFault corners.now.soup.now e) }
    ensures sure { IfErr result (λ e. e ≢ Memory) }
{
    let soup = corners.soup;
    let at_vertex = corners.at_vertex;
    let face_of = corners.face_of;
    soup.law_of_soup();
    for v in 0..soup.vertices() {
        let row = at_vertex.row(v as usize);
        if let Some(k) = first_left(row, seen) {
            let first = face_in(row, 0, face_of);
            let second = face_in(row, k, face_of);
            return Err(DiscFault::Pinched {
                v: VertexId::new(v),
                first,
                second,
            });
        }
    }
    Ok(())
}

/// Refuses a soup where the faces at some vertex aren't connected through the sides that end there.
pub(crate) fn refuse_pinched(alloc: Global, corners: &CornerTables<'_>) -> Result<(), DiscFault>
    requires none_crowded { NoneCrowded corners.now.soup.now }
    requires met { AllMet corners.now.soup.now }
    ensures ok { OnOk result (AllFans corners.now.soup.now) }
    ensures fault { IfErr result (λ e. IsDiscFault corners.now.soup.now e) }
{
    let seen = mark_fans(alloc, corners)?;
    refuse_unmarked(corners, &seen)
}
