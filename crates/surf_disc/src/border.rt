//! The border: the edges with one face, and whether they are one cycle.
ghost use Rattle.std.specs.Prelude.{◌≡◌, ◌≢◌, ◌<◌, ◌==◌, ◌^◌, ℕ, length, All, OnOk, IfOk, IfErr, MatchOption};
ghost use Rattle.std.specs.Prelude.{slice_index, slice_index_or, [], true, false, count_by};
ghost use Rattle.std.specs.List.{flat_map};
ghost use Rattle.surf_surfaces.specs.Disc.{IsBorderEdge};
ghost use Rattle.surf_soup.specs.Reach.{marked};
ghost use Rattle.surf_soup.specs.Vertices.{all_corners};
ghost use Rattle.surf_disc.specs.Border.{with_end, border_ends, AreNeighbours, IsLeastOnBorder, IsBorderMarked};
ghost use Rattle.surf_disc.specs.Border.{HasOneBorder, AllInside, IsFirstOutside};
ghost use Rattle.surf_disc.specs.Fault.{IsPatch, IsDiscFault};
ghost use Rattle.surf_disc.specs.declared.faults.DiscFault.TheVariants.{Memory};

use crate::corners::{CornerTables, TabledSoup};
use crate::{BorderKind, DiscFault};
use std::alloc::Global;
use surf_base::{EdgeId, NoMemory, SideId, VertexId};
use surf_rows::Rows;
use surf_soup::{first_row, reach};

// Adds the other end of a side that has nothing across it.
fn push_end(
    row: &mut Vec<u32>,
    across: &[SideId],
    side: SideId,
    end: VertexId,
) -> Result<(), NoMemory>
    requires side { side < length across.now }
    ensures ends { OnOk result (row.new.items ≡ with_end across.now side end row.old.items) }
{
    if across[side.index()] == side {
        row.push(end.number())?;
    }
    Ok(())
}

// Lists the other ends of the border edges at some corners.
fn list_ends(
    row: &mut Vec<u32>,
    corners: &[SideId],
    next: &[SideId],
    prev: &[SideId],
    across: &[SideId],
    tails: &[VertexId],
) -> Result<(), NoMemory>
    requires corners { All (λ s. s < length next.now) corners.now }
    requires nexts { All (λ s. s < length next.now) next.now }
    requires prevs { All (λ s. s < length next.now) prev.now }
    requires prev_size { length prev.now ≡ length next.now }
    requires across_size { length across.now ≡ length next.now }
    requires tails_size { length tails.now ≡ length next.now }
    ensures ends { OnOk result (row.new.items
        ≡ flat_map (border_ends next.now prev.now across.now tails.now) corners.now) }
{
    row.clear();
    for corner in corners {
        let side = *corner;
        let after = next[side.index()];
        let before = prev[side.index()];
        push_end(row, across, side, tails[after.index()])?;
        push_end(row, across, before, tails[before.index()])?;
    }
    Ok(())
}

// The other ends of the border edges at each vertex.
fn border_rows(alloc: Global, corners: &CornerTables<'_>) -> Result<Rows<u32>, NoMemory>
    ensures rows { IfOk result (λ rows. AreNeighbours corners.now.soup.now
        corners.now.next.now corners.now.prev.now corners.now.across.now
        (all_corners corners.now.soup.now) corners.now.soup.now.vertices rows) }
{
    let soup = corners.soup;
    let next = corners.next;
    let prev = corners.prev;
    let across = corners.across;
    let at_vertex = corners.at_vertex;
    soup.law_of_soup();
    let tails = soup.corners();
    let ends = Vec::with_capacity(alloc, at_vertex.len())?;
    let mut rows = Rows::in_room(Vec::new(alloc), ends);
    let mut row = Vec::new(alloc);
    for v in 0..soup.vertices() {
        list_ends(
            &mut row,
            at_vertex.row(v as usize),
            next,
            prev,
            across,
            tails,
        )?;
        rows.push(&row)?;
    }
    Ok(rows)
}

/// The least border edge.
pub(crate) fn least_border(tabled: &TabledSoup<'_>) -> Option<EdgeId>
    ensures least { MatchOption result ((e : ℕ) → IsBorderEdge tabled.now.soup.now e → ⊥)
        (λ e. IsLeastOnBorder tabled.now.soup.now e) }
{
    tabled.soup.law_of_soup();
    match first_row(&tabled.table.sides, 1, 1) {
        None => None,
        Some(e) => Some(EdgeId::new(e as u32)),
    }
}

/// Marks the vertices of the cycle of border edges through the least one.
pub(crate) fn mark_border(
    alloc: Global,
    corners: &CornerTables<'_>,
    least: EdgeId,
) -> Result<Vec<bool>, NoMemory>
    requires least { IsLeastOnBorder corners.now.soup.now least }
    ensures marks { IfOk result (λ seen. IsBorderMarked corners.now.soup.now least seen.items) }
{
    let soup = corners.soup;
    let table = corners.table;
    soup.law_of_soup();
    let (low, _) = table.edges[least.index()];
    let rows = border_rows(alloc, corners)?;
    let seen = reach(alloc, &rows, low.number())?;
    Ok(seen)
}

// The first row of one side whose edge has a lesser end that isn't marked.
fn first_outside(
    sides: &Rows<SideId>,
    edges: &[(VertexId, VertexId)],
    seen: &[bool],
) -> Option<usize>
    requires size { length edges.now ≡ length sides.now }
    requires ends { (e : ℕ) → e < length edges.now
        → (slice_index_or edges.now e (0, 0)).0 < length seen.now }
    ensures first { MatchOption result (AllInside sides.now edges.now seen.now (length sides.now))
        (λ h. IsFirstOutside sides.now edges.now seen.now h) }
{
    for e in 0..sides.len() {
        if sides.row(e).len() == 1 {
            let (low, _) = edges[e];
            if !seen[low.index()] {
                return Some(e);
            }
        }
    }
    None
}

/// Refuses a soup where some border edge is outside the cycle of the least one.
pub(crate) fn refuse_second(
    tabled: &TabledSoup<'_>,
    e: EdgeId,
    seen: &[bool],
) -> Result<(), DiscFault>
    requires patch { IsPatch tabled.now.soup.now }
    requires least { IsLeastOnBorder tabled.now.soup.now e }
    requires marks { IsBorderMarked tabled.now.soup.now e seen.now }
    ensures one { OnOk result (HasOneBorder tabled.now.soup.now) }
    ensures fault { IfErr result (λ e. IsDiscFault tabled.now.soup.now e) }
    ensures sure { IfErr result (λ e. e ≢ Memory) }
{
    let soup = tabled.soup;
    let table = tabled.table;
    soup.law_of_soup();
    if let Some(h) = first_outside(&table.sides, &table.edges, seen) {
        let (u, v) = table.edges[e.index()];
        let (s, t) = table.edges[h];
        return Err(DiscFault::Border {
            kind: BorderKind::Two { u, v, s, t },
        });
    }
    Ok(())
}

/// How many rows have one side.
pub(crate) fn count_single(sides: &Rows<SideId>) -> u32
    requires few { length sides.now < 2 ^ 32 }
    ensures count { result ≡ count_by (λ row. length row == 1) sides.now }
{
    let mut count = 0;
    for e in 0..sides.len() {
        if sides.row(e).len() == 1 {
            count += 1;
        }
    }
    count
}
