//! Whether each edge of a soup is a side of exactly two faces.
ghost use Rattle.std.specs.Prelude.{◌≡◌, ◌≢◌, ◌<◌, length, MatchOption, IfOk, IfErr};
ghost use Rattle.std.specs.Prelude.{slice_index};
ghost use Rattle.surf_soup.specs.EdgeTable.{IsTableOf};
ghost use Rattle.surf_soup.specs.Pairing.{IsPairingOf};
ghost use Rattle.surf_soup.specs.Pairs.{NoneWithin, IsFirstWithin, HasTwoFaces, IsPairFault};
ghost use Rattle.surf_soup.specs.declared.pairs.PairFault.TheVariants.{Memory};
ghost use Rattle.surf_surfaces.specs.Mesh.{edges};
ghost use Rattle.surf_surfaces.specs.Surface.{face_count};

use crate::Soup;
use crate::pairing::{Pairing, pair_sides};
use crate::tables::{EdgeTable, edge_table};
use std::alloc::Global;
use surf_base::{FaceId, NoMemory, SideId, VertexId};
use surf_rows::Rows;

/// Why the edges of a soup aren't paired. The variants come in the order in which they are tested.
#[derive(Clone, Copy, Debug, PartialEq, Eq)]
pub enum PairFault {
    /// There is no face.
    Empty,
    /// The least edge that is a side of one face only, and its face.
    Border {
        u: VertexId,
        v: VertexId,
        face: FaceId,
    },
    /// The least edge that is a side of three or more faces, and its three least faces.
    Crowded {
        u: VertexId,
        v: VertexId,
        faces: [FaceId; 3],
    },
    /// The memory didn't suffice.
    Memory,
}

impl From<NoMemory> for PairFault {
    ghost from_gives = { λ _ e. e ≡ Memory };

    fn from(_: NoMemory) -> PairFault {
        PairFault::Memory
    }
}

/// The first row whose length is within bounds.
pub fn first_row(rows: &Rows<SideId>, least: usize, most: usize) -> Option<usize>
    ensures { MatchOption result (NoneWithin least most rows.now)
        (λ e. IsFirstWithin least most rows.now e) }
{
    for e in 0..rows.len() {
        let size = rows.row(e).len();
        if least <= size && size <= most {
            return Some(e);
        }
    }
    None
}

/// The face of the side at a place of a row.
pub fn face_in(row: &[SideId], k: usize, face_of: &[FaceId]) -> FaceId
    requires place { k < length row.now }
    requires side { slice_index row.now k < length face_of.now }
    ensures { result ≡ slice_index face_of.now (slice_index row.now k) }
{
    face_of[row[k].index()]
}

// The fault at an edge with one side.
fn border_at(soup: &Soup, table: &EdgeTable, e: usize) -> PairFault
    requires table { IsTableOf soup.now table.now }
    requires first { IsFirstWithin 1 1 table.now.sides e }
    requires some { 0 < face_count soup.now }
    ensures fault { IsPairFault soup.now result }
    ensures sure { result ≢ Memory }
{
    soup.law_of_soup();
    let (u, v) = table.edges[e];
    let face = face_in(table.sides.row(e), 0, &table.face_of);
    PairFault::Border { u, v, face }
}

// The fault at an edge with many sides.
fn crowd_at(soup: &Soup, table: &EdgeTable, e: usize) -> PairFault
    requires table { IsTableOf soup.now table.now }
    requires no_border { NoneWithin 1 1 table.now.sides }
    requires first { IsFirstWithin 3 usize.MAX table.now.sides e }
    requires some { 0 < face_count soup.now }
    ensures fault { IsPairFault soup.now result }
    ensures sure { result ≢ Memory }
{
    soup.law_of_soup();
    let (u, v) = table.edges[e];
    let row = table.sides.row(e);
    let first = face_in(row, 0, &table.face_of);
    let second = face_in(row, 1, &table.face_of);
    let third = face_in(row, 2, &table.face_of);
    PairFault::Crowded {
        u,
        v,
        faces: [first, second, third],
    }
}

/// The fault of a soup with a face where some edge isn't a side of exactly two faces.
pub(crate) fn find_fault(alloc: Global, soup: &Soup) -> Result<PairFault, NoMemory>
    requires some { 0 < face_count soup.now }
    requires unpaired { HasTwoFaces soup.now → ⊥ }
    ensures fault { IfOk result (λ fault. IsPairFault soup.now fault) }
    ensures sure { IfOk result (λ fault. fault ≢ Memory) }
{
    soup.law_of_soup();
    let table = edge_table(alloc, soup)?;
    if let Some(e) = first_row(&table.sides, 1, 1) {
        return Ok(border_at(soup, &table, e));
    }
    match first_row(&table.sides, 3, usize::MAX) {
        Some(e) => Ok(crowd_at(soup, &table, e)),
        None => unreachable!(),
    }
}

/// The sides of a soup in pairs, exactly where it has a face and each edge is a side of exactly two
/// faces; else the first fault, in the order of `PairFault`.
pub fn paired_sides(alloc: Global, soup: &Soup) -> Result<Pairing, PairFault>
    ensures some { IfOk result (λ _. 0 < face_count soup.now) }
    ensures two { IfOk result (λ _. HasTwoFaces soup.now) }
    ensures pairing { IfOk result (λ p. IsPairingOf soup.now p) }
    ensures fault { IfErr result (λ e. IsPairFault soup.now e) }
{
    if soup.faces() == 0 {
        return Err(PairFault::Empty);
    }
    match pair_sides(alloc, soup)? {
        Some(pairing) => Ok(pairing),
        None => Err(find_fault(alloc, soup)?),
    }
}

/// The edges of a soup, increasing, exactly where it has a face and each edge is a side of exactly
/// two faces; else the first fault, in the order of `PairFault`.
pub fn pair_edges(alloc: Global, soup: &Soup) -> Result<Vec<(VertexId, VertexId)>, PairFault>
    ensures ok { IfOk result (λ v. (0 < face_count soup.now) × HasTwoFaces soup.now
        × (v.items ≡ edges soup.now)) }
    ensures fault { IfErr result (λ e. IsPairFault soup.now e) }
    ensures excludes { IfErr result (λ e. e ≢ Memory → 0 < face_count soup.now →
        HasTwoFaces soup.now → ⊥) }
{
    match paired_sides(alloc, soup) {
        Ok(pairing) => Ok(pairing.edges),
        Err(fault) => Err(fault),
    }
}
