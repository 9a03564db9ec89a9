//! What lies across each side.
ghost use Rattle.std.specs.Prelude.{◌≡◌, ◌<◌, length, IfOk};
ghost use Rattle.surf_surfaces.specs.SideNumber.{side_count};
ghost use Rattle.surf_disc.specs.Across.{NoneCrowded, AreAcrossUpTo, other_of};

use crate::corners::TabledSoup;
use std::alloc::Global;
use surf_base::{NoMemory, SideId};

// The other one of a row of two sides, or the only one of a row of one.
fn other_side(row: &[SideId], side: SideId) -> SideId
    requires some { 0 < length row.now }
    ensures other { result ≡ other_of row.now side }
{
    if row[0] == side {
        row[row.len() - 1]
    } else {
        row[0]
    }
}

/// For each side the other side of its edge, or the side itself where it is on the border.
pub(crate) fn all_across(alloc: Global, tabled: &TabledSoup<'_>) -> Result<Vec<SideId>, NoMemory>
    requires few { NoneCrowded tabled.now.soup.now }
    ensures across { IfOk result (λ v.
        AreAcrossUpTo tabled.now.soup.now (side_count tabled.now.soup.now) v.items) }
{
    let soup = tabled.soup;
    let table = tabled.table;
    soup.law_of_soup();
    let count = soup.side_count();
    let mut across = Vec::with_capacity(alloc, count as usize)?;
    for s in 0..count {
        let side = SideId::new(s);
        let edge = table.edge_of[side.index()];
        let row = table.sides.row(edge.index());
        across.push(other_side(row, side))?;
    }
    Ok(across)
}
