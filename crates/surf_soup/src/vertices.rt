//! The sides that begin at each vertex.
ghost use Rattle.std.specs.Prelude.{◌≡◌, ◌<◌, map, IfOk, MatchOption};
ghost use Rattle.std.specs.List.{range_with_len};
ghost use Rattle.surf_surfaces.specs.SideNumber.{side_count};
ghost use Rattle.surf_soup.specs.Vertices.{sides_at, IsLeastIsolated, AllMet};
ghost use Rattle.surf_soup.specs.First.{AreFirstSides};

use crate::Soup;
use std::alloc::Global;
use surf_base::{NoMemory, SideId, VertexId};
use surf_rows::{Rows, group_sides};

// The numbers of vertices.
fn vertex_numbers(alloc: Global, corners: &[VertexId]) -> Result<Vec<u32>, NoMemory>
    ensures { IfOk result (λ v. v.items ≡ corners.now) }
{
    let mut numbers = Vec::with_capacity(alloc, corners.len())?;
    for corner in corners {
        numbers.push(corner.number())?;
    }
    Ok(numbers)
}

/// The sides that begin at each vertex, in order.
pub fn vertex_sides(
    alloc: Global,
    soup: &Soup,
    numbers: &[SideId],
) -> Result<Rows<SideId>, NoMemory>
    requires { numbers.now ≡ range_with_len 0 (side_count soup.now) }
    ensures { IfOk result (λ rows. rows ≡ map (sides_at soup.now)
        (range_with_len 0 soup.now.vertices)) }
{
    soup.law_of_soup();
    let count = soup.vertices();
    let tails = vertex_numbers(alloc, soup.corners())?;
    Ok(group_sides(alloc, numbers, &tails, count)?)
}

/// The least side that begins at each vertex; the number of all sides where none begins there.
pub fn first_sides(alloc: Global, soup: &Soup) -> Result<Vec<SideId>, NoMemory>
    ensures { IfOk result (λ v. AreFirstSides soup.now v.items) }
{
    soup.law_of_soup();
    let corners = soup.corners();
    let none = SideId::new(soup.side_count());
    let mut first = vec![in alloc; none; soup.vertices() as usize]?;
    for s in (0..corners.len()).rev() {
        first[corners[s].index()] = SideId::new(s as u32);
    }
    Ok(first)
}

/// The least vertex that is in no face.
pub fn find_isolated(soup: &Soup, first: &[SideId]) -> Option<VertexId>
    requires { AreFirstSides soup.now first.now }
    ensures { MatchOption result (AllMet soup.now) (λ v. IsLeastIsolated soup.now v) }
{
    soup.law_of_soup();
    let none = SideId::new(soup.side_count());
    for v in 0..soup.vertices() {
        if first[v as usize] == none {
            return Some(VertexId::new(v));
        }
    }
    None
}
