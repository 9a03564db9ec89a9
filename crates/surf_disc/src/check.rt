//! The check of a disc, by its faults in their order.
ghost use Rattle.std.specs.Prelude.{◌≡◌, ◌≢◌, ◌+◌, ◌<◌, ℕ, OnOk, IfOk, IfErr};
ghost use Rattle.surf_surfaces.specs.Disc.{IsDisc, IsBorderEdge};
ghost use Rattle.surf_surfaces.specs.Surface.{face_count, edge_count};
ghost use Rattle.surf_soup.specs.Pairs.{IsFirstWithin};
ghost use Rattle.surf_soup.specs.Vertices.{AllMet};
ghost use Rattle.surf_disc.specs.Across.{NoneCrowded};
ghost use Rattle.surf_disc.specs.Border.{border_count, HasOneBorder};
ghost use Rattle.surf_disc.specs.Fault.{IsPatch, IsDiscFault};
ghost use Rattle.surf_disc.specs.declared.faults.DiscFault.TheVariants.{Memory};

use crate::across::all_across;
use crate::apart::refuse_apart;
use crate::border::{count_single, least_border, mark_border, refuse_second};
use crate::corners::{CornerTables, TabledSoup};
use crate::fans::refuse_pinched;
use crate::{BorderKind, DiscFault};
use std::alloc::Global;
use surf_soup::{
    Soup, Turn, edge_table, face_in, find_isolated, first_row, first_sides, turned_sides,
    vertex_sides,
};

// The fault at an edge with many sides.
fn crowd_at(tabled: &TabledSoup<'_>, e: usize) -> DiscFault
    requires first { IsFirstWithin 3 usize.MAX tabled.now.table.now.sides e }
    ensures fault { IsDiscFault tabled.now.soup.now result }
    ensures sure { result ≢ Memory }
{
    let soup = tabled.soup;
    let table = tabled.table;
    soup.law_of_soup();
    let (u, v) = table.edges[e];
    let row = table.sides.row(e);
    let first = face_in(row, 0, &table.face_of);
    let second = face_in(row, 1, &table.face_of);
    let third = face_in(row, 2, &table.face_of);
    DiscFault::Crowded {
        u,
        v,
        faces: [first, second, third],
    }
}

// Refuses a soup where some edge is a side of three or more faces.
fn refuse_crowded(tabled: &TabledSoup<'_>) -> Result<(), DiscFault>
    ensures ok { OnOk result (NoneCrowded tabled.now.soup.now) }
    ensures fault { IfErr result (λ e. IsDiscFault tabled.now.soup.now e) }
    ensures sure { IfErr result (λ e. e ≢ Memory) }
{
    tabled.soup.law_of_soup();
    if let Some(e) = first_row(&tabled.table.sides, 3, usize::MAX) {
        return Err(crowd_at(tabled, e));
    }
    Ok(())
}

// Refuses a soup where some vertex is in no face.
fn refuse_isolated(alloc: Global, soup: &Soup) -> Result<(), DiscFault>
    requires none_crowded { NoneCrowded soup.now }
    ensures ok { OnOk result (AllMet soup.now) }
    ensures fault { IfErr result (λ e. IsDiscFault soup.now e) }
{
    soup.law_of_soup();
    let first = first_sides(alloc, soup)?;
    match find_isolated(soup, &first) {
        None => Ok(()),
        Some(v) => Err(DiscFault::Isolated { v }),
    }
}

// Refuses a soup whose vertices minus edges plus faces aren't 1.
fn refuse_count(tabled: &TabledSoup<'_>) -> Result<(), DiscFault>
    requires patch { IsPatch tabled.now.soup.now }
    requires border { (e : ℕ) × IsBorderEdge tabled.now.soup.now e }
    requires one { HasOneBorder tabled.now.soup.now }
    ensures ok { OnOk result (tabled.now.soup.now.vertices + face_count tabled.now.soup.now
        ≡ edge_count tabled.now.soup.now + 1) }
    ensures fault { IfErr result (λ e. IsDiscFault tabled.now.soup.now e) }
    ensures sure { IfErr result (λ e. e ≢ Memory) }
{
    let soup = tabled.soup;
    let table = tabled.table;
    soup.law_of_soup();
    let vertices = soup.vertices();
    let edges = table.edges.len() as u32;
    let faces = soup.faces();
    if u64::from(vertices) + u64::from(faces) == u64::from(edges) + 1 {
        return Ok(());
    }
    Err(DiscFault::Count {
        vertices,
        edges,
        faces,
    })
}

// The number of border edges of a disc, or the first fault.
fn find_fault(alloc: Global, soup: &Soup) -> Result<u32, DiscFault>
    ensures disc { IfOk result (λ _. IsDisc soup.now) }
    ensures border { IfOk result (λ n. n ≡ border_count soup.now) }
    ensures fault { IfErr result (λ e. IsDiscFault soup.now e) }
{
    soup.law_of_soup();
    let table = edge_table(alloc, soup)?;
    let tabled = TabledSoup {
        soup,
        table: &table,
    };
    refuse_crowded(&tabled)?;
    refuse_isolated(alloc, soup)?;
    let at_vertex = vertex_sides(alloc, soup, &table.numbers)?;
    let next = turned_sides(alloc, soup, Turn::After)?;
    let prev = turned_sides(alloc, soup, Turn::Before)?;
    let across = all_across(alloc, &tabled)?;
    let corners = CornerTables {
        soup,
        table: &table,
        next: &next,
        prev: &prev,
        across: &across,
        face_of: &table.face_of,
        at_vertex: &at_vertex,
    };
    refuse_pinched(alloc, &corners)?;
    refuse_apart(alloc, &corners)?;
    let Some(least) = least_border(&tabled) else {
        return Err(DiscFault::Border {
            kind: BorderKind::Nothing,
        });
    };
    let seen = mark_border(alloc, &corners, least)?;
    refuse_second(&tabled, least, &seen)?;
    refuse_count(&tabled)?;
    Ok(count_single(&table.sides))
}

/// The number of border edges of a soup that is a disc: each edge has one or two faces, no vertex
/// is in no face, the faces at each vertex and the faces of all are connected through sides, the
/// edges with one face are one cycle, and vertices minus edges plus faces is 1. Else the first
/// fault in the order of `DiscFault`, with its least witness.
///
/// It takes time and memory that grow with the number of sides.
pub fn check_disc(alloc: Global, soup: &Soup) -> Result<u32, DiscFault>
    ensures disc { IfOk result (λ _. IsDisc soup.now) }
    ensures border { IfOk result (λ n. n ≡ border_count soup.now) }
    ensures fault { IfErr result (λ e. IsDiscFault soup.now e) }
    ensures only { IfErr result (λ e. IsDisc soup.now → e ≡ Memory) }
{
    find_fault(alloc, soup)
}
