//! The forms of sheets, and their parts.
ghost use Rattle.std.specs.Prelude.{◌≡◌, ◌<◌, ◌≤◌, ◌==◌, length, IfOk, MatchBool};
ghost use Rattle.surf_treecheck.specs.First.{HoldsBelow, FindsFirst, Tells};
ghost use Rattle.surf_sheetcheck.specs.Parts.{sheet_at, HasForm, HasRowForm, IsVertexPart};
ghost use Rattle.surf_sheetcheck.specs.Parts.{IsWalkPart, part_of};
ghost use Rattle.surf_sheetcheck.specs.Valid.{IsPaired};
ghost use Rattle.surf_sheetcheck.specs.Tables.{IsReady, IsTask};

use crate::cases::{SheetCase, Task};
use crate::walks::cycle_from;
use std::alloc::Global;
use surf_base::{NoMemory, VertexId};
use surf_mesh::HalfMesh;
use surf_records::{SheetCert, SheetRow};

// Whether the part of a sheet is a vertex.
fn is_vertex_part(mesh: &HalfMesh, row: &SheetRow) -> bool
    ensures part { Tells result (IsVertexPart mesh.now row.now) }
{
    let (first, last) = row.part();
    first == last && first < mesh.vertices()
}

// Whether the part of a sheet is on a walk.
fn is_walk_part(cert: &SheetCert, row: &SheetRow) -> bool
    requires walk { 0 < row.now.walk }
    ensures part { Tells result (IsWalkPart cert.now row.now) }
{
    let walk = row.walk() as usize;
    if walk > cert.cycles().len() {
        return false;
    }
    let (first, last) = row.part();
    first <= last && (last as usize) < cycle_from(cert, walk - 1).len()
}

// Whether the part of a sheet is there.
fn has_part(case: &SheetCase<'_>, row: &SheetRow) -> bool
    ensures part { Tells result (MatchBool (row.now.walk == 0)
        (IsVertexPart case.now.mesh.now row.now) (IsWalkPart case.now.cert.now row.now)) }
{
    if row.walk() == 0 {
        is_vertex_part(case.mesh, row)
    } else {
        is_walk_part(case.cert, row)
    }
}

// Whether a sheet has numbers of cycles, and a part.
fn has_form(case: &SheetCase<'_>, row: &SheetRow) -> bool
    ensures form { Tells result
        (HasRowForm case.now.mesh.now case.now.cert.now row.now) }
{
    let (from, to) = row.range();
    from < to && to as usize <= case.cert.cycles().len() && has_part(case, row)
}

/// The least place of a sheet that hasn't its form.
pub(crate) fn first_formless(case: &SheetCase<'_>) -> Option<usize>
    ensures first { FindsFirst (length case.now.cert.now.sheets)
        (HasForm case.now.mesh.now case.now.cert.now) result }
{
    for place in 0..case.cert.sheets().len() {
        if !has_form(case, &case.cert.sheets()[place]) {
            return Some(place);
        }
    }
    None
}

// The vertices of the part.
fn part_from(alloc: Global, case: &SheetCase<'_>, row: &SheetRow) -> Result<Vec<VertexId>, NoMemory>
    requires form { HasRowForm case.now.mesh.now case.now.cert.now row.now }
    ensures part { IfOk result (λ v. v.items ≡ part_of case.now.cert.now row.now) }
{
    let (first, last) = row.part();
    let mut part = Vec::new(alloc);
    if row.walk() == 0 {
        part.push(VertexId::new(first))?;
    } else {
        let walk = cycle_from(case.cert, row.walk() as usize - 1);
        part.extend_from_slice(&walk[first as usize..last as usize + 1])?;
    }
    Ok(part)
}

/// What is to be done for a sheet.
pub(crate) fn task_from<'c>(
    alloc: Global,
    case: &SheetCase<'c>,
    place: usize,
) -> Result<Task<'c>, NoMemory>
    requires ready { IsReady case.now }
    requires paired { HoldsBelow (length case.now.cert.now.cycles)
        (IsPaired case.now.mesh.now case.now.cert.now) }
    requires place { place < length case.now.cert.now.sheets }
    requires form { HasForm case.now.mesh.now case.now.cert.now place }
    ensures row { IfOk result (λ t. t.row.now ≡ sheet_at case.now.cert.now place) }
    ensures task { IfOk result (IsTask case.now) }
{
    case.mesh.law_of_surface();
    case.lengths.law_of_lengths();
    let row = &case.cert.sheets()[place];
    let (_, to) = row.range();
    let size = case.sizes[to as usize - 1];
    let limit = (size + 2 * u128::from(row.margin()) + 1) / 2;
    let part = part_from(alloc, case, row)?;
    Ok(Task { row, limit, part })
}
