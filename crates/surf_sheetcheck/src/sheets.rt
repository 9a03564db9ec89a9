//! The sheets, one after the other.
ghost use Rattle.std.specs.Prelude.{◌≡◌, ◌<◌, ℕ, None, IfOk, length};
ghost use Rattle.surf_heap.specs.Entries.{entry_of};
ghost use Rattle.surf_treecheck.specs.First.{HoldsBelow};
ghost use Rattle.surf_sheetcheck.specs.Parts.{HasForm};
ghost use Rattle.surf_sheetcheck.specs.Valid.{IsPaired};
ghost use Rattle.surf_sheetcheck.specs.Judged.{IsJudged, IsFirstShort};
ghost use Rattle.surf_sheetcheck.specs.Tables.{IsReady, IsTask, IsSearched, IsFresh};
ghost use Rattle.surf_sheetcheck.specs.Serving.{AreLefts, IsLeft};

use crate::cases::{SheetCase, Task};
use crate::desk::{Desk, put_back};
use crate::forms::task_from;
use crate::labelling::{label_others, label_part};
use crate::looks::least_short;
use crate::search::{Field, offer_part, settle};
use crate::serving::serve;
use std::alloc::Global;
use surf_base::{EdgeId, NOBODY, NoMemory};
use surf_signatures::VertexSets;

// Gives the vertices near the part their distances and labels.
fn fill(case: &SheetCase<'_>, task: &Task<'_>, desk: &mut Desk) -> Result<(), NoMemory>
    requires ready { IsReady case.now }
    requires task { IsTask case.now task.now }
    requires fresh { IsFresh case.now.mesh.now desk.old.distance.items desk.old.labels
        desk.old.heap desk.old.order.items }
    ensures searched { IfOk result (λ _. IsSearched case.now task.now desk.new.distance.items
        desk.new.labels desk.new.order.items) }
    ensures places { IfOk result (λ _. length desk.new.heap ≡ case.now.mesh.now.vertices) }
    ensures empty { IfOk result (λ _. (v : ℕ) → entry_of desk.new.heap v ≡ None) }
{
    let field = Field {
        mesh: case.mesh,
        lengths: case.lengths,
        part: &task.part,
        limit: task.limit,
    };
    offer_part(&mut desk.heap, &task.part);
    settle(&field, &mut desk.distance, &mut desk.heap, &mut desk.order)?;
    label_part(case, task, &mut desk.labels)?;
    label_others(case, task, &desk.distance, &desk.order, &mut desk.labels)
}

// The least edge at which a sheet doesn't hold, or nobody; what it serves is taken out of what is
// left.
fn judge_sheet(
    alloc: Global,
    case: &SheetCase<'_>,
    place: usize,
    desk: &mut Desk,
    left: &mut VertexSets,
) -> Result<u32, NoMemory>
    requires ready { IsReady case.now }
    requires paired { HoldsBelow (length case.now.cert.now.cycles)
        (IsPaired case.now.mesh.now case.now.cert.now) }
    requires place { place < length case.now.cert.now.sheets }
    requires form { HasForm case.now.mesh.now case.now.cert.now place }
    requires fresh { IsFresh case.now.mesh.now desk.old.distance.items desk.old.labels
        desk.old.heap desk.old.order.items }
    requires lefts { AreLefts case.now left.old }
    requires left { IsLeft case.now place left.old }
    ensures judged { IfOk result (IsJudged case.now place left.new) }
    ensures fresh { IfOk result (λ _. IsFresh case.now.mesh.now desk.new.distance.items
        desk.new.labels desk.new.heap desk.new.order.items) }
    ensures lefts { IfOk result (λ _. AreLefts case.now left.new) }
{
    case.mesh.law_of_surface();
    case.lengths.law_of_lengths();
    let task = task_from(alloc, case, place)?;
    fill(case, &task, desk)?;
    let least = least_short(case, &task, &desk.distance, &desk.labels, &desk.order);
    serve(case, &task, &desk.distance, &desk.order, left);
    put_back(
        case.mesh,
        &mut desk.distance,
        &mut desk.labels,
        &mut desk.order,
    );
    Ok(least)
}

/// The first sheet that doesn't hold, with the least edge there. What the sheets serve is taken out
/// of what is left.
pub(crate) fn first_short(
    alloc: Global,
    case: &SheetCase<'_>,
    left: &mut VertexSets,
) -> Result<Option<(u32, EdgeId)>, NoMemory>
    requires ready { IsReady case.now }
    requires paired { HoldsBelow (length case.now.cert.now.cycles)
        (IsPaired case.now.mesh.now case.now.cert.now) }
    requires forms { HoldsBelow (length case.now.cert.now.sheets)
        (HasForm case.now.mesh.now case.now.cert.now) }
    requires lefts { AreLefts case.now left.old }
    requires left { IsLeft case.now 0 left.old }
    ensures first { IfOk result (IsFirstShort case.now left.new) }
{
    let mut desk = Desk::make(alloc, case.mesh)?;
    for place in 0..case.cert.sheets().len() {
        let edge = judge_sheet(alloc, case, place, &mut desk, left)?;
        if edge != NOBODY {
            return Ok(Some((place as u32, EdgeId::new(edge))));
        }
    }
    Ok(None)
}
