//! Least loops at a base.
ghost use Rattle.std.specs.Prelude.{◌≡◌, ◌<◌, All, length, map, sum, flat_map};
ghost use Rattle.surf_surfaces.specs.Surface.{edge_count};
ghost use Rattle.surf_loops.specs.Loops.{IsRooted};
ghost use Rattle.surf_texts.specs.Fills.{Fills};
ghost use Rattle.surf_finding.specs.HeadTexts.{head_line, loop_heads_text, heads_text};
ghost use Rattle.surf_answers.specs.LeastLoops.{GivesLoops};
ghost use Rattle.surf_answers.specs.Tells.{Concludes};

use std::alloc::Global;
use surf_answers::Answered;
use surf_base::{MAX_ANSWER, VertexId};
use surf_lengths::Lengths;
use surf_loops::{BaseLoops, LoopHead};
use surf_mesh::HalfMesh;
use surf_text::{Page, PageFault};
use surf_texts::{Refused, put_loop, put_loops_head};

/// A least system of loops at a base.
pub(crate) fn loops_of(
    alloc: Global,
    mesh: &HalfMesh,
    lengths: &Lengths,
    base: VertexId,
) -> Result<Answered, Refused>
    requires lengths { length lengths.now ≡ edge_count mesh.now }
    requires base { base < mesh.now.vertices }
    ensures { Concludes (GivesLoops mesh.now lengths.now base) result }
{
    let loops = BaseLoops::find(alloc, mesh, lengths, base)?;
    let mut page = Page::make(alloc, MAX_ANSWER);
    put_answer(alloc, &mut page, mesh, &loops)?;
    Ok(Answered::yes(page.into_bytes()))
}

// Puts how many loops there are and what they total, and the line of each.
fn put_answer(
    alloc: Global,
    page: &mut Page,
    mesh: &HalfMesh,
    loops: &BaseLoops,
) -> Result<(), PageFault>
    requires rooted { IsRooted mesh.now loops.now.tree }
    requires edges { All (λ h. h.edge < edge_count mesh.now) loops.now.heads }
    ensures { Fills page.old page.new (heads_text mesh.now loops.now.tree
        loops.now.heads) result }
{
    put_head(page, loops.heads())?;
    put_loops(alloc, page, mesh, loops)
}

// Puts how many loops there are and what they total.
fn put_head(page: &mut Page, heads: &[LoopHead]) -> Result<(), PageFault>
    ensures { Fills page.old page.new (loop_heads_text heads.now) result }
{
    put_loops_head(page, heads.len(), total_of(heads))
}

/// The sum of the lengths of loops.
pub(crate) fn total_of(heads: &[LoopHead]) -> u128
    ensures { result ≡ sum (map (λ h. h.length) heads.now) }
{
    let mut total = 0u128;
    for head in heads {
        total += u128::from(head.length);
    }
    total
}

// Puts the line of each loop.
fn put_loops(
    alloc: Global,
    page: &mut Page,
    mesh: &HalfMesh,
    loops: &BaseLoops,
) -> Result<(), PageFault>
    requires rooted { IsRooted mesh.now loops.now.tree }
    requires edges { All (λ h. h.edge < edge_count mesh.now) loops.now.heads }
    ensures { Fills page.old page.new (flat_map (head_line mesh.now loops.now.tree) loops.now.heads)
        result }
{
    for head in loops.heads() {
        let Ok(walk) = loops.walk(alloc, mesh, head.edge) else {
            return Err(PageFault::Memory);
        };
        put_loop(page, head.length, walk.vertices())?;
    }
    Ok(())
}
