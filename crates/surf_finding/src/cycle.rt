//! Shortest cycles.
ghost use Rattle.std.specs.Prelude.{◌≡◌, ◌+◌, ◌≤◌, length};
ghost use Rattle.surf_surfaces.specs.Surface.{edge_count, loop_count};
ghost use Rattle.surf_texts.specs.Fills.{Fills};
ghost use Rattle.surf_finding.specs.CycleTexts.{found_text};
ghost use Rattle.surf_answers.specs.ShortestCycle.{GivesCycle};
ghost use Rattle.surf_answers.specs.Tells.{Concludes};
ghost use Rattle.surf_base.specs.declared.limits.TheConstants.{MAX_LOOPS};

use std::alloc::Global;
use surf_answers::Answered;
use surf_base::MAX_ANSWER;
use surf_basis::{Cycle, least_nonseparating};
use surf_lengths::Lengths;
use surf_mesh::HalfMesh;
use surf_text::{Page, PageFault};
use surf_texts::{Refused, put_cycle};

/// A shortest simple cycle that doesn't separate a surface, or that there is none.
pub(crate) fn cycle_of(
    alloc: Global,
    mesh: &HalfMesh,
    lengths: &Lengths,
) -> Result<Answered, Refused>
    requires lengths { length lengths.now ≡ edge_count mesh.now }
    requires few { loop_count mesh.now ≤ MAX_LOOPS }
    ensures { Concludes (GivesCycle mesh.now lengths.now) result }
{
    mesh.law_of_surface();
    lengths.law_of_lengths();
    let found = least_nonseparating(alloc, mesh, lengths)?;
    let mut page = Page::make(alloc, MAX_ANSWER);
    put_found(&mut page, &found)?;
    Ok(Answered::yes(page.into_bytes()))
}

// Puts the line of a cycle, or that there is none.
fn put_found(page: &mut Page, found: &Option<Cycle>) -> Result<(), PageFault>
    ensures { Fills page.old page.new (found_text found.now) result }
{
    match found {
        Some(cycle) => put_cycle(page, cycle.length, cycle.walk.vertices()),
        None => page.push_bytes(b"none\n"),
    }
}
