//! A shortest walk in the class of a walk.
ghost use Rattle.std.specs.Prelude.{◌≡◌, ◌≤◌, ◌*◌, ◌^◌, length, IfOk};
ghost use Rattle.surf_base.specs.declared.limits.TheConstants.{MAX_LARGE_COVER_LOOPS, MAX_LARGE_COVER_NODES};
ghost use Rattle.surf_surfaces.specs.Surface.{edge_count, loop_count};
ghost use Rattle.surf_surfaces.specs.Walk.{IsClosed};
ghost use Rattle.surf_cover.specs.Starts.{IsLeastInClass};
ghost use Rattle.surf_texts.specs.Fills.{Fills};
ghost use Rattle.surf_answers.specs.Tells.{Concludes};
ghost use Rattle.surf_answers.specs.ShortestWalk.{GivesShortestWalk};
ghost use Rattle.surf_texts.specs.MeasuredTexts.{measured_line};

use crate::desk::signed_desk;
use std::alloc::Global;
use surf_answers::Answered;
use surf_base::{MAX_ANSWER, NoMemory};
use surf_cover::{ClassWalk, least_in_class};
use surf_lengths::Lengths;
use surf_mesh::{HalfMesh, Walk};
use surf_text::{Page, PageFault};
use surf_texts::{Refused, put_line};

/// The walk that is chosen of the shortest in the class of a walk, with its length.
pub(crate) fn shortest_of(
    alloc: Global,
    mesh: &HalfMesh,
    lengths: &Lengths,
    walk: &Walk,
) -> Result<Answered, Refused>
    requires loops { loop_count mesh.now ≤ MAX_LARGE_COVER_LOOPS }
    requires nodes { mesh.now.vertices * 2 ^ loop_count mesh.now ≤ MAX_LARGE_COVER_NODES }
    requires lengths { length lengths.now ≡ edge_count mesh.now }
    requires closed { IsClosed mesh.now walk.now }
    ensures { Concludes (GivesShortestWalk mesh.now lengths.now walk.now) result }
{
    let found = found_walk(alloc, mesh, lengths, walk)?;
    let mut page = Page::make(alloc, MAX_ANSWER);
    put_shortest(&mut page, &found)?;
    Ok(Answered::yes(page.into_bytes()))
}

// The walk that is chosen, by the signatures of the trees at vertex 0.
fn found_walk(
    alloc: Global,
    mesh: &HalfMesh,
    lengths: &Lengths,
    walk: &Walk,
) -> Result<ClassWalk, NoMemory>
    requires loops { loop_count mesh.now ≤ MAX_LARGE_COVER_LOOPS }
    requires nodes { mesh.now.vertices * 2 ^ loop_count mesh.now ≤ MAX_LARGE_COVER_NODES }
    requires lengths { length lengths.now ≡ edge_count mesh.now }
    requires closed { IsClosed mesh.now walk.now }
    ensures { IfOk result (IsLeastInClass mesh.now lengths.now walk.now) }
{
    let desk = signed_desk(alloc, mesh, lengths)?;
    least_in_class(alloc, mesh, lengths, desk.cotree(), walk)
}

// Puts the line of a walk with its length.
fn put_shortest(page: &mut Page, found: &ClassWalk) -> Result<(), PageFault>
    ensures { Fills page.old page.new (measured_line "shortest " found.now.length
        found.now.walk) result }
{
    put_line(page, b"shortest ", found.length, found.walk.vertices())
}
