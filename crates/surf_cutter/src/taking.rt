//! Taking a cut back to given vertices: edges that end where no other cut edge goes on are taken out
//! of it, but for those that end at one of the vertices.
ghost use Rattle.std.specs.Prelude.{◌≡◌, ◌<◌, ◌+◌, All, IfOk, length};
ghost use Rattle.surf_cutter.specs.Trimming.{AreDegrees, AreMarked, IsTakenFrom, HasNoLooseBelow};
ghost use Rattle.surf_cutter.specs.Trimming.{HasMarkedEnds};

use crate::trimming::take_back;
use std::alloc::{AllocError, Global};
use surf_base::VertexId;
use surf_mesh::HalfMesh;

/// A mark for each vertex that is in the list.
pub(crate) fn mark_points(
    alloc: Global,
    vertices: u32,
    points: &[VertexId],
) -> Result<Vec<bool>, AllocError>
    requires { All (λ v. v < vertices) points.now }
    ensures { IfOk result (λ marks. AreMarked vertices points.now marks.items) }
{
    let mut marks = vec![in alloc; false; vertices as usize]?;
    for point in points {
        marks[point.index()] = true;
    }
    Ok(marks)
}

// Takes edges back from a vertex on, as long as it has exactly one and no mark, and its other end
// after it.
fn take_from(mesh: &HalfMesh, marks: &[bool], cut: &mut [bool], degree: &mut [u32], start: VertexId)
    requires degrees { AreDegrees mesh.now cut.old degree.old }
    requires marks { length marks.now ≡ mesh.now.vertices }
    requires vertex { start < mesh.now.vertices }
    requires below { HasNoLooseBelow mesh.now marks.now start degree.old }
    ensures degrees { AreDegrees mesh.now cut.new degree.new }
    ensures taken { IsTakenFrom mesh.now marks.now cut.old cut.new }
    ensures below { HasNoLooseBelow mesh.now marks.now (start + 1) degree.new }
{
    let mut leaf = start;
    while degree[leaf.index()] == 1 && !marks[leaf.index()] {
        leaf = take_back(mesh, cut, degree, leaf);
    }
}

/// Takes a cut back: while a vertex without a mark has exactly one cut edge, it loses it.
pub(crate) fn take_loose(mesh: &HalfMesh, marks: &[bool], cut: &mut [bool], degree: &mut [u32])
    requires degrees { AreDegrees mesh.now cut.old degree.old }
    requires marks { length marks.now ≡ mesh.now.vertices }
    ensures taken { IsTakenFrom mesh.now marks.now cut.old cut.new }
    ensures ended { HasMarkedEnds mesh.now marks.now cut.new }
{
    for start in 0..mesh.vertices() {
        take_from(mesh, marks, cut, degree, VertexId::new(start));
    }
}
