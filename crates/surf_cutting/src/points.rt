//! Files of vertices, and how far a surface is cut.
ghost use Rattle.std.specs.Prelude.{◌≡◌, ◌<◌, ◌≤◌, All, length, IfOk};
ghost use Rattle.surf_answers.specs.Tells.{Takes, TakesOver};
ghost use Rattle.surf_cutter.specs.Kinds.{kind_of, points_of};
ghost use Rattle.surf_words.specs.Words.{extent_of};
ghost use Rattle.surf_answers.specs.Reading.{HasKind, HasPoints, PointsText};
ghost use Rattle.surf_base.specs.declared.limits.TheConstants.{MAX_TEXT};

use std::alloc::Global;
use surf_answers::read_file;
use surf_base::{Shelf, VertexId};
use surf_class::read_points;
use surf_cutter::CutKind;
use surf_mesh::HalfMesh;
use surf_texts::Refused;
use surf_words::CutWords;

/// How far a surface is cut: as the words say, and through the vertices that their file gives.
pub(crate) fn kind_named<S: Shelf>(
    alloc: Global,
    shelf: &mut S,
    mesh: &HalfMesh,
    extent: CutWords<'_>,
) -> Result<CutKind, Refused>
    ensures holds { S.holds shelf.new ≡ S.holds shelf.old }
    ensures later { S.faults shelf.old ≤ S.faults shelf.new }
    ensures tells { TakesOver (S.holds shelf.old) (S.faults shelf.old) (S.faults shelf.new)
        (λ kind. kind_of kind) (HasKind (extent_of extent.entry) mesh.now) result }
    ensures inside { IfOk result (λ kind. All (λ v. v < mesh.now.vertices)
        (points_of (kind_of kind))) }
{
    match extent {
        CutWords::Full => Ok(CutKind::Full),
        CutWords::Trimmed => Ok(CutKind::Trimmed),
        CutWords::Through { points } => {
            let points = points_named(alloc, shelf, mesh, points)?;
            Ok(CutKind::Through(points))
        }
    }
}

// The vertices of a mesh that the file of a name gives.
fn points_named<S: Shelf>(
    alloc: Global,
    shelf: &mut S,
    mesh: &HalfMesh,
    name: &str,
) -> Result<Vec<VertexId>, Refused>
    ensures holds { S.holds shelf.new ≡ S.holds shelf.old }
    ensures later { S.faults shelf.old ≤ S.faults shelf.new }
    ensures tells { TakesOver (S.holds shelf.old) (S.faults shelf.old) (S.faults shelf.new)
        (λ points. points.items) (HasPoints name.now mesh.now) result }
    ensures inside { IfOk result (λ points. All (λ v. v < mesh.now.vertices) points.items) }
{
    let bytes = read_file(alloc, shelf, name)?;
    points_of(alloc, mesh, &bytes)
}

fn points_of(alloc: Global, mesh: &HalfMesh, bytes: &[u8]) -> Result<Vec<VertexId>, Refused>
    requires { length bytes.now ≤ MAX_TEXT }
    ensures tells { Takes (λ points. points.items) (PointsText mesh.now bytes.now) result }
    ensures inside { IfOk result (λ points. All (λ v. v < mesh.now.vertices) points.items) }
{
    let points = read_points(alloc, bytes, mesh)?;
    Ok(points)
}
