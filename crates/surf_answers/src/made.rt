//! Meshes that are made from numbers.
ghost use Rattle.std.specs.Prelude.{◌≡◌, ◌<◌, ◌≤◌, IfOk, IfErr};
ghost use Rattle.surf_base.specs.declared.limits.LimitKind.TheVariants.{Vertices, Faces, Loops, BasisVertices};
ghost use Rattle.surf_base.specs.declared.limits.TheConstants.{MAX_BASIS_VERTICES, MAX_FACES, MAX_LOOPS, MAX_VERTICES};
ghost use Rattle.surf_surfaces.specs.Surface.{face_count, IsSurface, loop_count};
ghost use Rattle.surf_words.specs.Shapes.{mesh_of};
ghost use Rattle.surf_answers.specs.Tells.{Takes};
ghost use Rattle.surf_answers.specs.Steps.{AtMost};

use crate::limits::at_most;
use std::alloc::Global;
use surf_base::{LimitKind, MAX_BASIS_VERTICES, MAX_FACES, MAX_LOOPS, MAX_VERTICES, NoMemory};
use surf_check::check;
use surf_gen::{chain, torus};
use surf_mesh::HalfMesh;
use surf_soup::Soup;
use surf_texts::Refused;
use surf_words::Shape;

/// Whether the mesh of a shape has few vertices.
pub fn test_vertices(shape: Shape) -> Result<(), Refused>
    ensures tells { Takes (λ _. tt) (AtMost Vertices MAX_VERTICES (mesh_of shape).vertices) result }
    ensures few { IfOk result (λ _. (mesh_of shape).vertices ≤ MAX_VERTICES) }
    ensures limit { IfErr result (λ e. e ≡ Refused.Limit Vertices) }
{
    at_most(
        LimitKind::Vertices,
        u128::from(MAX_VERTICES),
        shape.vertices(),
    )
}

/// Whether it has few faces.
pub fn test_faces(shape: Shape) -> Result<(), Refused>
    ensures tells { Takes (λ _. tt) (AtMost Faces MAX_FACES (face_count (mesh_of shape))) result }
    ensures few { IfOk result (λ _. face_count (mesh_of shape) ≤ MAX_FACES) }
    ensures limit { IfErr result (λ e. e ≡ Refused.Limit Faces) }
{
    at_most(LimitKind::Faces, u128::from(MAX_FACES), shape.faces())
}

/// Whether it has few loops.
pub fn test_shape_loops(shape: Shape) -> Result<(), Refused>
    ensures tells { Takes (λ _. tt) (AtMost Loops MAX_LOOPS (loop_count (mesh_of shape))) result }
    ensures few { IfOk result (λ _. loop_count (mesh_of shape) ≤ MAX_LOOPS) }
    ensures some { IfOk result (λ _. 0 < loop_count (mesh_of shape)) }
    ensures limit { IfErr result (λ e. e ≡ Refused.Limit Loops) }
{
    at_most(
        LimitKind::Loops,
        MAX_LOOPS as u128,
        u128::from(shape.loops()),
    )
}

/// Whether it has few vertices for a search.
pub fn test_search(shape: Shape) -> Result<(), Refused>
    ensures tells { Takes (λ _. tt) (AtMost BasisVertices MAX_BASIS_VERTICES
        (mesh_of shape).vertices) result }
    ensures limit { IfErr result (λ e. e ≡ Refused.Limit BasisVertices) }
{
    at_most(
        LimitKind::BasisVertices,
        u128::from(MAX_BASIS_VERTICES),
        shape.vertices(),
    )
}

/// The mesh of a shape that is within the limits on meshes.
pub fn build(alloc: Global, shape: Shape) -> Result<Soup, NoMemory>
    requires vertices { (mesh_of shape).vertices ≤ MAX_VERTICES }
    requires faces { face_count (mesh_of shape) ≤ MAX_FACES }
    ensures mesh { IfOk result (λ soup. soup ≡ mesh_of shape) }
    ensures surface { IfOk result IsSurface }
{
    shape.law_of_shape();
    let (tori, rows, columns) = (shape.tori(), shape.rows(), shape.columns());
    if tori == 1 {
        torus(alloc, rows, columns)
    } else {
        chain(alloc, tori, rows, columns)
    }
}

/// The surface of a shape that is within the limits on meshes.
pub fn build_surface(alloc: Global, shape: Shape) -> Result<HalfMesh, NoMemory>
    requires vertices { (mesh_of shape).vertices ≤ MAX_VERTICES }
    requires faces { face_count (mesh_of shape) ≤ MAX_FACES }
    ensures { IfOk result (λ mesh. mesh ≡ mesh_of shape) }
{
    let soup = build(alloc, shape)?;
    match check(alloc, soup) {
        Ok(mesh) => Ok(mesh),
        // The mesh of a shape is a surface, so only memory can be wanting.
        Err(_) => Err(NoMemory),
    }
}
