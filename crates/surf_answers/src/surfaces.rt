//! Surfaces with lengths: fronts that several commands share.
ghost use Rattle.std.specs.Prelude.{◌≡◌, ◌≤◌, length, IfOk};
ghost use Rattle.surf_surfaces.specs.Surface.{edge_count, loop_count};
ghost use Rattle.surf_answers.specs.Tells.{Takes, TakesOver};
ghost use Rattle.surf_answers.specs.Fronts.{MeasuresSurface, MeasuresSmall};
ghost use Rattle.surf_answers.specs.Steps.{AtMost};
ghost use Rattle.surf_base.specs.declared.limits.TheConstants.{MAX_LOOPS};

use crate::lengths::lengths_named;
use crate::limits::{at_most, test_loops};
use crate::reading::surface_through;
use std::alloc::Global;
use surf_base::{LimitKind, Shelf};
use surf_lengths::Lengths;
use surf_mesh::HalfMesh;
use surf_texts::Refused;

/// The surface of the file of a name, which has few loops, with the lengths that a word gives.
pub fn measured_surface<S: Shelf>(
    alloc: Global,
    shelf: &mut S,
    name: &str,
    word: &str,
) -> Result<(HalfMesh, Lengths), Refused>
    ensures holds { S.holds shelf.new ≡ S.holds shelf.old }
    ensures later { S.faults shelf.old ≤ S.faults shelf.new }
    ensures tells { TakesOver (S.holds shelf.old) (S.faults shelf.old) (S.faults shelf.new)
        (λ found. found) (MeasuresSurface name.now word.now) result }
    ensures count { IfOk result (λ found. length found.1 ≡ edge_count found.0) }
    ensures few { IfOk result (λ found. loop_count found.0 ≤ MAX_LOOPS) }
{
    let mut room = Vec::new(alloc);
    let mesh = surface_through(alloc, shelf, name, &mut room)?;
    test_loops(&mesh)?;
    let lengths = lengths_named(alloc, shelf, room, &mesh, word)?;
    Ok((mesh, lengths))
}

/// The surface, which has few vertices too, by a limit on them.
pub fn small_surface<S: Shelf>(
    alloc: Global,
    shelf: &mut S,
    limit: (LimitKind, u32),
    name: &str,
    word: &str,
) -> Result<(HalfMesh, Lengths), Refused>
    ensures holds { S.holds shelf.new ≡ S.holds shelf.old }
    ensures later { S.faults shelf.old ≤ S.faults shelf.new }
    ensures tells { TakesOver (S.holds shelf.old) (S.faults shelf.old) (S.faults shelf.new)
        (λ found. found) (MeasuresSmall limit.0 limit.1 name.now word.now) result }
    ensures count { IfOk result (λ found. length found.1 ≡ edge_count found.0) }
    ensures few { IfOk result (λ found. loop_count found.0 ≤ MAX_LOOPS) }
{
    let mut room = Vec::new(alloc);
    let mesh = surface_through(alloc, shelf, name, &mut room)?;
    test_loops(&mesh)?;
    test_vertices(&mesh, limit)?;
    let lengths = lengths_named(alloc, shelf, room, &mesh, word)?;
    Ok((mesh, lengths))
}

// Whether a surface has few vertices, by a limit on them.
fn test_vertices(mesh: &HalfMesh, limit: (LimitKind, u32)) -> Result<(), Refused>
    ensures { Takes (λ _. tt) (AtMost limit.0 limit.1 mesh.now.vertices) result }
{
    at_most(limit.0, u128::from(limit.1), u128::from(mesh.vertices()))
}
