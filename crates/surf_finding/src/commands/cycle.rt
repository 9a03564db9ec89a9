//! The command `cycle`, also on large meshes.
ghost use Rattle.std.specs.Prelude.{◌≡◌, ◌≤◌, Some};
ghost use Rattle.surf_words.specs.Words.{cycle, large_cycle};
ghost use Rattle.surf_answers.specs.Tells.{ConcludesOver};
ghost use Rattle.surf_answers.specs.Commands.{OnRequest};

use crate::cycle::cycle_of;
use std::alloc::Global;
use surf_answers::{Answered, measured_surface, small_surface};
use surf_base::{LimitKind, MAX_BASIS_VERTICES, Shelf};
use surf_texts::Refused;

/// What `cycle` answers: a shortest cycle that doesn't separate the surface.
pub fn answer<S: Shelf>(
    alloc: Global,
    shelf: &mut S,
    mesh: &str,
    lengths: &str,
) -> Result<Answered, Refused>
    ensures holds { S.holds shelf.new ≡ S.holds shelf.old }
    ensures later { S.faults shelf.old ≤ S.faults shelf.new }
    ensures tells { ConcludesOver (S.holds shelf.old) (S.faults shelf.old) (S.faults shelf.new)
        (OnRequest (Some (cycle mesh.now lengths.now))) result }
{
    let limit = (LimitKind::BasisVertices, MAX_BASIS_VERTICES);
    let (mesh, lengths) = small_surface(alloc, shelf, limit, mesh, lengths)?;
    cycle_of(alloc, &mesh, &lengths)
}

/// What `cycle` answers on a mesh of any size: a shortest cycle that doesn't separate the surface.
pub fn answer_large<S: Shelf>(
    alloc: Global,
    shelf: &mut S,
    mesh: &str,
    lengths: &str,
) -> Result<Answered, Refused>
    ensures holds { S.holds shelf.new ≡ S.holds shelf.old }
    ensures later { S.faults shelf.old ≤ S.faults shelf.new }
    ensures tells { ConcludesOver (S.holds shelf.old) (S.faults shelf.old) (S.faults shelf.new)
        (OnRequest (Some (large_cycle mesh.now lengths.now))) result }
{
    let (mesh, lengths) = measured_surface(alloc, shelf, mesh, lengths)?;
    cycle_of(alloc, &mesh, &lengths)
}
