//! The command `basis`, also on large meshes.
ghost use Rattle.std.specs.Prelude.{◌≡◌, ◌≤◌, Some};
ghost use Rattle.surf_words.specs.Words.{basis, large_basis};
ghost use Rattle.surf_answers.specs.Tells.{ConcludesOver};
ghost use Rattle.surf_answers.specs.Commands.{OnRequest};

use crate::basis::basis_of;
use std::alloc::Global;
use surf_answers::{Answered, measured_surface, small_surface};
use surf_base::{LimitKind, MAX_BASIS_VERTICES, Shelf};
use surf_texts::Refused;

/// What `basis` answers: a shortest homology basis.
pub fn answer<S: Shelf>(
    alloc: Global,
    shelf: &mut S,
    mesh: &str,
    lengths: &str,
) -> Result<Answered, Refused>
    ensures holds { S.holds shelf.new ≡ S.holds shelf.old }
    ensures later { S.faults shelf.old ≤ S.faults shelf.new }
    ensures tells { ConcludesOver (S.holds shelf.old) (S.faults shelf.old) (S.faults shelf.new)
        (OnRequest (Some (basis mesh.now lengths.now))) result }
{
    let limit = (LimitKind::BasisVertices, MAX_BASIS_VERTICES);
    let (mesh, lengths) = small_surface(alloc, shelf, limit, mesh, lengths)?;
    basis_of(alloc, &mesh, &lengths)
}

/// What `basis` answers on a mesh of any size: a shortest homology basis.
pub fn answer_large<S: Shelf>(
    alloc: Global,
    shelf: &mut S,
    mesh: &str,
    lengths: &str,
) -> Result<Answered, Refused>
    ensures holds { S.holds shelf.new ≡ S.holds shelf.old }
    ensures later { S.faults shelf.old ≤ S.faults shelf.new }
    ensures tells { ConcludesOver (S.holds shelf.old) (S.faults shelf.old) (S.faults shelf.new)
        (OnRequest (Some (large_basis mesh.now lengths.now))) result }
{
    let (mesh, lengths) = measured_surface(alloc, shelf, mesh, lengths)?;
    basis_of(alloc, &mesh, &lengths)
}
