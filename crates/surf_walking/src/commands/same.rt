//! The command `same`.
ghost use Rattle.std.specs.Prelude.{◌≡◌, ◌≤◌, ℕ, List, Some};
ghost use Rattle.surf_words.specs.Words.{same};
ghost use Rattle.surf_answers.specs.Tells.{ConcludesOver};
ghost use Rattle.surf_off.specs.Off.{OffParts};
ghost use Rattle.surf_answers.specs.Commands.{OnRequest};
ghost use Rattle.surf_answers.specs.Reading.{HoldsSurface};

use crate::classes::class_of;
use std::alloc::Global;
use surf_answers::{Answered, surface_at, test_loops, walk_named};
use surf_base::Shelf;
use surf_mesh::HalfMesh;
use surf_texts::{Refused, WalkFile};

/// What `same` answers: evidence of how the classes of two walks differ, or that they don't.
pub fn answer<S: Shelf>(
    alloc: Global,
    shelf: &mut S,
    mesh: &str,
    first: &str,
    second: &str,
) -> Result<Answered, Refused>
    ensures holds { S.holds shelf.new ≡ S.holds shelf.old }
    ensures later { S.faults shelf.old ≤ S.faults shelf.new }
    ensures tells { ConcludesOver (S.holds shelf.old) (S.faults shelf.old) (S.faults shelf.new)
        (OnRequest (Some (same mesh.now first.now second.now))) result }
{
    let mesh = surface_at(alloc, shelf, mesh)?;
    answer_on(alloc, shelf, &mesh, first, second)
}

// What `same` answers of a surface.
fn answer_on<S: Shelf>(
    alloc: Global,
    shelf: &mut S,
    mesh: &HalfMesh,
    first: &str,
    second: &str,
) -> Result<Answered, Refused>
    ensures holds { S.holds shelf.new ≡ S.holds shelf.old }
    ensures later { S.faults shelf.old ≤ S.faults shelf.new }
    ensures tells { (name bytes : List ℕ) (parts : OffParts) → HoldsSurface (S.holds shelf.old) name
        bytes (parts, mesh.now) → ConcludesOver (S.holds shelf.old) (S.faults shelf.old)
        (S.faults shelf.new) (OnRequest (Some (same name first.now second.now))) result }
{
    test_loops(mesh)?;
    let walk = walk_named(alloc, shelf, mesh, WalkFile::First, first)?;
    let other = walk_named(alloc, shelf, mesh, WalkFile::Second, second)?;
    class_of(alloc, mesh, &walk, Some(&other))
}
