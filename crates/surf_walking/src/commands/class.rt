//! The command `class`.
ghost use Rattle.std.specs.Prelude.{◌≡◌, ◌≤◌, Some};
ghost use Rattle.surf_words.specs.Words.{class};
ghost use Rattle.surf_answers.specs.Tells.{ConcludesOver};
ghost use Rattle.surf_answers.specs.Commands.{OnRequest};

use crate::classes::class_of;
use std::alloc::Global;
use surf_answers::{Answered, surface_at, test_loops, walk_named};
use surf_base::Shelf;
use surf_texts::{Refused, WalkFile};

/// What `class` answers: evidence of the class of a walk.
pub fn answer<S: Shelf>(
    alloc: Global,
    shelf: &mut S,
    mesh: &str,
    walk: &str,
) -> Result<Answered, Refused>
    ensures holds { S.holds shelf.new ≡ S.holds shelf.old }
    ensures later { S.faults shelf.old ≤ S.faults shelf.new }
    ensures tells { ConcludesOver (S.holds shelf.old) (S.faults shelf.old) (S.faults shelf.new)
        (OnRequest (Some (class mesh.now walk.now))) result }
{
    let mesh = surface_at(alloc, shelf, mesh)?;
    test_loops(&mesh)?;
    let walk = walk_named(alloc, shelf, &mesh, WalkFile::First, walk)?;
    class_of(alloc, &mesh, &walk, None)
}
