//! The command `loops`.
ghost use Rattle.std.specs.Prelude.{◌≡◌, ◌≤◌, Some};
ghost use Rattle.surf_words.specs.Words.{loops};
ghost use Rattle.surf_answers.specs.Tells.{ConcludesOver};
ghost use Rattle.surf_answers.specs.Commands.{OnRequest};

use crate::loops::loops_of;
use std::alloc::Global;
use surf_answers::{Answered, base_of, measured_surface};
use surf_base::Shelf;
use surf_texts::Refused;

/// What `loops` answers: a shortest system of independent loops at a base.
pub fn answer<S: Shelf>(
    alloc: Global,
    shelf: &mut S,
    mesh: &str,
    lengths: &str,
    base: u32,
) -> Result<Answered, Refused>
    ensures holds { S.holds shelf.new ≡ S.holds shelf.old }
    ensures later { S.faults shelf.old ≤ S.faults shelf.new }
    ensures tells { ConcludesOver (S.holds shelf.old) (S.faults shelf.old) (S.faults shelf.new)
        (OnRequest (Some (loops mesh.now lengths.now base))) result }
{
    let (mesh, lengths) = measured_surface(alloc, shelf, mesh, lengths)?;
    let base = base_of(&mesh, base)?;
    loops_of(alloc, &mesh, &lengths, base)
}
