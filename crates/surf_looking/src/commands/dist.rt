//! The command `dist`.
ghost use Rattle.std.specs.Prelude.{◌≡◌, ◌≤◌, Some};
ghost use Rattle.surf_words.specs.Words.{dist};
ghost use Rattle.surf_answers.specs.Tells.{ConcludesOver};
ghost use Rattle.surf_answers.specs.Commands.{OnRequest};

use crate::distances::dist_of;
use std::alloc::Global;
use surf_answers::{Answered, base_of, lengths_named, surface_through};
use surf_base::Shelf;
use surf_texts::Refused;

/// What `dist` answers: the distance and the parent of each vertex, from a base.
pub fn answer<S: Shelf>(
    alloc: Global,
    shelf: &mut S,
    mesh: &str,
    lengths: &str,
    base: u32,
) -> Result<Answered, Refused>
    ensures holds { S.holds shelf.new ≡ S.holds shelf.old }
    ensures later { S.faults shelf.old ≤ S.faults shelf.new }
    ensures tells { ConcludesOver (S.holds shelf.old) (S.faults shelf.old) (S.faults shelf.new)
        (OnRequest (Some (dist mesh.now lengths.now base))) result }
{
    let mut room = Vec::new(alloc);
    let mesh = surface_through(alloc, shelf, mesh, &mut room)?;
    let lengths = lengths_named(alloc, shelf, room, &mesh, lengths)?;
    let base = base_of(&mesh, base)?;
    dist_of(alloc, &mesh, &lengths, base)
}
