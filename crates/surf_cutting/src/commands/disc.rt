//! The command `disc`.
ghost use Rattle.std.specs.Prelude.{◌≡◌, ◌≤◌, Some};
ghost use Rattle.surf_words.specs.Words.{disc};
ghost use Rattle.surf_answers.specs.Tells.{ConcludesOver};
ghost use Rattle.surf_answers.specs.Commands.{OnRequest};

use crate::disc::disc_of;
use std::alloc::Global;
use surf_answers::{Answered, mesh_at};
use surf_base::Shelf;
use surf_texts::Refused;

/// What `disc` answers: whether a mesh is a disc, with its border, or what is wrong with it.
pub fn answer<S: Shelf>(alloc: Global, shelf: &mut S, mesh: &str) -> Result<Answered, Refused>
    ensures holds { S.holds shelf.new ≡ S.holds shelf.old }
    ensures later { S.faults shelf.old ≤ S.faults shelf.new }
    ensures tells { ConcludesOver (S.holds shelf.old) (S.faults shelf.old) (S.faults shelf.new)
        (OnRequest (Some (disc mesh.now))) result }
{
    let soup = mesh_at(alloc, shelf, mesh)?;
    disc_of(alloc, &soup)
}
