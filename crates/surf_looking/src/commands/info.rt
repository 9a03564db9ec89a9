//! The command `info`.
ghost use Rattle.std.specs.Prelude.{◌≡◌, ◌≤◌, Some};
ghost use Rattle.surf_words.specs.Words.{info};
ghost use Rattle.surf_answers.specs.Tells.{ConcludesOver};
ghost use Rattle.surf_answers.specs.Commands.{OnRequest};

use std::alloc::Global;
use surf_answers::{Answered, kind_at, kind_info_of};
use surf_base::Shelf;
use surf_texts::Refused;

/// What `info` answers: the counts of a surface, its characteristic, and its genus or its
/// crosscaps.
pub fn answer<S: Shelf>(alloc: Global, shelf: &mut S, mesh: &str) -> Result<Answered, Refused>
    ensures holds { S.holds shelf.new ≡ S.holds shelf.old }
    ensures later { S.faults shelf.old ≤ S.faults shelf.new }
    ensures tells { ConcludesOver (S.holds shelf.old) (S.faults shelf.old) (S.faults shelf.new)
        (OnRequest (Some (info mesh.now))) result }
{
    let kind = kind_at(alloc, shelf, mesh)?;
    kind_info_of(alloc, &kind)
}
