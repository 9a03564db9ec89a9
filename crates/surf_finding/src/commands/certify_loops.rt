//! The command `certify` at a base.
ghost use Rattle.std.specs.Prelude.{◌≡◌, ◌≤◌, Some};
ghost use Rattle.surf_words.specs.Words.{certify_loops};
ghost use Rattle.surf_answers.specs.Tells.{ConcludesOver};
ghost use Rattle.surf_answers.specs.Commands.{OnRequest};

use crate::certificates::loop_cert_of;
use std::alloc::Global;
use surf_answers::{Answered, base_of, measured_surface};
use surf_base::Shelf;
use surf_texts::Refused;

/// What `certify` answers at a base: a certificate that the loops there are least.
pub fn answer<S: Shelf>(
    alloc: Global,
    shelf: &mut S,
    mesh: &str,
    lengths: &str,
    base: u32,
) -> Result<Answered, Refused>
    ensures holds { S.holds shelf.new ≡ S.holds shelf.old }
    ensures later { S.faults shelf.old ≤ S.faults shelf.new }
    ensures tells { ConcludesOver (S.holds shelf.old) (S.faults shelf.old) (S.faults shelf.new)
        (OnRequest (Some (certify_loops mesh.now lengths.now base))) result }
{
    let (mesh, lengths) = measured_surface(alloc, shelf, mesh, lengths)?;
    let base = base_of(&mesh, base)?;
    loop_cert_of(alloc, &mesh, &lengths, base)
}
