//! The command `cut`.
ghost use Rattle.std.specs.Prelude.{◌≡◌, ◌<◌, ◌≤◌, All, length, IfOk, Some};
ghost use Rattle.surf_surfaces.specs.Surface.{face_count};
ghost use Rattle.surf_words.specs.Words.{cut, extent_of};
ghost use Rattle.surf_answers.specs.Tells.{ConcludesOver, TakesOver};
ghost use Rattle.surf_answers.specs.Commands.{OnRequest};
ghost use Rattle.surf_cutting.specs.Cutting.{CutsOpen};

use crate::cut::{disc_at, disc_text};
use crate::points::kind_named;
use std::alloc::Global;
use surf_answers::{Answered, base_of, lengths_named, read_file, read_front, test_loops};
use surf_base::Shelf;
use surf_cutter::OpenDisc;
use surf_mesh::HalfMesh;
use surf_texts::Refused;
use surf_words::CutWords;

/// What `cut` answers: a surface cut open, with the lines and colours of its text. Of the text only
/// the front that has these is kept, and the surface goes before the answer is made.
pub fn answer<S: Shelf>(
    alloc: Global,
    shelf: &mut S,
    extent: CutWords<'_>,
    mesh: &str,
    lengths: &str,
    base: u32,
) -> Result<Answered, Refused>
    ensures holds { S.holds shelf.new ≡ S.holds shelf.old }
    ensures later { S.faults shelf.old ≤ S.faults shelf.new }
    ensures tells { ConcludesOver (S.holds shelf.old) (S.faults shelf.old) (S.faults shelf.new)
        (OnRequest (Some (cut (extent_of extent.entry) mesh.now lengths.now base))) result }
{
    let mut bytes = read_file(alloc, shelf, mesh)?;
    let (places, mesh) = read_front(alloc, &mut bytes)?;
    let opened = open_surface(alloc, shelf, extent, &mesh, lengths, base)?;
    drop(mesh);
    let text = places.over(&bytes);
    disc_text(alloc, &text, &opened)
}

// The surface cut open so far, by a word for its lengths and a base.
fn open_surface<S: Shelf>(
    alloc: Global,
    shelf: &mut S,
    extent: CutWords<'_>,
    mesh: &HalfMesh,
    lengths: &str,
    base: u32,
) -> Result<OpenDisc, Refused>
    ensures holds { S.holds shelf.new ≡ S.holds shelf.old }
    ensures later { S.faults shelf.old ≤ S.faults shelf.new }
    ensures tells { TakesOver (S.holds shelf.old) (S.faults shelf.old) (S.faults shelf.new)
        (λ opened. opened) (CutsOpen (extent_of extent.entry) mesh.now lengths.now base) result }
    ensures lines { IfOk result (λ opened. All (λ v. v < mesh.now.vertices) opened.origins) }
    ensures faces { IfOk result (λ opened. length opened.faces ≡ face_count mesh.now) }
{
    test_loops(mesh)?;
    let lengths = lengths_named(alloc, shelf, Vec::new(alloc), mesh, lengths)?;
    let base = base_of(mesh, base)?;
    let kind = kind_named(alloc, shelf, mesh, extent)?;
    disc_at(alloc, mesh, lengths, base, kind)
}
