//! The command `sew`.
ghost use Rattle.std.specs.Prelude.{◌≡◌, ◌<◌, ◌≤◌, ◌^◌, length, IfOk, Some};
ghost use Rattle.surf_surfaces.specs.Surface.{face_count};
ghost use Rattle.surf_sew.specs.Sewing.{HaveCopies};
ghost use Rattle.surf_words.specs.Words.{sew};
ghost use Rattle.surf_answers.specs.Sewing.{GivesSewn};
ghost use Rattle.surf_answers.specs.Tells.{Concludes, ConcludesOver, Takes};
ghost use Rattle.surf_answers.specs.Commands.{OnRequest};
ghost use Rattle.surf_answers.specs.Reading.{IsMeshText, IsSurfaceOf};
ghost use Rattle.surf_answers.specs.SewingSteps.{HasOrigins, IsSewn, OnSewnMesh};
ghost use Rattle.surf_answers.specs.Steps.{Ends};
ghost use Rattle.surf_base.specs.declared.limits.TheConstants.{MAX_TEXT};

use crate::disc::not_disc;
use crate::sewing::sewn_text;
use std::alloc::Global;
use surf_answers::{Answered, read_file, read_mesh, surface_of};
use surf_base::{Shelf, VertexId};
use surf_disc::{DiscFault, check_disc};
use surf_off::OffText;
use surf_sew::{read_copies, sew as sew_copies};
use surf_soup::Soup;
use surf_texts::Refused;

/// What `sew` answers: the mesh that was cut, from the text that `cut` wrote.
pub fn answer<S: Shelf>(alloc: Global, shelf: &mut S, mesh: &str) -> Result<Answered, Refused>
    ensures holds { S.holds shelf.new ≡ S.holds shelf.old }
    ensures later { S.faults shelf.old ≤ S.faults shelf.new }
    ensures tells { ConcludesOver (S.holds shelf.old) (S.faults shelf.old) (S.faults shelf.new)
        (OnRequest (Some (sew mesh.now))) result }
{
    let bytes = read_file(alloc, shelf, mesh)?;
    sew_text(alloc, &bytes)
}

// What `sew` answers of a text.
fn sew_text(alloc: Global, bytes: &[u8]) -> Result<Answered, Refused>
    requires { length bytes.now ≤ MAX_TEXT }
    ensures { Concludes (Ends (IsMeshText bytes.now) (λ read.
        Ends (HasOrigins bytes.now read.1.vertices) (λ origins.
        Ends (IsSewn read origins) (OnSewnMesh read origins)))) result }
{
    let (text, copies) = read_mesh(alloc, bytes)?;
    sew_mesh(alloc, bytes, &text, &copies)
}

// What `sew` answers of the mesh of copies that a text is of.
fn sew_mesh(
    alloc: Global,
    bytes: &[u8],
    text: &OffText<'_>,
    copies: &Soup,
) -> Result<Answered, Refused>
    requires short { length bytes.now ≤ MAX_TEXT }
    requires lines { length text.now.vertex_lines ≡ copies.now.vertices }
    requires colours { length text.now.colours ≡ face_count copies.now }
    ensures { Concludes (Ends (HasOrigins bytes.now copies.now.vertices) (λ origins.
        Ends (IsSewn (text.now, copies.now) origins) (OnSewnMesh (text.now, copies.now) origins)))
        result }
{
    let origins = origins_of(alloc, bytes, copies.vertices())?;
    let sewn = sewn_of(alloc, text, copies, &origins)?;
    sewn_disc(alloc, text, copies, &origins, sewn)
}

// The origins of the copies.
fn origins_of(alloc: Global, bytes: &[u8], vertices: u32) -> Result<Vec<VertexId>, Refused>
    requires { length bytes.now ≤ MAX_TEXT }
    ensures tells { Takes (λ origins. origins.items) (HasOrigins bytes.now vertices) result }
    ensures count { IfOk result (λ origins. length origins.items ≡ vertices) }
    ensures countable { IfOk result (λ origins. length origins.items < 2 ^ 32) }
{
    match read_copies(alloc, bytes, vertices) {
        Ok(origins) => Ok(origins),
        Err(fault) => Err(Refused::Copies { fault, vertices }),
    }
}

// The mesh of copies with each corner replaced by its origin.
fn sewn_of(
    alloc: Global,
    text: &OffText<'_>,
    copies: &Soup,
    origins: &[VertexId],
) -> Result<Soup, Refused>
    requires lines { length text.now.vertex_lines ≡ copies.now.vertices }
    requires colours { length text.now.colours ≡ face_count copies.now }
    requires origins { length origins.now ≡ copies.now.vertices }
    ensures tells { Takes (λ soup. soup) (IsSewn (text.now, copies.now) origins.now) result }
    ensures copies { IfOk result (λ soup. HaveCopies origins.now soup.vertices) }
    ensures faces { IfOk result (λ soup. face_count soup ≡ face_count copies.now) }
{
    let sewn = sew_copies(alloc, text, copies, origins)?;
    Ok(sewn)
}

// Whether the mesh of copies is a disc, and then the sewn surface.
fn sewn_disc(
    alloc: Global,
    text: &OffText<'_>,
    copies: &Soup,
    origins: &[VertexId],
    sewn: Soup,
) -> Result<Answered, Refused>
    requires lines { length origins.now ≡ length text.now.vertex_lines }
    requires colours { face_count sewn ≡ length text.now.colours }
    requires countable { length origins.now < 2 ^ 32 }
    requires copies { HaveCopies origins.now sewn.vertices }
    ensures { Concludes (OnSewnMesh (text.now, copies.now) origins.now sewn) result }
{
    match check_disc(alloc, copies) {
        Ok(_) => sewn_surface(alloc, text, origins, sewn),
        Err(DiscFault::Memory) => Err(Refused::Memory),
        Err(fault) => not_disc(alloc, &fault),
    }
}

// Whether the sewn mesh is a surface, and then its text.
fn sewn_surface(
    alloc: Global,
    text: &OffText<'_>,
    origins: &[VertexId],
    sewn: Soup,
) -> Result<Answered, Refused>
    requires lines { length origins.now ≡ length text.now.vertex_lines }
    requires colours { face_count sewn ≡ length text.now.colours }
    requires countable { length origins.now < 2 ^ 32 }
    requires copies { HaveCopies origins.now sewn.vertices }
    ensures { Concludes (Ends (IsSurfaceOf sewn) (GivesSewn text.now origins.now)) result }
{
    let mesh = surface_of(alloc, sewn)?;
    sewn_text(alloc, text, origins, &mesh)
}
