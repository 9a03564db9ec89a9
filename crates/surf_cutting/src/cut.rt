//! A surface cut open.
ghost use Rattle.std.specs.Prelude.{◌≡◌, ◌<◌, ◌≤◌, ◌^◌, All, length, IfOk, Ok};
ghost use Rattle.surf_surfaces.specs.Surface.{edge_count, face_count};
ghost use Rattle.surf_cutter.specs.Kinds.{Kind, kind_of, points_of};
ghost use Rattle.surf_cutter.specs.Opened.{OpenMesh, IsHeld, IsChosenFor, IsNearFor};
ghost use Rattle.surf_off.specs.Clean.{IsOffParts};
ghost use Rattle.surf_off.specs.Written.{RereadsOpened};
ghost use Rattle.surf_sew.specs.Copies.{copies_in};
ghost use Rattle.surf_answers.specs.Cuts.{CutsAt, GivesOpened, IsCutAt, IsNearAt, cut_text};
ghost use Rattle.surf_texts.specs.Cause.{outcome_of};
ghost use Rattle.surf_texts.specs.PointLines.{near_cause};
ghost use Rattle.surf_answers.specs.Tells.{Concludes, Takes};
ghost use Rattle.surf_text.specs.Pages.{Puts};

use std::alloc::Global;
use surf_answers::Answered;
use surf_base::{FaceId, MAX_ANSWER, NoMemory, VertexId};
use surf_cutter::{CutFault, CutKind, OpenDisc, disc_outside};
use surf_lengths::Lengths;
use surf_loops::BaseLoops;
use surf_mesh::HalfMesh;
use surf_off::{OffText, write_off};
use surf_text::{Page, PageFault, Slip};
use surf_texts::Refused;

/// A surface cut open at a base, as far as the kind says. Refuses with `Near` exactly where the cut
/// is to go through vertices and has fewer than two edges.
pub(crate) fn disc_at(
    alloc: Global,
    mesh: &HalfMesh,
    lengths: Lengths,
    base: VertexId,
    kind: CutKind,
) -> Result<OpenDisc, Refused>
    requires lengths { length lengths ≡ edge_count mesh.now }
    requires base { base < mesh.now.vertices }
    requires points { All (λ v. v < mesh.now.vertices) (points_of (kind_of kind)) }
    ensures tells { Takes (λ opened. opened) (CutsAt (kind_of kind) mesh.now lengths base) result }
    ensures lines { IfOk result (λ opened. All (λ v. v < mesh.now.vertices) opened.origins) }
    ensures faces { IfOk result (λ opened. length opened.faces ≡ face_count mesh.now) }
{
    let held = held_at(alloc, mesh, &lengths, base)?;
    let opened = match disc_outside(alloc, mesh, held, kind) {
        Ok(opened) => opened,
        Err(CutFault::Near) => return Err(Refused::Near),
        Err(CutFault::Memory) => return Err(Refused::Memory),
    };
    // Freed only now: freed earlier, their room would go to a table of the opening, which would
    // split the room that is free for the text.
    drop(lengths);
    Ok(opened)
}

// The edges of the tree of the faces that is chosen at a base: what is opened along the others is
// what is cut open at the base. Of the tables that it is found by, its flags alone are kept.
fn held_at(
    alloc: Global,
    mesh: &HalfMesh,
    lengths: &Lengths,
    base: VertexId,
) -> Result<Vec<bool>, NoMemory>
    requires lengths { length lengths.now ≡ edge_count mesh.now }
    requires base { base < mesh.now.vertices }
    ensures size { IfOk result (λ held. length held.items ≡ edge_count mesh.now) }
    ensures held { IfOk result (λ held. IsHeld mesh.now held.items) }
    ensures cuts { IfOk result (λ held. (kind : Kind) (o : OpenMesh) →
        All (λ v. v < mesh.now.vertices) (points_of kind) → IsChosenFor mesh.now held.items kind o
        → IsCutAt mesh.now lengths.now base kind o.origins o.faces) }
    ensures near { IfOk result (λ held. (kind : Kind) → IsNearFor mesh.now held.items kind →
        IsNearAt mesh.now lengths.now base kind (outcome_of near_cause)) }
    ensures origins { IfOk result (λ held. (kind : Kind) (o : OpenMesh) →
        IsChosenFor mesh.now held.items kind o → All (λ v. v < mesh.now.vertices) o.origins) }
{
    mesh.law_of_surface();
    let loops = BaseLoops::find(alloc, mesh, lengths, base)?;
    Ok(loops.into_held())
}

// How many digits a number has.
fn digits_of(number: usize) -> usize
    ensures few { result ≤ 64 }
{
    let mut slip = Slip::new();
    let before = slip.room();
    slip.put_whole(number as u64);
    before - slip.room()
}

// How many bytes the vertex lines of copies take, and the numbers of their vertices in comments.
// Each number that is read has 32 bits.
fn lines_room(text: &OffText<'_>, origins: &[VertexId]) -> usize
    requires lines { All (λ v. v < length text.now.vertex_lines) origins.now }
    ensures small { All (λ v. v < 2 ^ 32) origins.now }
{
    let mut room = origins.len();
    for v in origins {
        room = room
            .saturating_add(text.vertex_line(*v).len())
            .saturating_add(digits_of(v.number() as usize));
    }
    room
}

// How many bytes the colours of faces take, with what stands around them.
fn colours_room(text: &OffText<'_>, faces: u32) -> usize
    requires colours { faces ≤ length text.now.colours }
{
    let mut room = 0usize;
    for f in 0..faces {
        room = room.saturating_add(text.colour(FaceId::new(f)).len() + 3);
    }
    room
}

// How many bytes the text of an opened surface takes, or some hundredths more.
fn text_room(text: &OffText<'_>, opened: &OpenDisc) -> usize
    requires lines { All (λ v. v < length text.now.vertex_lines) opened.now.origins }
    requires colours { length opened.now.faces ≡ length text.now.colours }
    ensures clean { IsOffParts text.now }
    ensures small { All (λ v. v < 2 ^ 32) opened.now.origins }
{
    let copies = opened.origins().len();
    let number = digits_of(copies) + 1;
    let head = text.header().keyword().len().saturating_add(3 * number);
    let lines = lines_room(text, opened.origins());
    let corners = opened.corners().len().saturating_mul(number);
    let colours = colours_room(text, opened.face_count());
    let comments = copies.saturating_mul(number + 13);
    head.saturating_add(lines)
        .saturating_add(corners)
        .saturating_add(colours)
        .saturating_add(comments)
}

/// The text of an opened surface, with the lines and colours of the text that it was read from.
pub(crate) fn disc_text(
    alloc: Global,
    text: &OffText<'_>,
    opened: &OpenDisc,
) -> Result<Answered, Refused>
    requires lines { All (λ v. v < length text.now.vertex_lines) opened.now.origins }
    requires colours { length opened.now.faces ≡ length text.now.colours }
    ensures { Concludes (GivesOpened text.now opened.now) result }
{
    let mut page = Page::make(alloc, MAX_ANSWER);
    put_opened(&mut page, text, opened)?;
    Ok(Answered::yes(page.into_bytes()))
}

// Puts an opened surface on a page, with room for it.
fn put_opened(page: &mut Page, text: &OffText<'_>, opened: &OpenDisc) -> Result<(), PageFault>
    requires lines { All (λ v. v < length text.now.vertex_lines) opened.now.origins }
    requires colours { length opened.now.faces ≡ length text.now.colours }
    ensures puts { Puts page.old page.new (cut_text text.now opened.now.origins opened.now.faces)
        result }
    ensures reread { RereadsOpened text.now opened.now.origins opened.now.faces
        (edge_count (record { vertices = length opened.now.origins; faces = opened.now.faces })) }
    ensures copies { copies_in (cut_text text.now opened.now.origins opened.now.faces)
        (length opened.now.origins) ≡ Ok opened.now.origins }
{
    page.take_room(text_room(text, opened));
    write_off(
        page,
        text,
        opened.origins(),
        opened.corners(),
        opened.starts(),
        opened.edges(),
    )
}
