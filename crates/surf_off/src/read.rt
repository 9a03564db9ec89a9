//! Reads an OFF text.
ghost use Rattle.std.specs.Prelude.{◌≡◌, ◌<◌, ◌≤◌, ◌+◌, ◌/◌, min, length, IfOk};
ghost use Rattle.surf_surfaces.specs.SideNumber.{side_count};
ghost use Rattle.surf_text.specs.Walks.{lines_ahead};
ghost use Rattle.surf_surfaces.specs.Mesh.{Mesh};
ghost use Rattle.surf_off.specs.Off.{OffParts, ended, off_of};
ghost use Rattle.surf_off.specs.Clean.{IsOffParts};
ghost use Rattle.surf_base.specs.Gives.{Gives};
ghost use Rattle.surf_off.specs.Gives.{GivesSecond};
ghost use Rattle.surf_off.specs.Places.{AreWithin, parts_at};
ghost use Rattle.surf_base.specs.declared.limits.TheConstants.{MAX_FACES, MAX_SIDES, MAX_VERTICES};

use crate::faces::read_faces;
use crate::fault::OffFault;
use crate::head::{read_counts, read_head};
use crate::off_places::OffPlaces;
use crate::parts::{Colours, Parts};
use crate::text::OffText;
use crate::vertices::{pass_vertices, read_vertices};
use std::alloc::Global;
use surf_soup::Soup;
use surf_text::PlacedLines;

// Room for so many lines, but for no more than the text can have: each has three tokens at least,
// so it takes six bytes with its end. A count of the head alone asks for no memory.
fn room_for(text: &[u8], count: u32) -> usize
    ensures room { result ≡ min count (length text.now / 6 + 1) }
{
    (count as usize).min(text.len() / 6 + 1)
}

/// Reads an OFF text: its keyword, vertex lines and colours as slices of the text, and its mesh.
/// Refuses with the first fault of the text, or with `Memory` where there is none. The text is
/// shorter than 2^32 − 1 bytes.
///
/// The format is that of the Geomview manual, "OFF Files", read by lines, with one vertex or one
/// face a line; coordinates and colours aren't read as numbers.
pub fn read_off<'a>(alloc: Global, text: &'a [u8]) -> Result<(OffText<'a>, Soup), OffFault>
    requires short { length text.now < 4294967295 }
    ensures off { Gives OffFault.Memory (λ x. x) result (off_of text.now) }
    ensures lines { IfOk result (λ x. length x.0.vertex_lines ≡ x.1.vertices) }
    ensures colours { IfOk result (λ x. length x.0.colours ≡ length x.1.faces) }
    ensures vertices { IfOk result (λ x. x.1.vertices ≤ MAX_VERTICES) }
    ensures faces { IfOk result (λ x. length x.1.faces ≤ MAX_FACES) }
    ensures sides { IfOk result (λ x. side_count x.1 ≤ MAX_SIDES) }
{
    let (places, soup) = read_places(alloc, text)?;
    Ok((places.over(text), soup))
}

/// Reads an OFF text as [`read_off`] does, with the places of the vertex lines and colours in place
/// of the slices, so that the text is free to go or to be cut short.
#[tactic(auto, unfolding(crate::specs::Off::off_in))]
pub fn read_places(alloc: Global, text: &[u8]) -> Result<(OffPlaces, Soup), OffFault>
    requires short { length text.now < 4294967295 }
    ensures off { Gives OffFault.Memory (λ x. (parts_at text.now x.0, x.1)) result
        (off_of text.now) }
    ensures within { IfOk result (λ x. AreWithin (length text.now) x.0) }
    ensures clean { IfOk result (λ x. IsOffParts (parts_at text.now x.0)) }
    ensures lines { IfOk result (λ x.
        length (parts_at text.now x.0).vertex_lines ≡ x.1.vertices) }
    ensures colours { IfOk result (λ x.
        length (parts_at text.now x.0).colours ≡ length x.1.faces) }
    ensures vertices { IfOk result (λ x. x.1.vertices ≤ MAX_VERTICES) }
    ensures faces { IfOk result (λ x. length x.1.faces ≤ MAX_FACES) }
    ensures sides { IfOk result (λ x. side_count x.1 ≤ MAX_SIDES) }
{
    let mut lines = PlacedLines::over(text);
    let mut head = read_head(&mut lines)?;
    let (vertices, faces) = read_counts(head.number, &mut head.counts)?;
    let room = Vec::with_capacity(alloc, room_for(text, vertices))?;
    let mut vertex_lines = Parts::at(text, room);
    read_vertices(&mut lines, vertices, faces, &mut vertex_lines)?;
    let mut colours = Colours::none(alloc, text);
    let soup = read_faces(alloc, &mut lines, vertices, faces, &mut colours)?;
    test_end(&mut lines)?;
    let places = OffPlaces::of_parts(head.header, vertex_lines, colours);
    Ok((places, soup))
}

/// The mesh alone. The vertex lines are tested and passed over, so that they take no memory.
#[tactic(auto, unfolding(crate::specs::Off::off_in))]
pub fn read_soup(alloc: Global, text: &[u8]) -> Result<Soup, OffFault>
    requires short { length text.now < 4294967295 }
    ensures off { GivesSecond (λ soup. soup) result (off_of text.now) }
    ensures vertices { IfOk result (λ soup. soup.vertices ≤ MAX_VERTICES) }
    ensures faces { IfOk result (λ soup. length soup.faces ≤ MAX_FACES) }
    ensures sides { IfOk result (λ soup. side_count soup ≤ MAX_SIDES) }
{
    let mut lines = PlacedLines::over(text);
    let mut head = read_head(&mut lines)?;
    let (vertices, faces) = read_counts(head.number, &mut head.counts)?;
    pass_vertices(&mut lines, vertices, faces)?;
    let mut colours = Colours::none(alloc, text);
    let soup = read_faces(alloc, &mut lines, vertices, faces, &mut colours)?;
    test_end(&mut lines)?;
    Ok(soup)
}

// No line may stand behind the faces.
fn test_end(lines: &mut PlacedLines<'_>) -> Result<(), OffFault>
    ensures { (off : OffParts × Mesh) → Gives OffFault.Memory (λ _. off) result
        (ended off (lines_ahead lines.old)) }
{
    match lines.next_line() {
        Some(line) => Err(OffFault::Trailing { line: line.number }),
        None => Ok(()),
    }
}
