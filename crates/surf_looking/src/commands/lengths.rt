//! The command `lengths`.
ghost use Rattle.std.specs.Prelude.{◌≡◌, ◌≤◌, length, IfOk, Some};
ghost use Rattle.surf_surfaces.specs.Surface.{edge_count};
ghost use Rattle.surf_words.specs.Words.{lengths};
ghost use Rattle.surf_answers.specs.Lengths.{GivesLengths, Measures};
ghost use Rattle.surf_answers.specs.Tells.{Concludes, ConcludesOver, Takes};
ghost use Rattle.surf_answers.specs.Commands.{OnRequest};

use std::alloc::Global;
use surf_answers::{Answered, read_file, read_front};
use surf_base::{MAX_ANSWER, Shelf};
use surf_geom::{measure, write_lengths};
use surf_lengths::Lengths;
use surf_mesh::HalfMesh;
use surf_off::OffText;
use surf_text::Page;
use surf_texts::Refused;
use surf_words::Decimals;

/// What `lengths` answers: the measures of the edges of a surface as a length file.
pub fn answer<S: Shelf>(
    alloc: Global,
    shelf: &mut S,
    mesh: &str,
    decimals: Decimals,
) -> Result<Answered, Refused>
    ensures holds { S.holds shelf.new ≡ S.holds shelf.old }
    ensures later { S.faults shelf.old ≤ S.faults shelf.new }
    ensures tells { ConcludesOver (S.holds shelf.old) (S.faults shelf.old) (S.faults shelf.new)
        (OnRequest (Some (lengths mesh.now decimals))) result }
{
    let mut bytes = read_file(alloc, shelf, mesh)?;
    let (places, mesh) = read_front(alloc, &mut bytes)?;
    let lengths = measure_edges(alloc, &places.over(&bytes), &mesh, decimals)?;
    lengths_text(alloc, &mesh, &lengths)
}

// The measures of the edges.
fn measure_edges(
    alloc: Global,
    text: &OffText<'_>,
    mesh: &HalfMesh,
    decimals: Decimals,
) -> Result<Lengths, Refused>
    requires lines { length text.now.vertex_lines ≡ mesh.now.vertices }
    ensures tells { Takes (λ lengths. lengths) (Measures decimals (text.now, mesh.now)) result }
    ensures count { IfOk result (λ lengths. length lengths ≡ edge_count mesh.now) }
{
    let lengths = measure(alloc, mesh, text, decimals.count())?;
    Ok(lengths)
}

// Lengths as a length file.
fn lengths_text(alloc: Global, mesh: &HalfMesh, lengths: &Lengths) -> Result<Answered, Refused>
    requires count { length lengths.now ≡ edge_count mesh.now }
    ensures { Concludes (GivesLengths mesh.now lengths.now) result }
{
    let mut page = Page::make(alloc, MAX_ANSWER);
    write_lengths(&mut page, mesh, lengths)?;
    Ok(Answered::yes(page.into_bytes()))
}
