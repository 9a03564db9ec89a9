//! Writes lengths as a length file.
ghost use Rattle.std.specs.Prelude.{◌≡◌, ◌<◌, length, slice_index};
ghost use Rattle.surf_surfaces.specs.Surface.{edge_count, ends};
ghost use Rattle.surf_text.specs.Pages.{Puts};
ghost use Rattle.surf_geom.specs.Texts.{entry_text, lengths_text, RereadsLengths};

use surf_base::EdgeId;
use surf_lengths::Lengths;
use surf_mesh::HalfMesh;
use surf_text::{Page, PageFault, Piece};

// The line of an edge.
fn write_entry(
    page: &mut Page,
    mesh: &HalfMesh,
    lengths: &Lengths,
    edge: EdgeId,
) -> Result<(), PageFault>
    requires edge { edge < edge_count mesh.now }
    requires count { length lengths.now ≡ edge_count mesh.now }
    ensures puts { Puts page.old page.new (entry_text (ends mesh.now edge)
        (slice_index lengths.now edge)) result }
{
    let (u, v) = mesh.ends(edge);
    page.push_pieces(&[
        Piece::Whole(u.index() as u128),
        Piece::Bytes(b" "),
        Piece::Whole(v.index() as u128),
        Piece::Bytes(b" "),
        Piece::Whole(u128::from(lengths.of(edge))),
        Piece::Bytes(b"\n"),
    ])
}

/// Puts lengths on a page as a length file of version 1: one line `u v n` for each edge in order,
/// which gives the edge between `u` and `v` the length `n`.
///
/// Refuses with `Full` where the page would hold more than its bound with the whole text, and with
/// `Memory` where there is none. After a refusal the page holds a front of the text behind its
/// bytes. Read for the same mesh, the text gives the same lengths.
pub fn write_lengths(page: &mut Page, mesh: &HalfMesh, lengths: &Lengths) -> Result<(), PageFault>
    requires count { length lengths.now ≡ edge_count mesh.now }
    ensures puts { Puts page.old page.new (lengths_text mesh.now lengths.now) result }
    ensures reread { RereadsLengths mesh.now lengths.now }
{
    mesh.law_of_surface();
    lengths.law_of_lengths();
    page.law_of_page();
    for e in 0..mesh.edges() {
        write_entry(page, mesh, lengths, EdgeId::new(e))?;
    }
    Ok(())
}
