//! Writes evidence.
ghost use Rattle.std.specs.Prelude.{◌≡◌, ◌≤◌, ◌∷◌, [], length};
ghost use Rattle.surf_text.specs.Pages.{Puts};
ghost use Rattle.surf_text.specs.Numbers.{numbers_text};
ghost use Rattle.surf_class.specs.Seen.{seen};
ghost use Rattle.surf_class.specs.Texts.{evidence_head_text, both_ends, counted_text, evidence_text};

use crate::evidence::Evidence;
use surf_base::{FaceId, VertexId};
use surf_text::{Page, PageFault, Piece};

// Each face behind a space.
fn write_faces(page: &mut Page, faces: &[FaceId]) -> Result<(), PageFault>
    requires fits { length page.old.bytes ≤ page.old.most }
    ensures puts { Puts page.old page.new (numbers_text faces.now) result }
{
    for face in faces {
        page.push_pieces(&[Piece::Bytes(b" "), Piece::Whole(face.index() as u128)])?;
    }
    Ok(())
}

// Both ends of an edge, each behind a space.
fn write_pair(page: &mut Page, u: VertexId, v: VertexId) -> Result<(), PageFault>
    ensures puts { Puts page.old page.new (numbers_text (u ∷ v ∷ [])) result }
{
    page.push_pieces(&[
        Piece::Bytes(b" "),
        Piece::Whole(u.index() as u128),
        Piece::Bytes(b" "),
        Piece::Whole(v.index() as u128),
    ])
}

// Both ends of each edge.
fn write_pairs(page: &mut Page, pairs: &[(VertexId, VertexId)]) -> Result<(), PageFault>
    requires fits { length page.old.bytes ≤ page.old.most }
    ensures puts { Puts page.old page.new (numbers_text (both_ends pairs.now)) result }
{
    for pair in pairs {
        write_pair(page, pair.0, pair.1)?;
    }
    Ok(())
}

// A word, and a count behind a space.
fn write_head(page: &mut Page, word: &[u8], count: usize) -> Result<(), PageFault>
    ensures puts { Puts page.old page.new (evidence_head_text word.now count) result }
{
    page.push_pieces(&[
        Piece::Bytes(word),
        Piece::Bytes(b" "),
        Piece::Whole(count as u128),
    ])
}

// The line of faces.
fn write_null(page: &mut Page, word: &[u8], faces: &[FaceId]) -> Result<(), PageFault>
    ensures puts { Puts page.old page.new (counted_text word.now (length faces.now) faces.now)
        result }
{
    write_head(page, word, faces.len())?;
    write_faces(page, faces)?;
    page.push_bytes(b"\n")
}

// The line of edges.
fn write_odd(page: &mut Page, word: &[u8], pairs: &[(VertexId, VertexId)]) -> Result<(), PageFault>
    ensures puts { Puts page.old page.new (counted_text word.now (length pairs.now)
        (both_ends pairs.now)) result }
{
    write_head(page, word, pairs.len())?;
    write_pairs(page, pairs)?;
    page.push_bytes(b"\n")
}

/// Puts the line of evidence on a page: a word, one for each kind, the count of its faces or edges,
/// and these.
///
/// Refuses with `Full` where the page would hold more than its bound with the whole line, and with
/// `Memory` where there is none. After a refusal the page holds a front of the line behind its
/// bytes.
pub fn write_evidence(
    page: &mut Page,
    null_word: &[u8],
    odd_word: &[u8],
    evidence: &Evidence,
) -> Result<(), PageFault>
    ensures puts { Puts page.old page.new (evidence_text null_word.now odd_word.now
        (seen evidence.now)) result }
{
    match evidence {
        Evidence::Null(list) => write_null(page, null_word, list.faces()),
        Evidence::Odd(list) => write_odd(page, odd_word, list.pairs()),
    }
}
