//! Writes an opened mesh as an OFF text.
ghost use Rattle.std.specs.Prelude.{◌≡◌, ◌<◌, ◌≤◌, ◌+◌, ◌++◌, [], codes, length, slice_index_or};
ghost use Rattle.std.specs.List.{All, zip, range_with_len};
ghost use Rattle.surf_surfaces.specs.Mesh.{IsFace};
ghost use Rattle.surf_text.specs.Pages.{Puts};
ghost use Rattle.surf_off.specs.Written.{head_text, lines_text, faces_text};
ghost use Rattle.surf_off.specs.Written.{copy_text, copies_text, lines_at, rows_at, AreStarts, opened_text};
ghost use Rattle.surf_off.specs.Written.{RereadsOpened};

use crate::face::put_face;
use crate::header::Header;
use crate::text::OffText;
use surf_base::{CopyId, VertexId};
use surf_text::{Page, PageFault, Piece, Slip};

/// Puts the head of an OFF text on a page: the line of its keyword, and that of the numbers of
/// vertices, faces and edges. Refuses as `write_off` does.
pub fn write_head(
    page: &mut Page,
    header: Header,
    vertices: usize,
    faces: usize,
    edges: u32,
) -> Result<(), PageFault>
    ensures puts { Puts page.old page.new (head_text header vertices faces edges) result }
{
    page.push_pieces(&[
        Piece::Bytes(header.keyword()),
        Piece::Bytes(b"\n"),
        Piece::Whole(vertices as u128),
        Piece::Bytes(b" "),
        Piece::Whole(faces as u128),
        Piece::Bytes(b" "),
        Piece::Whole(edges as u128),
        Piece::Bytes(b"\n"),
    ])
}

/// Puts a line and its end on a page. Refuses as `write_off` does.
pub fn write_line(page: &mut Page, line: &[u8]) -> Result<(), PageFault>
    ensures puts { Puts page.old page.new (line.now ++ codes "\n") result }
{
    page.push_bytes(line)?;
    page.push_bytes(b"\n")
}

// The line of each copy's vertex.
fn write_lines(page: &mut Page, text: &OffText<'_>, origins: &[VertexId]) -> Result<(), PageFault>
    requires within { All (λ v. v < length text.now.vertex_lines) origins.now }
    ensures puts { Puts page.old page.new (lines_text (lines_at text.now.vertex_lines origins.now))
        result }
{
    page.law_of_page();
    for v in origins {
        write_line(page, text.vertex_line(*v))?;
    }
    Ok(())
}

// The corners of a face.
fn face_at<'a>(corners: &'a [CopyId], starts: &[u32], f: usize) -> &'a [CopyId]
    requires starts { AreStarts starts.now (length corners.now) }
    requires within { f + 1 < length starts.now }
    ensures face { result.now ≡ slice_index_or (rows_at starts.now corners.now) f [] }
{
    let start = starts[f] as usize;
    let end = starts[f + 1] as usize;
    &corners[start..end]
}

fn write_faces(
    page: &mut Page,
    text: &OffText<'_>,
    corners: &[CopyId],
    starts: &[u32],
) -> Result<(), PageFault>
    requires starts { AreStarts starts.now (length corners.now) }
    requires count { length starts.now ≡ length text.now.colours + 1 }
    ensures puts { Puts page.old page.new (faces_text (zip (rows_at starts.now corners.now)
        text.now.colours)) result }
{
    page.law_of_page();
    let mut slip = Slip::new();
    for f in 0..starts.len() - 1 {
        put_face(
            page,
            &mut slip,
            face_at(corners, starts, f),
            text.colour_at(f),
        )?;
    }
    Ok(())
}

// Makes the comment for a copy, in place of what the slip holds.
fn make_comment(slip: &mut Slip, i: usize, origin: VertexId)
    ensures comment { slip.new ≡ copy_text i origin }
{
    slip.clear();
    slip.put_byte(b'\n');
    slip.put_whole(origin.number() as u64);
    slip.put_bytes(b" from ");
    slip.put_whole(i as u64);
    slip.put_bytes(b"# copy ");
}

// A comment for each copy.
fn write_copies(page: &mut Page, origins: &[VertexId]) -> Result<(), PageFault>
    ensures puts { Puts page.old page.new (copies_text origins.now
        (range_with_len 0 (length origins.now))) result }
{
    page.law_of_page();
    let mut slip = Slip::new();
    for i in 0..origins.len() {
        make_comment(&mut slip, i, origins[i]);
        page.push_bytes(slip.bytes())?;
    }
    Ok(())
}

/// Puts an opened mesh on a page: the keyword of `text`, the numbers of copies, faces and edges,
/// the line of each copy's vertex, each face with its colour, and a comment for each copy that
/// names its vertex.
///
/// `origins` has the vertex of each copy. The corners of face `f` are those from place `starts[f]`
/// up to, but without, place `starts[f + 1]`. Refuses with `Full` where the page would hold more
/// than its bound with the whole text, and with `Memory` where there is none. After a refusal the
/// page holds a front of the text behind its bytes. Read again without limits, the text has the
/// keyword, these vertex lines, faces and colours.
pub fn write_off(
    page: &mut Page,
    text: &OffText<'_>,
    origins: &[VertexId],
    corners: &[CopyId],
    starts: &[u32],
    edges: u32,
) -> Result<(), PageFault>
    requires origins { All (λ v. v < length text.now.vertex_lines) origins.now }
    requires starts { AreStarts starts.now (length corners.now) }
    requires count { length starts.now ≡ length text.now.colours + 1 }
    requires faces { All (IsFace (length origins.now)) (rows_at starts.now corners.now) }
    ensures puts { Puts page.old page.new (opened_text text.now origins.now
        (rows_at starts.now corners.now) edges) result }
    ensures reread { RereadsOpened text.now origins.now (rows_at starts.now corners.now) edges }
{
    write_head(page, text.header(), origins.len(), starts.len() - 1, edges)?;
    write_lines(page, text, origins)?;
    write_faces(page, text, corners, starts)?;
    write_copies(page, origins)
}
