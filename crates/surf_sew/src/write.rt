//! Writes a sewn mesh as an OFF text.
ghost use Rattle.std.specs.Prelude.{◌≡◌, ◌<◌, ◌≤◌, ◌^◌, ◌++◌, IfOk, MatchResult, codes, decimal, length};
ghost use Rattle.std.specs.List.{All, zip};
ghost use Rattle.surf_text.specs.Pages.{Puts};
ghost use Rattle.surf_off.specs.Written.{lines_text, faces_text};
ghost use Rattle.surf_off.specs.Written.{lines_at};
ghost use Rattle.surf_sew.specs.Sewing.{HaveCopies};
ghost use Rattle.surf_sew.specs.Texts.{sewn_lines, sewn_text, RereadsSewn};

use crate::first::list_first;
use surf_base::{FaceId, VertexId};
use surf_mesh::HalfMesh;
use surf_off::{OffText, write_face, write_head, write_line};
use surf_text::{Page, PageFault, Slip};

// The least copies of so many vertices are found by one turn over the origins, so that no memory is
// taken.
const WINDOW: usize = 16_384;

// The vertex lines of some copies.
fn write_copies(page: &mut Page, text: &OffText<'_>, copies: &[u32]) -> Result<(), PageFault>
    requires fits { length page.old.bytes ≤ page.old.most }
    requires within { All (λ c. c < length text.now.vertex_lines) copies.now }
    ensures puts { Puts page.old page.new (lines_text (lines_at text.now.vertex_lines copies.now))
        result }
{
    for c in copies {
        write_line(page, text.vertex_line(VertexId::new(*c)))?;
    }
    Ok(())
}

// The vertex lines of the first vertices, as far as the least copies of vertices stand in the order
// of these. Gives how many vertices that are.
fn write_ordered(
    page: &mut Page,
    text: &OffText<'_>,
    origins: &[VertexId],
    vertices: usize,
) -> Result<usize, PageFault>
    requires fits { length page.old.bytes ≤ page.old.most }
    requires countable { length origins.now < 2 ^ 32 }
    requires origins { length origins.now ≡ length text.now.vertex_lines }
    ensures few { IfOk result (λ n. n ≤ vertices) }
    ensures puts { MatchResult result (λ n. Puts page.old page.new
        (lines_text (sewn_lines text.now.vertex_lines origins.now n)) result)
        (λ _. Puts page.old page.new (lines_text
        (sewn_lines text.now.vertex_lines origins.now vertices)) result) }
{
    let mut next = 0;
    for c in 0..origins.len() {
        let v = origins[c].index();
        if next == vertices || v > next {
            return Ok(next);
        }
        if v == next {
            write_copies(page, text, &[c as u32])?;
            next += 1;
        }
    }
    Ok(next)
}

// The vertex line of the least copy of each vertex.
fn write_lines(
    page: &mut Page,
    text: &OffText<'_>,
    origins: &[VertexId],
    vertices: u32,
) -> Result<(), PageFault>
    requires fits { length page.old.bytes ≤ page.old.most }
    requires countable { length origins.now < 2 ^ 32 }
    requires origins { length origins.now ≡ length text.now.vertex_lines }
    requires copies { HaveCopies origins.now vertices }
    ensures puts { Puts page.old page.new (lines_text
        (sewn_lines text.now.vertex_lines origins.now vertices)) result }
{
    let vertices = vertices as usize;
    let mut first = [0u32; WINDOW];
    let mut from = write_ordered(page, text, origins, vertices)?;
    while from < vertices {
        let count = WINDOW.min(vertices - from);
        list_first(origins, from, &mut first[..count]);
        write_copies(page, text, &first[..count])?;
        from += count;
    }
    Ok(())
}

fn write_faces(page: &mut Page, text: &OffText<'_>, mesh: &HalfMesh) -> Result<(), PageFault>
    requires fits { length page.old.bytes ≤ page.old.most }
    requires faces { length mesh.now.faces ≡ length text.now.colours }
    ensures puts { Puts page.old page.new (faces_text (zip mesh.now.faces text.now.colours))
        result }
{
    let mut slip = Slip::new();
    for f in 0..mesh.faces() {
        let face = FaceId::new(f);
        write_face(page, &mut slip, mesh.face(face), text.colour(face))?;
    }
    Ok(())
}

/// Puts a sewn mesh on a page: the keyword of `text`, the numbers of vertices, faces and edges, for
/// each vertex the line of its least copy, and each face with its colour.
///
/// `text` and `origins` are those of the copies, and `mesh` is what was sewn: it has a face for
/// each face of `text`, and each of its vertices is an origin. Refuses with `Full` where the page
/// would hold more than its bound with the whole text, and with `Memory` where there is none. After
/// a refusal the page holds a front of the text behind its bytes. Read again without limits, the
/// text has the keyword, these vertex lines, the colours and the mesh.
///
/// It takes no memory but the page's. Where the least copies stand in the order of their vertices,
/// as `cut` writes them, one turn over the origins finds them all; else those from the first that
/// doesn't on are found for some thousands of vertices at a time, by one turn each.
pub fn write_sewn(
    page: &mut Page,
    text: &OffText<'_>,
    origins: &[VertexId],
    mesh: &HalfMesh,
) -> Result<(), PageFault>
    requires countable { length origins.now < 2 ^ 32 }
    requires faces { length mesh.now.faces ≡ length text.now.colours }
    requires origins { length origins.now ≡ length text.now.vertex_lines }
    requires copies { HaveCopies origins.now mesh.now.vertices }
    ensures puts { Puts page.old page.new (sewn_text text.now origins.now mesh.now) result }
    ensures reread { RereadsSewn text.now origins.now mesh.now }
{
    let vertices = mesh.vertices();
    let faces = mesh.faces() as usize;
    write_head(page, text.header(), vertices as usize, faces, mesh.edges())?;
    write_lines(page, text, origins, vertices)?;
    write_faces(page, text, mesh)
}
