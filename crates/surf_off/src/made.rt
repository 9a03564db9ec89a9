//! Writes a made mesh as an OFF text.
ghost use Rattle.std.specs.Prelude.{◌≡◌, ◌≤◌, ◌++◌, codes, length};
ghost use Rattle.std.specs.List.{zip, range_with_len};
ghost use Rattle.surf_text.specs.Pages.{Puts};
ghost use Rattle.surf_off.specs.Written.{lines_text, faces_text, points, point_text, no_colours};
ghost use Rattle.surf_off.specs.Written.{soup_text, RereadsSoup};

use crate::face::write_face;
use crate::header::Header;
use crate::write::write_head;
use surf_base::FaceId;
use surf_soup::Soup;
use surf_text::{Page, PageFault, Slip};

// Makes the line of a vertex, in place of what the slip holds.
fn make_point(slip: &mut Slip, v: u32)
    ensures line { slip.new ≡ point_text v ++ codes "\n" }
{
    slip.clear();
    slip.put_bytes(b" 0 0\n");
    slip.put_whole(v as u64);
}

fn write_points(page: &mut Page, vertices: u32) -> Result<(), PageFault>
    ensures puts { Puts page.old page.new (lines_text (points (range_with_len 0 vertices))) result }
{
    page.law_of_page();
    let mut slip = Slip::new();
    for v in 0..vertices {
        make_point(&mut slip, v);
        page.push_bytes(slip.bytes())?;
    }
    Ok(())
}

fn write_plain_faces(page: &mut Page, soup: &Soup) -> Result<(), PageFault>
    ensures puts { Puts page.old page.new (faces_text (zip soup.now.faces
        (no_colours soup.now.faces))) result }
{
    page.law_of_page();
    let mut slip = Slip::new();
    for f in 0..soup.faces() {
        write_face(page, &mut slip, soup.face(FaceId::new(f)), b"")?;
    }
    Ok(())
}

/// Puts a made mesh on a page: the keyword `OFF`, the numbers of vertices, faces and edges, for
/// each vertex a line with its number and two zeros, and the faces. Refuses with `Full` where the
/// page would hold more than its bound with the whole text, and with `Memory` where there is none.
/// After a refusal the page holds a front of the text behind its bytes. Read again without limits,
/// the text is this mesh.
pub fn write_soup(page: &mut Page, soup: &Soup, edges: u32) -> Result<(), PageFault>
    ensures puts { Puts page.old page.new (soup_text soup.now edges) result }
    ensures reread { RereadsSoup soup.now edges }
{
    soup.law_of_soup();
    write_head(
        page,
        Header::Off,
        soup.vertices() as usize,
        soup.faces() as usize,
        edges,
    )?;
    write_points(page, soup.vertices())?;
    write_plain_faces(page, soup)
}
