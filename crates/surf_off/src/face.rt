//! The line of a face, by the numbers of its corners.
ghost use Rattle.std.specs.Prelude.{◌≡◌, ◌<◌, ◌≤◌, [], length, map};
ghost use Rattle.surf_text.specs.Pages.{Puts};
ghost use Rattle.surf_text.specs.Numbers.{numbers_text};
ghost use Rattle.surf_off.specs.Written.{colour_text, face_text};

use crate::numbered::Numbered;
use surf_base::VertexId;
use surf_text::{Page, PageFault, Piece, Slip};

// How many corners fit on a slip, with how many they are and the end of the line.
const FEW_CORNERS: usize = 5;

fn write_corners<N: Numbered>(page: &mut Page, corners: &[N]) -> Result<(), PageFault>
    ensures puts { Puts page.old page.new (numbers_text (map N.number corners.now)) result }
{
    page.law_of_page();
    for c in corners {
        page.push_pieces(&[Piece::Bytes(b" "), Piece::Whole(c.number() as u128)])?;
    }
    Ok(())
}

fn write_colour(page: &mut Page, colour: &[u8]) -> Result<(), PageFault>
    ensures puts { Puts page.old page.new (colour_text colour.now) result }
{
    page.law_of_page();
    if colour.is_empty() {
        return Ok(());
    }
    page.push_pieces(&[Piece::Bytes(b" "), Piece::Bytes(colour)])
}

// Makes the line of a face of few corners without a colour, in place of what the slip holds.
fn make_line<N: Numbered>(slip: &mut Slip, corners: &[N])
    requires few { length corners.now ≤ 5 }
    ensures face { slip.new ≡ face_text (map N.number corners.now) [] }
{
    slip.clear();
    slip.put_byte(b'\n');
    for k in (0..corners.len()).rev() {
        slip.put_whole(corners[k].number() as u64);
        slip.put_byte(b' ');
    }
    slip.put_whole(corners.len() as u64);
}

// The line of a face, however long it is.
fn write_long<N: Numbered>(page: &mut Page, corners: &[N], colour: &[u8]) -> Result<(), PageFault>
    ensures puts { Puts page.old page.new (face_text (map N.number corners.now) colour.now) result }
{
    page.push_whole(corners.len() as u128)?;
    write_corners(page, corners)?;
    write_colour(page, colour)?;
    page.push_bytes(b"\n")
}

/// Puts the line of a face on a page as `write_face` does, by corners of any kind that has a
/// number.
#[inline]
pub(crate) fn put_face<N: Numbered>(
    page: &mut Page,
    slip: &mut Slip,
    corners: &[N],
    colour: &[u8],
) -> Result<(), PageFault>
    ensures puts { Puts page.old page.new (face_text (map N.number corners.now) colour.now) result }
{
    if corners.len() > FEW_CORNERS || !colour.is_empty() {
        return write_long(page, corners, colour);
    }
    make_line(slip, corners);
    page.push_bytes(slip.bytes())
}

/// Puts the line of a face on a page: how many corners it has, their vertices and its colour, if
/// it has one. A short line is put together on the slip. Refuses with `Full` where the page would
/// hold more than its bound with the whole line, and with `Memory` where there is none. After a
/// refusal the page holds a front of the line behind its bytes.
pub fn write_face(
    page: &mut Page,
    slip: &mut Slip,
    corners: &[VertexId],
    colour: &[u8],
) -> Result<(), PageFault>
    ensures puts { Puts page.old page.new (face_text corners.now colour.now) result }
{
    put_face(page, slip, corners, colour)
}
