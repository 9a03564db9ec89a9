//! OFF texts. Their faults are cases of the built program.
ghost use Rattle.std.specs.Prelude.{◌≡◌, length};

use std::alloc::Global;
use std::test::Fail;
use surf_base::{FaceId, VertexId};
use surf_off::{Header, OffText, read_off};
use surf_soup::Soup;

const TET: &[u8] = b"OFF\n4 4 6\n0 0 0\n1 0 0\n0 1 0\n0 0 1\n3 0 1 2\n3 0 3 1\n3 0 2 3\n3 1 3 2\n";

// Whether these are three vertices and two faces, with their lines, colours and corners.
fn are_kept(off: &OffText<'_>, soup: &Soup) -> bool
    requires lines { length off.now.vertex_lines ≡ soup.now.vertices }
    requires colours { length off.now.colours ≡ length soup.now.faces }
{
    let (v, w) = (VertexId::new(0), VertexId::new(1));
    let (f, g) = (FaceId::new(0), FaceId::new(1));
    let corners = [VertexId::new(0), VertexId::new(2), VertexId::new(1)];
    soup.vertices() == 3
        && soup.faces() == 2
        && off.header() == Header::Coff
        && off.vertex_line(v) == b"0.5 0 0  255 0".as_slice()
        && off.vertex_line(w) == b"1 0 0".as_slice()
        && off.colour(f) == b"9 9".as_slice()
        && off.colour(g).is_empty()
        && soup.face(g) == corners.as_slice()
}

#[test]
fn texts_are_kept(rt: HostRuntime) -> Result<(), Fail> {
    let text =
        b"COFF 3 2 0\r\n0.5 0 0  255 0 \r\n1 0 0\t# b\r\n0 1 0\r\n3 0 1 2 9 9\r\n3 0 2 1\r\n";
    let Ok((off, soup)) = read_off(rt.alloc(), text) else {
        return Err("a text")?;
    };
    assert!(rt; are_kept(&off, &soup));
    Ok(())
}

// The line of vertex 1 of a text: it is lent by the text and not by what was read of it.
fn second_line(alloc: Global, text: &[u8]) -> Option<&[u8]> {
    if text.len() > 1000 {
        return None;
    }
    let (off, soup) = read_off(alloc, text).ok()?;
    if soup.vertices() < 2 {
        return None;
    }
    Some(off.vertex_line(VertexId::new(1)))
}

#[test]
fn lines_are_lent(rt: HostRuntime) -> Result<(), Fail> {
    let line = second_line(rt.alloc(), TET).ok_or("a text")?;
    assert_eq!(rt; line, b"1 0 0".as_slice());
    Ok(())
}
