//! Texts of certificates, read and written again. Their faults are cases of the built program.
use std::alloc::Global;
use std::test::Fail;
use surf_base::VertexId;
use surf_cert::{Cert, LoopCert, read_cert, write_basis_cert, write_loop_cert};
use surf_text::{Page, PageFault};

// The loops at vertex 0 of a torus of 3 by 3 vertices, each edge of length 1.
fn torus() -> &'static [u8] {
    b"\
    SURFCERT 1 loops\ncounts 9 18 2\ntree 0\n0 -\n1 0\n1 0\n1 0\n1 0\n2 1\n1 0\n2 1\n1 0\ndual\n\
    0 -\n5 1 4\n4 4 5\n7 2 5\n6 3 5\n7 2 3\n2 3 7\n1 3 4\n2 4 7\n3 4 8\n4 5 8\n5 5 6\n4 1 6\n\
    3 6 7\n4 2 7\n3 7 8\n4 2 8\n5 6 8\nleft\n1 2\n3 6\n"
}

// A certificate of loops and one of a basis, which are those of no mesh.
fn loops() -> &'static [u8] {
    b"SURFCERT 1 loops\ncounts 2 2 2\ntree 0\n0 -\n1 0\ndual\n0 -\n1 0 1\nleft\n1 2\n3 6\n"
}

fn basis() -> &'static [u8] {
    b"\
    SURFCERT 1 basis\ncounts 2 1 1\ntree 0\n0 -\n18446744073709551615 0\ntree 1\n7 1\n0 -\ndual\n\
    0 -\nleft\n0 1\ncycles\n4294967295 0\n"
}

// How a certificate is written on a page of so many bytes: the fault, if there is one, and whether
// the whole text stands there; none where it isn't a front of the text.
fn copies(alloc: Global, text: &[u8], most: u64) -> Result<(Option<PageFault>, bool), Fail> {
    let (page, fault) = copied(alloc, text, most)?;
    if !text.starts_with(page.bytes()) {
        return Err("another text")?;
    }
    Ok((fault, page.bytes().len() == text.len()))
}

// Reads a certificate and writes it on a page of so many bytes.
fn copied(alloc: Global, text: &[u8], most: u64) -> Result<(Page, Option<PageFault>), Fail> {
    if text.len() > 10_000 {
        return Err("a long text")?;
    }
    let mut page = Page::make(alloc, most);
    let Ok(cert) = read_cert(alloc, text) else {
        return Err("a certificate")?;
    };
    let written = match cert {
        Cert::Loops(cert) => write_loop_cert(&mut page, &cert),
        Cert::Basis(cert) => write_basis_cert(&mut page, &cert),
    };
    Ok((page, written.err()))
}

#[test]
fn written_again(rt: HostRuntime) -> Result<(), Fail> {
    for text in [torus(), loops(), basis()] {
        assert_eq!(rt; copies(rt.alloc(), text, 1000)?, (None, true));
        assert_eq!(rt;
            copies(rt.alloc(), text, 50)?,
            (Some(PageFault::Full), false)
        );
    }
    Ok(())
}

// Whether there are one vertex row at base 9, one face row and one left edge.
fn has_one_of_each(cert: &LoopCert) -> bool {
    cert.tree().base() == VertexId::new(9)
        && cert.tree().distance() == [7].as_slice()
        && cert.tree().parent().len() == 1
        && cert.dual().depth() == [2].as_slice()
        && cert.dual().side().len() == 1
        && cert.left().len() == 1
}

#[test]
fn parts(rt: HostRuntime) -> Result<(), Fail> {
    let Ok(cert) = read_cert(
        rt.alloc(),
        b"SURFCERT 1 loops\ncounts 1 1 1\ntree 9\n7 3\ndual\n2 4 5\nleft\n1 6",
    ) else {
        return Err("a certificate")?;
    };
    let Cert::Loops(cert) = cert else {
        return Err("loops")?;
    };
    assert!(rt; has_one_of_each(&cert));
    Ok(())
}
