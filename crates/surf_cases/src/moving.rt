//! Streams that move one byte a call, or none, and a shelf that isn't asked.
use crate::files::{coloured_full, torus33};
use crate::runs::{Due, difference_over};
use std::test::Fail;

#[test]
fn one_byte_at_a_time(rt: HostRuntime) -> Result<(), Fail> {
    let alloc = rt.alloc();
    let counts = "vertices 4\nedges 6\nfaces 4\ncharacteristic 2\ngenus 0\n";
    let loops = "loops 2\ntotal 6\nloop 3 0 1 2 0\nloop 3 0 3 6 0\n";
    for (line, out) in [
        ("loops torus33 unit 0", loops),
        ("info coloured", counts),
        ("cut coloured unit 0 full", coloured_full()),
    ] {
        let due = Due {
            status: 0,
            out,
            diag: "",
        };
        let found = difference_over(alloc, line, &due, 1, 10_000, &[])?;
        assert_eq!(rt; found, "", "{line}");
    }
    Ok(())
}

// A refusal of each status, with no room for its line.
#[test]
fn diagnostics_that_nobody_hears(rt: HostRuntime) -> Result<(), Fail> {
    let alloc = rt.alloc();
    for (line, status) in [
        ("info pinched", 4),
        ("info apart", 4),
        ("dist tet missing 0", 5),
        ("dist tet twice 0", 5),
        ("dist tet zero 0", 5),
        ("dist tet great 0", 5),
        ("dist tet edge 0", 5),
        ("dist tet form 0", 5),
        ("loops tet unit 4", 7),
        ("gen torus 2 3", 2),
        ("loops tet unit", 2),
        ("", 2),
        ("gen torus 1000 1001", 6),
        ("info many", 6),
        ("try chain 513 4 4 0", 6),
        ("try torus 100 201 0", 6),
        ("info row", 3),
        ("check tet unit row", 8),
        ("info nowhere", 9),
        ("lengths torus33 9", 12),
        ("class torus33 L", 13),
        ("sew torus33", 14),
    ] {
        let due = Due {
            status,
            out: "",
            diag: "",
        };
        let found = difference_over(alloc, line, &due, 4096, 0, &[])?;
        assert_eq!(rt; found, "", "{line}");
    }
    Ok(())
}

// The first call of the shelf would fail, and none is made.
#[test]
fn words_that_read_no_file(rt: HostRuntime) -> Result<(), Fail> {
    let alloc = rt.alloc();
    let usage = "usage: the words are in no row of the command table\n";
    for (line, status, out, diag) in [
        ("gen torus 2 3", 2, "", usage),
        ("loops tet unit", 2, "", usage),
        ("", 2, "", usage),
        ("gen torus 3 3", 0, torus33(), ""),
    ] {
        let due = Due { status, out, diag };
        let found = difference_over(alloc, line, &due, 4096, 100, &[0])?;
        assert_eq!(rt; found, "", "{line}");
    }
    Ok(())
}
