//! Reads and writes that fail.
use crate::files::{pillow, pillow_cut};
use crate::runs::{Due, difference, difference_over, shelf_of, sink_of, status_of};
use std::alloc::Global;
use std::test::Fail;
use surf_base::{MemShelf, MemSink};

// What isn't as is due, first where a read fails and then of the same shelf once more.
fn difference_of_two(
    alloc: Global,
    line: &str,
    text: &str,
    shelf: &mut MemShelf,
    out: &mut MemSink,
    diag: &mut MemSink,
) -> Result<&'static str, Fail> {
    let (none, fault) = ("", "read fault\n");
    let failed = status_of(alloc, line, shelf, out, diag)?;
    let refusal = Due {
        status: 9,
        out: none,
        diag: fault,
    };
    let found = difference(&refusal, failed, out, diag);
    if !found.is_empty() {
        return Ok(found);
    }
    let status = status_of(alloc, line, shelf, out, diag)?;
    let answer = Due {
        status: 0,
        out: text,
        diag: fault,
    };
    Ok(difference(&answer, status, out, diag))
}

// What differs from the answers due when one call fails: as `difference_of_two` says it, over a
// shelf that gives 16 bytes a read.
fn difference_at(alloc: Global, line: &str, text: &str, call: u64) -> Result<&'static str, Fail> {
    let mut shelf = shelf_of(alloc, 16, &[call])?;
    let mut out = sink_of(alloc, 1_000, 7, &[])?;
    let mut diag = sink_of(alloc, 100, 7, &[])?;
    difference_of_two(alloc, line, text, &mut shelf, &mut out, &mut diag)
}

// The first of so many calls at which something isn't as is due, and what. That many calls are made
// and no more: where the next one would fail, nothing does.
fn first_difference(
    alloc: Global,
    line: &str,
    text: &str,
    calls: u64,
) -> Result<(u64, &'static str), Fail> {
    for call in 0..calls {
        let found = difference_at(alloc, line, text, call)?;
        if !found.is_empty() {
            return Ok((call, found));
        }
    }
    let due = Due {
        status: 0,
        out: text,
        diag: "",
    };
    let found = difference_over(alloc, line, &due, 16, 100, &[calls])?;
    Ok((calls, found))
}

// How many calls each takes: for each file one that begins it, its pieces, and one at its end.
#[test]
fn each_read_fails_once(rt: HostRuntime) -> Result<(), Fail> {
    let alloc = rt.alloc();
    let counts = "vertices 4\nedges 6\nfaces 4\ncharacteristic 2\ngenus 0\n";
    let loops = "loops 2\ntotal 191\nloop 91 0 1 2 0\nloop 100 0 3 7 2 0\n";
    let lengths = "0 1 1000\n0 2 1000\n0 3 1000\n1 2 1414\n1 3 1414\n2 3 1414\n";
    let same = "same 12 6 7 8 9 10 11 12 13 14 15 16 17\n";
    for (line, text, calls) in [
        ("info tet", counts, 7),
        ("loops torus33 L 0", loops, 30),
        ("check torus33 unit C", "valid loops 6\n", 31),
        ("lengths tet 3", lengths, 7),
        ("class torus33 W", "null 1 6\n", 19),
        ("same torus33 row other", same, 22),
        ("confirm torus33 W evidence", "valid null\n", 22),
        ("shortest torus33 unit row", "shortest 3 0 2 1 0\n", 19),
        ("sew cut", pillow(), 10),
        ("cut pillow unit 0 through ends", pillow_cut(), 8),
        ("disc cut", "disc\nborder 4\n", 10),
    ] {
        let found = first_difference(alloc, line, text, calls)?;
        assert_eq!(rt; found, (calls, ""), "{line}");
    }
    Ok(())
}

// What isn't as is due where a write of the counts of the tetrahedron would fail.
fn difference_of_write(alloc: Global, call: u64, due: &Due) -> Result<&'static str, Fail> {
    let mut shelf = shelf_of(alloc, 16, &[])?;
    let mut out = sink_of(alloc, 100, 7, &[call])?;
    let mut diag = sink_of(alloc, 100, 7, &[])?;
    let status = status_of(alloc, "info tet", &mut shelf, &mut out, &mut diag)?;
    Ok(difference(due, status, &out, &diag))
}

// The eighth write is the last that the text takes.
#[test]
fn each_write_fails_once(rt: HostRuntime) -> Result<(), Fail> {
    let alloc = rt.alloc();
    for (call, out) in [
        (0, ""),
        (1, "vertice"),
        (2, "vertices 4\nedg"),
        (3, "vertices 4\nedges 6\nfa"),
        (4, "vertices 4\nedges 6\nfaces 4\nc"),
        (5, "vertices 4\nedges 6\nfaces 4\ncharacte"),
        (6, "vertices 4\nedges 6\nfaces 4\ncharacteristic "),
        (7, "vertices 4\nedges 6\nfaces 4\ncharacteristic 2\ngenus"),
    ] {
        let due = Due {
            status: 10,
            out,
            diag: "write fault\n",
        };
        assert_eq!(rt; difference_of_write(alloc, call, &due)?, "", "at {call}");
    }
    Ok(())
}

#[test]
fn a_ninth_write_is_not_made(rt: HostRuntime) -> Result<(), Fail> {
    let due = Due {
        status: 0,
        out: "vertices 4\nedges 6\nfaces 4\ncharacteristic 2\ngenus 0\n",
        diag: "",
    };
    assert_eq!(rt; difference_of_write(rt.alloc(), 8, &due)?, "");
    Ok(())
}
