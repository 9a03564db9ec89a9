//! Length files for a tetrahedron.
use std::alloc::Global;
use std::test::Fail;
use surf_base::EdgeId;
use surf_lengths::{LengthFault, Lengths, read_lengths, unit_lengths};
use surf_mesh::HalfMesh;
use surf_samples::{surface, tetrahedron};

// The lengths of the edges, in order, or nothing where there aren't six.
fn six(lengths: &Lengths) -> Option<[u32; 6]> {
    if lengths.count() != 6 {
        return None;
    }
    Some([
        lengths.of(EdgeId::new(0)),
        lengths.of(EdgeId::new(1)),
        lengths.of(EdgeId::new(2)),
        lengths.of(EdgeId::new(3)),
        lengths.of(EdgeId::new(4)),
        lengths.of(EdgeId::new(5)),
    ])
}

// The lengths of the six edges, in order, or the fault; `Memory` for a long text.
fn lengths_of(alloc: Global, mesh: &HalfMesh, text: &str) -> Result<[u32; 6], LengthFault> {
    if text.len() > 1_000 {
        return Err(LengthFault::Memory);
    }
    let lengths = read_lengths(alloc, text.as_bytes(), mesh)?;
    six(&lengths).ok_or(LengthFault::Memory)
}

#[test]
fn lengths_are_read(rt: HostRuntime) -> Result<(), Fail> {
    let alloc = rt.alloc();
    let cases: [(&str, [u32; 6]); 3] = [
        (
            "0 1 1\n0 2 2\n3 0 3\n2 1 4\n1 3 5\n2 3 4294967295",
            [1, 2, 3, 4, 5, 4_294_967_295],
        ),
        ("SURFLEN 2\ndefault 5\n0 1 2\n", [2, 5, 5, 5, 5, 5]),
        (
            "# c\n SURFLEN\t2 # 2\r\n\ndefault 007\n03 0002 1#\n",
            [7, 7, 7, 7, 7, 1],
        ),
    ];
    let mesh = surface(alloc, 4, tetrahedron())?;
    for (text, want) in cases {
        assert_eq!(rt; lengths_of(alloc, &mesh, text), Ok(want));
    }
    Ok(())
}

// The lengths of the six edges where all are 1.
fn all_one(alloc: Global, mesh: &HalfMesh) -> Option<[u32; 6]> {
    let lengths = unit_lengths(alloc, mesh).ok()?;
    six(&lengths)
}

#[test]
fn unit_lengths_are_one(rt: HostRuntime) -> Result<(), Fail> {
    let alloc = rt.alloc();
    let mesh = surface(alloc, 4, tetrahedron())?;
    assert_eq!(rt; all_one(alloc, &mesh), Some([1; 6]));
    Ok(())
}
