//! Lengths that are made.
use std::alloc::Global;
use std::test::Fail;
use surf_base::EdgeId;
use surf_gen::{made_lengths, torus};
use surf_mesh::HalfMesh;

// The lengths of the torus of 3 by 3.
fn lengths_of_torus(alloc: Global, scatter: u32) -> Result<Vec<u32>, Fail> {
    let soup = torus(alloc, 3, 3)?;
    let mesh = HalfMesh::build(alloc, soup)?;
    let lengths = made_lengths(alloc, &mesh, scatter)?;
    let mut values = Vec::new(alloc);
    for edge in 0..lengths.count() {
        values.push(lengths.of(EdgeId::new(edge)))?;
    }
    Ok(values)
}

#[test]
fn lengths_are_scattered(rt: HostRuntime) -> Result<(), Fail> {
    let alloc = rt.alloc();
    let scattered = [
        14u32, 21, 28, 35, 42, 49, 56, 63, 70, 77, 84, 91, 1, 8, 15, 22, 29, 36, 43, 50, 57, 64,
        71, 78, 85, 92, 2,
    ];
    for (scatter, want) in [(1, scattered), (0, [1u32; 27])] {
        assert_eq!(rt;
            lengths_of_torus(alloc, scatter)?.as_slice(),
            want.as_slice()
        );
    }
    Ok(())
}

#[test]
fn the_greatest_scatter_fits(rt: HostRuntime) -> Result<(), Fail> {
    let want = [
        55u32, 2, 46, 90, 37, 81, 28, 72, 19, 63, 10, 54, 1, 45, 89, 36, 80, 27, 71, 18, 62, 9, 53,
        97, 44, 88, 35,
    ];
    assert_eq!(rt;
        lengths_of_torus(rt.alloc(), 4_294_967_295)?.as_slice(),
        want.as_slice()
    );
    Ok(())
}
