//! Edges that are paired, and the first that isn't.
use std::alloc::Global;
use std::test::Fail;
use surf_base::{FaceId, VertexId};
use surf_samples::{Faces, open, pillow, soup, tetrahedron};
use surf_soup::{PairFault, pair_edges};

// The edges, or the fault.
fn pairs(
    alloc: Global,
    vertices: u32,
    faces: &[(u32, u32, u32)],
) -> Result<Result<Vec<(VertexId, VertexId)>, PairFault>, Fail> {
    let soup = soup(alloc, vertices, faces).ok().ok_or("room")?;
    Ok(pair_edges(alloc, &soup))
}

// Whether the edges have these ends.
fn have_ends(edges: &[(VertexId, VertexId)], want: &[(u32, u32)]) -> bool {
    let mut same = edges.len() == want.len();
    for (edge, ends) in edges.iter().zip(want) {
        same = same && (edge.0.number(), edge.1.number()) == *ends;
    }
    same
}

// A tetrahedron, and two triangles back to back.
#[test]
fn edges_are_paired(rt: HostRuntime) -> Result<(), Fail> {
    let alloc = rt.alloc();
    let cases: [(u32, Faces, &[(u32, u32)]); 2] = [
        (
            4,
            tetrahedron(),
            &[(0, 1), (0, 2), (0, 3), (1, 2), (1, 3), (2, 3)],
        ),
        (3, pillow(), &[(0, 1), (0, 2), (1, 2)]),
    ];
    for (vertices, faces, want) in cases {
        let edges = pairs(alloc, vertices, faces)?.ok().ok_or("no pairs")?;
        assert!(rt; have_ends(&edges, want));
    }
    Ok(())
}

// No face, and a tetrahedron without its last face.
#[test]
fn faults_of_pairs(rt: HostRuntime) -> Result<(), Fail> {
    let alloc = rt.alloc();
    let (u, v) = (VertexId::new(1), VertexId::new(2));
    let face = FaceId::new(0);
    let cases: [(u32, Faces, PairFault); 2] = [
        (0, &[], PairFault::Empty),
        (4, open(), PairFault::Border { u, v, face }),
    ];
    for (vertices, faces, want) in cases {
        assert_eq!(rt; pairs(alloc, vertices, faces)?.err(), Some(want));
    }
    Ok(())
}
