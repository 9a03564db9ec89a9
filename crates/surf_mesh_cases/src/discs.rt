//! Which meshes are discs.
use std::alloc::Global;
use std::test::Fail;
use surf_base::VertexId;
use surf_disc::{BorderKind, DiscFault, check_disc};
use surf_samples::{Faces, open, projective, soup, tetrahedron};

fn answer(alloc: Global, vertices: u32, faces: Faces) -> Result<Result<u32, DiscFault>, Fail> {
    let soup = soup(alloc, vertices, faces).ok().ok_or("room")?;
    Ok(check_disc(alloc, &soup))
}

// The tetrahedron's full cut and its trimmed one.
fn full() -> Faces {
    &[(0, 3, 4), (1, 5, 3), (2, 4, 5), (3, 5, 4)]
}

fn trimmed() -> Faces {
    &[(0, 2, 3), (1, 4, 2), (1, 3, 4), (2, 4, 3)]
}

// A ring of triangles, which has two borders.
fn band() -> Faces {
    &[
        (0, 1, 4),
        (0, 4, 3),
        (1, 2, 5),
        (1, 5, 4),
        (2, 0, 3),
        (2, 3, 5),
    ]
}

#[test]
fn discs_have_one_border(rt: HostRuntime) -> Result<(), Fail> {
    let alloc = rt.alloc();
    let closed = DiscFault::Border {
        kind: BorderKind::Nothing,
    };
    let twice = DiscFault::Border {
        kind: BorderKind::Two {
            u: VertexId::new(0),
            v: VertexId::new(1),
            s: VertexId::new(3),
            t: VertexId::new(4),
        },
    };
    let cases: [(u32, Faces, Result<u32, DiscFault>); 8] = [
        (3, &[(0, 1, 2)], Ok(3)),
        (4, open(), Ok(3)),
        (6, full(), Ok(6)),
        (5, trimmed(), Ok(4)),
        (4, tetrahedron(), Err(closed)),
        (6, projective(), Err(closed)),
        (0, &[], Err(closed)),
        (6, band(), Err(twice)),
    ];
    for (vertices, faces, want) in cases {
        assert_eq!(rt; answer(alloc, vertices, faces)?, want);
    }
    Ok(())
}
