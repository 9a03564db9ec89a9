//! What is found for small surfaces passes the checker, with the total that was worked out by hand.
ghost use Rattle.std.specs.Prelude.{◌≡◌, ◌≤◌, ◌+◌, IsTrue, length};
ghost use Rattle.surf_surfaces.specs.Surface.{edge_count, face_count};

use std::alloc::Global;
use std::test::Fail;
use surf_check::check;
use surf_lengths::{Lengths, read_lengths};
use surf_mesh::HalfMesh;
use surf_off::read_soup;
use surf_samples::{
    Faces, pillow, projective, scattered, seven, surface, tetrahedron, torus, unit,
};
use surf_sheetcheck::check_sheets;
use surf_sheetfind::sheet_cert;

/// The Klein bottle of three rows and three columns of vertices, numbered row by row, whose rows are
/// turned round where the last meets the first, with two triangles in each cell.
const KLEIN: [(u32, u32, u32); 18] = [
    (0, 3, 1),
    (3, 4, 1),
    (1, 4, 2),
    (4, 5, 2),
    (2, 5, 0),
    (5, 3, 0),
    (3, 6, 4),
    (6, 7, 4),
    (4, 7, 5),
    (7, 8, 5),
    (5, 8, 3),
    (8, 6, 3),
    (6, 0, 7),
    (0, 2, 7),
    (7, 2, 8),
    (2, 1, 8),
    (8, 1, 6),
    (1, 0, 6),
];

// Whether the lengths are of the mesh, which isn't too wild for a basis.
fn fit(mesh: &HalfMesh, lengths: &Lengths) -> bool
    ensures lengths { IsTrue result → length lengths.now ≡ edge_count mesh.now }
    ensures few { IsTrue result → edge_count mesh.now + 2
        ≤ mesh.now.vertices + face_count mesh.now + 1024 }
{
    let nodes = mesh.vertices() as u64 + mesh.faces() as u64;
    lengths.count() == mesh.edges() && mesh.edges() as u64 + 2 <= nodes + 1024
}

// How many cycles the certificate that is found has, and the total that the checker gives for it.
fn judged(alloc: Global, mesh: &HalfMesh, text: &str) -> Option<(usize, u128)> {
    if text.len() > 1_000 {
        return None;
    }
    let lengths = read_lengths(alloc, text.as_bytes(), mesh).ok()?;
    if !fit(mesh, &lengths) {
        return None;
    }
    let cert = sheet_cert(alloc, mesh, &lengths).ok()?;
    let total = check_sheets(alloc, mesh, &lengths, &cert).ok()?;
    Some((cert.cycles().len(), total))
}

#[test]
fn sheets_of_small_surfaces(rt: HostRuntime) -> Result<(), Fail> {
    let alloc = rt.alloc();
    let cases: [(u32, Faces, &str, (usize, u128)); 7] = [
        (3, pillow(), unit(), (0, 0)),
        (4, tetrahedron(), unit(), (0, 0)),
        (6, projective(), unit(), (1, 3)),
        (7, seven(), unit(), (2, 6)),
        (9, torus(), unit(), (2, 6)),
        (9, torus(), scattered(), (2, 170)),
        (9, &KLEIN, unit(), (2, 6)),
    ];
    for (vertices, faces, text, wanted) in cases {
        let mesh = surface(alloc, vertices, faces)?;
        assert_eq!(rt; judged(alloc, &mesh, text), Some(wanted));
    }
    Ok(())
}

/// The torus of three rows and three columns of vertices, with one quadrangle in each cell.
const CELLS: &str = "OFF\n9 9 0\n0 0 0\n0 0 0\n0 0 0\n0 0 0\n0 0 0\n0 0 0\n0 0 0\n0 0 0\n0 0 0\n\
    4 0 1 4 3\n4 1 2 5 4\n4 2 0 3 5\n4 3 4 7 6\n4 4 5 8 7\n4 5 3 6 8\n4 6 7 1 0\n4 7 8 2 1\n\
    4 8 6 0 2\n";

// What comes of the surface of an OFF text.
fn judged_text(alloc: Global, text: &str) -> Option<(usize, u128)> {
    if text.len() > 1_000 {
        return None;
    }
    let soup = read_soup(alloc, text.as_bytes()).ok()?;
    let mesh = check(alloc, soup).ok()?;
    judged(alloc, &mesh, unit())
}

#[test]
fn sheets_of_polygons(rt: HostRuntime) -> Result<(), Fail> {
    assert_eq!(rt; judged_text(rt.alloc(), CELLS), Some((2, 6)));
    Ok(())
}
