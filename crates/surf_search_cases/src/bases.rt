//! Bases and shortest cycles of small surfaces, worked out by hand.
ghost use Rattle.std.specs.Prelude.{◌≡◌, ◌≤◌, ◌+◌, IsTrue, length};
ghost use Rattle.surf_surfaces.specs.Surface.{edge_count, face_count};

use std::alloc::Global;
use std::test::Fail;
use surf_basis::{Cycle, least_basis, least_nonseparating};
use surf_lengths::{Lengths, read_lengths};
use surf_mesh::HalfMesh;
use surf_samples::{Faces, projective, scattered, seven, surface, tetrahedron, torus, unit};

/// The lengths and walks of a basis.
type Cycles = &'static [(u64, &'static [u32])];

// Whether a cycle has a length and some vertices, the first of which is its base.
fn is_cycle(cycle: &Cycle, length: u64, walk: &[u32]) -> bool {
    let vertices = cycle.walk.vertices();
    let mut same = cycle.length == length && vertices.len() == walk.len();
    for (vertex, wanted) in vertices.iter().zip(walk) {
        same = same && vertex.number() == *wanted;
    }
    same && walk.len() > 0 && cycle.base.number() == walk[0]
}

fn are_cycles(cycles: &[Cycle], wanted: &[(u64, &[u32])]) -> bool {
    let mut same = cycles.len() == wanted.len();
    for (cycle, (length, walk)) in cycles.iter().zip(wanted) {
        same = same && is_cycle(cycle, *length, walk);
    }
    same
}

// Whether the lengths are of the mesh, which isn't too wild for a basis.
fn fit(mesh: &HalfMesh, lengths: &Lengths) -> bool
    ensures lengths { IsTrue result → length lengths.now ≡ edge_count mesh.now }
    ensures few { IsTrue result → edge_count mesh.now + 2
        ≤ mesh.now.vertices + face_count mesh.now + 1024 }
{
    let nodes = mesh.vertices() as u64 + mesh.faces() as u64;
    lengths.count() == mesh.edges() && mesh.edges() as u64 + 2 <= nodes + 1024
}

// Whether the cycles are the basis of the mesh, and the first of them its shortest cycle.
fn has_basis(alloc: Global, mesh: &HalfMesh, lengths: &Lengths, wanted: &[(u64, &[u32])]) -> bool {
    if !fit(mesh, lengths) {
        return false;
    }
    match least_basis(alloc, mesh, lengths) {
        Ok(basis) => are_cycles(&basis, wanted),
        Err(_) => false,
    }
}

fn has_first(alloc: Global, mesh: &HalfMesh, lengths: &Lengths, wanted: &[(u64, &[u32])]) -> bool {
    if !fit(mesh, lengths) {
        return false;
    }
    match (least_nonseparating(alloc, mesh, lengths), wanted) {
        (Ok(Some(cycle)), [(length, walk), ..]) => is_cycle(&cycle, *length, walk),
        (Ok(None), []) => true,
        _ => false,
    }
}

// Whether the basis and the shortest cycle of a surface, with the lengths of a text, are as they
// should be.
fn answers(alloc: Global, mesh: &HalfMesh, text: &str, wanted: Cycles) -> Option<bool> {
    if text.len() > 1_000 {
        return None;
    }
    let lengths = read_lengths(alloc, text.as_bytes(), mesh).ok()?;
    Some(has_basis(alloc, mesh, &lengths, wanted) && has_first(alloc, mesh, &lengths, wanted))
}

#[test]
fn bases_of_small_surfaces(rt: HostRuntime) -> Result<(), Fail> {
    let alloc = rt.alloc();
    let cases: [(u32, Faces, &str, Cycles); 5] = [
        (4, tetrahedron(), unit(), &[]),
        (6, projective(), unit(), &[(3, &[0, 1, 3, 0])]),
        (
            7,
            seven(),
            unit(),
            &[(3, &[0, 1, 2, 0]), (3, &[0, 1, 4, 0])],
        ),
        (
            9,
            torus(),
            unit(),
            &[(3, &[0, 1, 2, 0]), (3, &[0, 3, 6, 0])],
        ),
        (
            9,
            torus(),
            scattered(),
            &[(81, &[2, 5, 3, 7, 2]), (89, &[2, 5, 8, 7, 2])],
        ),
    ];
    for (vertices, faces, text, wanted) in cases {
        let mesh = surface(alloc, vertices, faces)?;
        assert_eq!(rt; answers(alloc, &mesh, text, wanted), Some(true));
    }
    Ok(())
}
