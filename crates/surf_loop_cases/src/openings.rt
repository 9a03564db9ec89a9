//! Openings along what the tree of faces beside the shortest walks from vertex 0 leaves, each edge
//! of length 1.
ghost use Rattle.std.specs.Prelude.{◌≡◌, ◌<◌, length};
ghost use Rattle.surf_surfaces.specs.Surface.{edge_count};
ghost use Rattle.surf_cutter.specs.Opened.{IsHeld};

use crate::loops::loops_at;
use std::alloc::Global;
use std::test::Fail;
use surf_base::{CopyId, FaceId, NoMemory, SideId, VertexId};
use surf_cotree::CotreeDesk;
use surf_cutter::{Opened, cut_full, cut_through, cut_trim};
use surf_mesh::HalfMesh;
use surf_samples::{Faces, pillow, projective, surface, tetrahedron, torus};

// What is cut.
#[derive(Clone, Copy, PartialEq, Eq)]
enum Sample {
    Pillow,
    Tetrahedron,
    Projective,
    Torus,
}

fn vertices_of(sample: Sample) -> u32 {
    match sample {
        Sample::Pillow => 3,
        Sample::Tetrahedron => 4,
        Sample::Projective => 6,
        Sample::Torus => 9,
    }
}

fn faces_of(sample: Sample) -> Faces {
    match sample {
        Sample::Pillow => pillow(),
        Sample::Tetrahedron => tetrahedron(),
        Sample::Projective => projective(),
        Sample::Torus => torus(),
    }
}

// How far a surface is cut.
#[derive(Clone, Copy, PartialEq, Eq)]
enum Cut {
    Full,
    Trimmed,
    // Through the vertices 1 and 2.
    Through,
}

// What an opened surface is to be.
#[derive(Clone, Copy)]
struct Want {
    origins: &'static [u32],
    faces: &'static [(u32, u32, u32)],
    edges: u32,
    boundary: &'static [u32],
}

fn open_through(alloc: Global, mesh: &HalfMesh, cotree: &CotreeDesk) -> Result<Opened, NoMemory>
    requires size { length cotree.now.held ≡ edge_count mesh.now }
    requires held { IsHeld mesh.now cotree.now.held }
{
    if mesh.vertices() < 3 {
        return Err(NoMemory);
    }
    match cut_through(alloc, mesh, cotree, &[VertexId::new(1), VertexId::new(2)]) {
        Ok(opened) => Ok(opened),
        Err(_) => Err(NoMemory),
    }
}

fn open_along(
    alloc: Global,
    mesh: &HalfMesh,
    cotree: &CotreeDesk,
    cut: Cut,
) -> Result<Opened, NoMemory>
    requires size { length cotree.now.held ≡ edge_count mesh.now }
    requires held { IsHeld mesh.now cotree.now.held }
{
    match cut {
        Cut::Full => cut_full(alloc, mesh, cotree),
        Cut::Trimmed => cut_trim(alloc, mesh, cotree),
        Cut::Through => open_through(alloc, mesh, cotree),
    }
}

// The surface cut open at the loops at a vertex.
fn open_at(alloc: Global, mesh: &HalfMesh, base: VertexId, cut: Cut) -> Result<Opened, NoMemory>
    requires { base < mesh.now.vertices }
{
    mesh.law_of_surface();
    let desk = loops_at(alloc, mesh, base)?;
    open_along(alloc, mesh, desk.cotree(), cut)
}

// The surface cut open at the loops at vertex 0, where there is one and memory suffices.
fn open_at_zero(alloc: Global, mesh: &HalfMesh, cut: Cut) -> Option<Opened> {
    if mesh.vertices() == 0 {
        return None;
    }
    open_at(alloc, mesh, VertexId::new(0), cut).ok()
}

fn open(alloc: Global, sample: Sample, cut: Cut) -> Result<Opened, Fail> {
    let mesh = surface(alloc, vertices_of(sample), faces_of(sample))?;
    Ok(open_at_zero(alloc, &mesh, cut).ok_or("an opening")?)
}

// Whether the copies are of the wanted vertices, one by one and in the table.
fn origins_are(opened: &Opened, want: &[u32]) -> bool {
    let origins = opened.origins();
    let mut same = origins.len() == want.len();
    let mut copy = 0;
    for v in want {
        if copy < 1_000 && (copy as usize) < origins.len() {
            let origin = opened.origin(CopyId::new(copy));
            same = same && origin.number() == *v && origins[copy as usize] == origin;
            copy += 1;
        } else {
            same = false;
        }
    }
    same
}

fn sides_are(sides: &[SideId], want: &[u32]) -> bool {
    let mut same = sides.len() == want.len();
    for (side, s) in sides.iter().zip(want) {
        same = same && side.number() == *s;
    }
    same
}

fn is_row(row: &[CopyId], a: u32, b: u32, c: u32) -> bool {
    row.len() == 3 && row[0].number() == a && row[1].number() == b && row[2].number() == c
}

// Whether there are as many faces as wanted, with the wanted copies.
fn faces_are(opened: &Opened, want: &[(u32, u32, u32)]) -> bool {
    let count = opened.starts().len();
    let mut same = count == want.len() + 1;
    let mut f = 0;
    for (a, b, c) in want {
        if f < 1_000 && (f as usize) + 1 < count {
            same = same && is_row(opened.face(FaceId::new(f)), *a, *b, *c);
            f += 1;
        } else {
            same = false;
        }
    }
    same
}

// What differs from what is wanted, or nothing.
fn difference(opened: &Opened, want: &Want) -> &'static str {
    if !origins_are(opened, want.origins) {
        return "origins";
    }
    if !faces_are(opened, want.faces) {
        return "faces";
    }
    if opened.edges() != want.edges {
        return "edges";
    }
    if !sides_are(opened.boundary(), want.boundary) {
        return "boundary";
    }
    ""
}

// A tetrahedron along the star of its tree.
fn star() -> Want {
    Want {
        origins: &[0, 0, 0, 1, 2, 3],
        faces: &[(0, 3, 4), (1, 5, 3), (2, 4, 5), (3, 5, 4)],
        edges: 9,
        boundary: &[0, 5, 3, 8, 6, 2],
    }
}

// A tetrahedron along the star of its tree, where the greatest leaf, 3, loses its edge.
fn trimmed_star() -> Want {
    Want {
        origins: &[0, 0, 1, 2, 3],
        faces: &[(0, 2, 3), (1, 4, 2), (1, 3, 4), (2, 4, 3)],
        edges: 8,
        boundary: &[0, 5, 6, 2],
    }
}

// A pillow along two edges.
fn two_edges() -> Want {
    Want {
        origins: &[0, 0, 1, 2],
        faces: &[(0, 2, 3), (1, 3, 2)],
        edges: 5,
        boundary: &[0, 5, 3, 2],
    }
}

// A projective plane along one loop.
fn one_loop() -> Want {
    Want {
        origins: &[0, 0, 1, 1, 2, 3, 3, 4, 5],
        faces: &[
            (0, 2, 4),
            (0, 4, 5),
            (1, 6, 7),
            (1, 7, 8),
            (1, 3, 8),
            (2, 4, 7),
            (4, 5, 8),
            (2, 6, 7),
            (4, 7, 8),
            (3, 5, 8),
        ],
        edges: 18,
        boundary: &[0, 21, 6, 12, 27, 5],
    }
}

// A torus along two loops.
fn two_loops() -> Want {
    Want {
        origins: &[0, 0, 0, 0, 1, 1, 2, 2, 3, 3, 4, 5, 6, 6, 7, 8],
        faces: &[
            (0, 8, 10),
            (0, 10, 4),
            (4, 10, 11),
            (4, 11, 6),
            (6, 11, 9),
            (6, 9, 1),
            (8, 12, 14),
            (8, 14, 10),
            (10, 14, 15),
            (10, 15, 11),
            (11, 15, 13),
            (11, 13, 9),
            (12, 2, 5),
            (12, 5, 14),
            (14, 5, 7),
            (14, 7, 15),
            (15, 7, 3),
            (15, 3, 13),
        ],
        edges: 33,
        boundary: &[0, 18, 36, 37, 43, 49, 52, 34, 16, 17, 11, 5],
    }
}

// What is wanted of a sample that is cut so far.
fn wanted(sample: Sample, cut: Cut) -> Want {
    match (sample, cut) {
        (Sample::Pillow, _) => two_edges(),
        (Sample::Tetrahedron, Cut::Full) => star(),
        (Sample::Tetrahedron, Cut::Trimmed | Cut::Through) => trimmed_star(),
        (Sample::Projective, _) => one_loop(),
        (Sample::Torus, _) => two_loops(),
    }
}

#[test]
fn surfaces_open_along_trees_and_loops(rt: HostRuntime) -> Result<(), Fail> {
    let alloc = rt.alloc();
    for (sample, cut) in [
        (Sample::Tetrahedron, Cut::Full),
        (Sample::Tetrahedron, Cut::Trimmed),
        (Sample::Tetrahedron, Cut::Through),
        (Sample::Pillow, Cut::Full),
        (Sample::Pillow, Cut::Trimmed),
        (Sample::Projective, Cut::Trimmed),
        (Sample::Torus, Cut::Trimmed),
    ] {
        let opened = open(alloc, sample, cut)?;
        assert_eq!(rt; difference(&opened, &wanted(sample, cut)), "");
    }
    Ok(())
}
