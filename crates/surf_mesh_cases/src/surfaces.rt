//! Turnings of surfaces, chains that show that there is none, and rings.
use std::alloc::Global;
use std::test::Fail;
use surf_base::{FaceId, SideId, VertexId};
use surf_check::{Chain, ChainLink, Sides, orient};
use surf_mesh::HalfMesh;
use surf_samples::{Faces, projective, surface, tetrahedron};

// Whether a triangle runs from `u` to `v`; none where it has no such side.
fn runs(face: (u32, u32, u32), u: u32, v: u32) -> Option<bool> {
    let (a, b, c) = face;
    let sides = [(a, b), (b, c), (c, a)];
    if sides.contains(&(u, v)) {
        Some(true)
    } else if sides.contains(&(v, u)) {
        Some(false)
    } else {
        None
    }
}

// Whether the face of a link and the next one run the edge between them the same way; none where
// they don't share it.
fn runs_as(faces: Faces, link: ChainLink, next: FaceId) -> Option<bool> {
    let (u, v) = (link.u.number(), link.v.number());
    let here = runs(*faces.get(link.face.index())?, u, v)?;
    let there = runs(*faces.get(next.index())?, u, v)?;
    Some(here == there)
}

// Whether an odd number of links of a chain are run the same way; none where two that follow one
// another share no edge.
fn is_odd(faces: Faces, chain: &Chain) -> Option<bool> {
    let mut odd = false;
    let mut before = chain.links().last().copied();
    for link in chain.links() {
        odd = odd != runs_as(faces, before?, link.face)?;
        before = Some(*link);
    }
    Some(odd)
}

// Whether the chain that shows that a surface has one side passes an odd number of links that are
// run the same way; none where a surface has two sides.
fn has_odd_chain(alloc: Global, mesh: &HalfMesh, faces: Faces) -> Option<bool> {
    match orient(alloc, mesh).ok()? {
        Sides::Two(_) => None,
        Sides::One(chain) => is_odd(faces, &chain),
    }
}

#[test]
fn a_chain_shows_that_there_is_one_side(rt: HostRuntime) -> Result<(), Fail> {
    let alloc = rt.alloc();
    let mesh = surface(alloc, 6, projective())?;
    assert_eq!(rt; has_odd_chain(alloc, &mesh, projective()), Some(true));
    Ok(())
}

// Whether all flags of a surface with two sides are the same, and as many as there are faces.
fn has_even_flags(alloc: Global, mesh: &HalfMesh) -> Option<bool> {
    match orient(alloc, mesh).ok()? {
        Sides::Two(turning) => {
            let flags = turning.flags();
            let first = *flags.first()?;
            Some(flags.len() == mesh.faces() as usize && flags.iter().all(|flag| *flag == first))
        }
        Sides::One(_) => None,
    }
}

// No face of the tetrahedron is to be turned over, or all are.
#[test]
fn an_orientation_has_a_flag_for_each_face(rt: HostRuntime) -> Result<(), Fail> {
    let alloc = rt.alloc();
    let mesh = surface(alloc, 4, tetrahedron())?;
    assert_eq!(rt; has_even_flags(alloc, &mesh), Some(true));
    Ok(())
}

// The sides at a vertex that has three, in the order round it, with the edges that go with them.
fn ring(mesh: &HalfMesh, v: u32) -> Option<([u32; 3], [u32; 3])> {
    if v >= mesh.vertices() {
        return None;
    }
    match mesh.round(VertexId::new(v)) {
        ([a, b, c], [d, e, f]) => Some((
            [a.number(), b.number(), c.number()],
            [d.number(), e.number(), f.number()],
        )),
        _ => None,
    }
}

// The corner of vertex 0 in face 0 has the edge to 2 before it, which leads to face 2.
#[test]
fn a_tetrahedron_has_rings(rt: HostRuntime) -> Result<(), Fail> {
    let mesh = surface(rt.alloc(), 4, tetrahedron())?;
    assert_eq!(rt; ring(&mesh, 0), Some(([0, 6, 3], [1, 2, 0])));
    Ok(())
}

// The edge between two vertices.
fn edge(mesh: &HalfMesh, u: u32, v: u32) -> Option<u32> {
    let found = mesh.find_edge(VertexId::new(u), VertexId::new(v))?;
    Some(found.number())
}

// The mate of a side.
fn mate(mesh: &HalfMesh, s: u32) -> Option<u32> {
    if s >= mesh.side_count() {
        return None;
    }
    Some(mesh.mate(SideId::new(s)).number())
}

#[test]
fn edges_and_mates_have_numbers(rt: HostRuntime) -> Result<(), Fail> {
    let mesh = surface(rt.alloc(), 4, tetrahedron())?;
    let numbers = [
        edge(&mesh, 0, 1),
        edge(&mesh, 3, 2),
        edge(&mesh, 2, 2),
        mate(&mesh, 7),
    ];
    assert_eq!(rt; numbers, [Some(0), Some(5), None, Some(10)]);
    Ok(())
}
