//! The soup and the surface of a table of faces.
use std::alloc::Global;
use surf_base::{NoMemory, VertexId};
use surf_check::check;
use surf_mesh::HalfMesh;
use surf_soup::Soup;

fn push(soup: &mut Soup, a: u32, b: u32, c: u32) -> Result<(), NoMemory> {
    let n = soup.vertices();
    let few = soup.side_count() < 1_000_000;
    if few && a < n && b < n && c < n && a != b && b != c && a != c {
        soup.push_face(&[VertexId::new(a), VertexId::new(b), VertexId::new(c)])?;
    }
    Ok(())
}

/// The soup of so many vertices with the triangles of a table, in its order. A triple that is no
/// face of these vertices is left out.
pub fn soup(alloc: Global, vertices: u32, faces: &[(u32, u32, u32)]) -> Result<Soup, NoMemory> {
    let mut soup = Soup::start(alloc, vertices);
    for (a, b, c) in faces {
        push(&mut soup, *a, *b, *c)?;
    }
    Ok(soup)
}

/// The surface that they are, or in a word why there is none.
pub fn surface(
    alloc: Global,
    vertices: u32,
    faces: &[(u32, u32, u32)],
) -> Result<HalfMesh, &'static str> {
    let Ok(soup) = soup(alloc, vertices, faces) else {
        return Err("no room");
    };
    match check(alloc, soup) {
        Ok(mesh) => Ok(mesh),
        Err(_) => Err("no surface"),
    }
}
