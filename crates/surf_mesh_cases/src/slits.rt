//! A tetrahedron that is slit along its edges.
ghost use Rattle.std.specs.Prelude.{◌≡◌};

use std::alloc::Global;
use std::test::Fail;
use surf_base::{SideId, VertexId};
use surf_mesh::HalfMesh;
use surf_samples::{surface, tetrahedron};
use surf_slit::Slit;

// Cuts the edge between vertex 0 and another one, and says whether that was new.
fn cut_from_zero(mesh: &HalfMesh, slit: &mut Slit, v: u32) -> Option<bool>
    requires { slit.old.mesh ≡ mesh.now }
    ensures { slit.new.mesh ≡ mesh.now }
{
    let e = mesh.find_edge(VertexId::new(0), VertexId::new(v))?;
    let was_cut = slit.is_cut(e);
    if !was_cut {
        slit.cut_edge(e);
    }
    Some(!was_cut && slit.is_cut(e))
}

// Whether three cuts from vertex 0 are new, with the number of labels after each.
fn three_cuts(alloc: Global, mesh: &HalfMesh) -> Option<[(bool, u32); 3]> {
    let mut slit = Slit::start(alloc, mesh).ok()?;
    let first = (cut_from_zero(mesh, &mut slit, 1)?, slit.labels());
    let second = (cut_from_zero(mesh, &mut slit, 2)?, slit.labels());
    let third = (cut_from_zero(mesh, &mut slit, 3)?, slit.labels());
    Some([first, second, third])
}

#[test]
fn each_cut_after_the_first_at_a_vertex_splits_it(rt: HostRuntime) -> Result<(), Fail> {
    let alloc = rt.alloc();
    let mesh = surface(alloc, 4, tetrahedron())?;
    let want = [(true, 4), (true, 5), (true, 6)];
    assert_eq!(rt; three_cuts(alloc, &mesh), Some(want));
    Ok(())
}

// How many edges, sides and, before any cut, labels there are.
fn counts(alloc: Global, mesh: &HalfMesh) -> Option<(u32, u32, u32)> {
    let slit = Slit::start(alloc, mesh).ok()?;
    Some((mesh.edges(), mesh.side_count(), slit.labels()))
}

#[test]
fn nothing_is_cut_at_first(rt: HostRuntime) -> Result<(), Fail> {
    let alloc = rt.alloc();
    let mesh = surface(alloc, 4, tetrahedron())?;
    assert_eq!(rt; counts(alloc, &mesh), Some((6, 12, 4)));
    Ok(())
}

// How many labels there are when all edges at vertex 0 are cut, and whether its three corners have
// different ones.
fn all_cut(alloc: Global, mesh: &HalfMesh) -> Option<(u32, bool)> {
    let flags = [true, true, true, false, false, false];
    if mesh.edges() != 6 || mesh.side_count() != 12 {
        return None;
    }
    let slit = Slit::along(alloc, mesh, &flags).ok()?;
    let first = slit.label(SideId::new(0));
    let second = slit.label(SideId::new(3));
    let third = slit.label(SideId::new(6));
    let differ = first != second && first != third && second != third;
    Some((slit.labels(), differ))
}

#[test]
fn all_edges_at_a_vertex_cut_at_once(rt: HostRuntime) -> Result<(), Fail> {
    let alloc = rt.alloc();
    let mesh = surface(alloc, 4, tetrahedron())?;
    assert_eq!(rt; all_cut(alloc, &mesh), Some((6, true)));
    Ok(())
}
