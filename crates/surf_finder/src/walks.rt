//! The walks of loops.
ghost use Rattle.std.specs.Prelude.{◌≡◌, ◌<◌, ◌≤◌, [], All, IsTrue, IfOk, OnOk, length, replicate};
ghost use Rattle.surf_surfaces.specs.Surface.{edge_count, ends};
ghost use Rattle.surf_near.specs.Near.{is_near};
ghost use Rattle.surf_finder.specs.Walks.{AddsWay, AreWritten, HasReachedEnds, IsLoopWalk};
ghost use Rattle.surf_finder.specs.Ways.{IsReached};

use std::alloc::Global;
use surf_base::{EdgeId, NoMemory, VertexId};
use surf_choice::Signed;
use surf_mesh::{HalfMesh, Walk};
use surf_near::{Links, NearDesk};

// Adds a vertex that a search reached, and those on its way up to the base.
fn push_way(
    mesh: &HalfMesh,
    links: &Links<'_>,
    desk: &NearDesk,
    from: VertexId,
    list: &mut Vec<VertexId>,
) -> Result<(), NoMemory>
    requires links { links.now.mesh ≡ mesh.now }
    requires base { desk.now.base < mesh.now.vertices }
    requires reached { IsReached mesh.now links.now.lengths desk.now.base
        desk.now }
    requires vertex { from < mesh.now.vertices }
    requires near { IsTrue (is_near desk.now from) }
    ensures way { OnOk result (AddsWay mesh.now links.now.lengths desk.now.base
        from list.old.items list.new.items) }
{
    mesh.law_of_surface();
    links.law_of_links();
    list.push(from)?;
    let mut at = from;
    while at != desk.base() {
        at = desk.parent(at);
        list.push(at)?;
    }
    Ok(())
}

// The loop of an edge between vertices that a search reached.
fn loop_walk(
    alloc: Global,
    mesh: &HalfMesh,
    links: &Links<'_>,
    desk: &NearDesk,
    edge: EdgeId,
) -> Result<Walk, NoMemory>
    requires links { links.now.mesh ≡ mesh.now }
    requires base { desk.now.base < mesh.now.vertices }
    requires reached { IsReached mesh.now links.now.lengths desk.now.base
        desk.now }
    requires edge { edge < edge_count mesh.now }
    requires between { IsTrue (is_near desk.now (ends mesh.now edge).0) × IsTrue
        (is_near desk.now (ends mesh.now edge).1) }
    ensures walk { IfOk result (IsLoopWalk mesh.now links.now.lengths
        desk.now.base edge) }
{
    mesh.law_of_surface();
    links.law_of_links();
    let (u, v) = mesh.ends(edge);
    let mut list = Vec::new(alloc);
    push_way(mesh, links, desk, u, &mut list)?;
    list.reverse();
    push_way(mesh, links, desk, v, &mut list)?;
    Ok(Walk::from_vertices(list))
}

/// A list of walks without vertices, of a given length.
pub fn no_walks(alloc: Global, count: usize) -> Result<Vec<Walk>, NoMemory>
    ensures none { IfOk result (λ walks. walks.items ≡ replicate count []) }
{
    let mut walks = Vec::with_capacity(alloc, count)?;
    for _ in 0..count {
        walks.push(Walk::from_vertices(Vec::new(alloc)))?;
    }
    Ok(walks)
}

// The greatest length of those candidates that are at a base, and 0 where there is none.
pub(crate) fn greatest_at(kept: &[Signed], base: VertexId) -> u64
    ensures greatest { All (λ s. s.candidate.base ≡ base → s.candidate.length ≤ result) kept.now }
{
    let mut greatest = 0;
    for signed in kept {
        if signed.candidate.base == base {
            greatest = greatest.max(signed.candidate.length);
        }
    }
    greatest
}

// Writes the walks of the loops of those candidates that are at the base of a search, each at its
// place.
pub(crate) fn write_walks(
    alloc: Global,
    mesh: &HalfMesh,
    links: &Links<'_>,
    desk: &NearDesk,
    kept: &[Signed],
    walks: &mut [Walk],
) -> Result<(), NoMemory>
    requires links { links.now.mesh ≡ mesh.now }
    requires base { desk.now.base < mesh.now.vertices }
    requires reached { IsReached mesh.now links.now.lengths desk.now.base
        desk.now }
    requires ends { All (λ s. s.candidate.base ≡ desk.now.base →
        HasReachedEnds mesh.now desk.now s.candidate.edge) kept.now }
    requires count { length walks.old ≡ length kept.now }
    ensures written { OnOk result (AreWritten mesh.now links.now.lengths kept.now desk.now.base
        (length kept.now) walks.old walks.new) }
    ensures count { length walks.new ≡ length walks.old }
{
    for k in 0..kept.len() {
        let candidate = kept[k].candidate;
        if candidate.base == desk.base() {
            let walk = loop_walk(alloc, mesh, links, desk, candidate.edge)?;
            walks[k] = walk;
        }
    }
    Ok(())
}
