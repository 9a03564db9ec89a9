//! The shortest walk that is chosen in a class.
ghost use Rattle.std.specs.Prelude.{◌≡◌, ◌<◌, [], ◌∷◌, length, IfOk};
ghost use Rattle.surf_surfaces.specs.Surface.{edge_count};
ghost use Rattle.surf_surfaces.specs.Walk.{IsClosed};
ghost use Rattle.surf_cover.specs.Tables.{IsSmall};
ghost use Rattle.surf_cover.specs.Grown.{IsSigned};
ghost use Rattle.surf_cover.specs.Starts.{IsLeastInClass};

use crate::desk::CoverDesk;
use crate::rounds::least_start;
use crate::signs::walk_sign;
use std::alloc::Global;
use surf_base::{NoMemory, VertexId};
use surf_cotree::CotreeDesk;
use surf_lengths::Lengths;
use surf_mesh::{HalfMesh, Walk};

/// A shortest walk of a class, and its length.
#[derive(Drop)]
pub struct ClassWalk {
    pub length: u64,
    pub walk: Walk,
}

// The walk of vertex 0 alone.
fn vertex_alone(alloc: Global) -> Result<Walk, NoMemory>
    ensures alone { IfOk result (λ w. w ≡ 0 ∷ []) }
{
    let mut list = Vec::new(alloc);
    list.push(VertexId::new(0))?;
    Ok(Walk::from_vertices(list))
}

/// The walk that is chosen among the shortest closed walks in the class of a closed walk, and its
/// length. It begins at the least vertex at which a shortest one begins. Its other vertices are
/// chosen from the end backwards: each is the least that stands just before the part after it on a
/// shortest one that begins there and ends with that part. The tree of faces must have been grown
/// on the mesh and signed; the answer is the same for each.
pub fn least_in_class(
    alloc: Global,
    mesh: &HalfMesh,
    lengths: &Lengths,
    cotree: &CotreeDesk,
    walk: &Walk,
) -> Result<ClassWalk, NoMemory>
    requires small { IsSmall mesh.now }
    requires signed { IsSigned mesh.now cotree.now }
    requires lengths { length lengths.now ≡ edge_count mesh.now }
    requires closed { IsClosed mesh.now walk.now }
    ensures least { IfOk result (IsLeastInClass mesh.now lengths.now walk.now) }
{
    mesh.law_of_surface();
    lengths.law_of_lengths();
    let set = walk_sign(mesh, cotree, walk.vertices());
    if set == 0 {
        let walk = vertex_alone(alloc)?;
        return Ok(ClassWalk { length: 0, walk });
    }
    let mut desk = CoverDesk::make(alloc, mesh)?;
    let start = least_start(&mut desk, mesh, lengths, cotree, set);
    desk.grow(mesh, lengths, cotree, start.vertex);
    let mut list = desk.round(alloc, mesh, lengths, start.vertex, set)?;
    list.reverse();
    let walk = Walk::from_vertices(list);
    Ok(ClassWalk {
        length: start.length,
        walk,
    })
}
