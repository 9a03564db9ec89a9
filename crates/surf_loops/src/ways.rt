//! Ways up a tree, and loops by them.
ghost use Rattle.std.specs.Prelude.{◌≡◌, ◌<◌, ◌++◌, ◌∷◌, slice_index, IfOk, OnOk};
ghost use Rattle.surf_graphs.specs.Loops.{way_up};
ghost use Rattle.surf_surfaces.specs.Surface.{edge_count};
ghost use Rattle.surf_surfaces.specs.Loop.{loop_walk};
ghost use Rattle.surf_surfaces.specs.Walk.{IsClosedAt};
ghost use Rattle.surf_tree.specs.Tables.{tree_of};
ghost use Rattle.surf_loops.specs.Loops.{IsRooted};

use std::alloc::Global;
use surf_base::{EdgeId, NoMemory, VertexId};
use surf_mesh::{HalfMesh, Walk};
use surf_tree::TreeDesk;

// Adds a vertex and those on its way up to the base.
fn push_way(
    mesh: &HalfMesh,
    tree: &TreeDesk,
    from: VertexId,
    list: &mut Vec<VertexId>,
) -> Result<(), NoMemory>
    requires rooted { IsRooted mesh.now tree.now }
    requires vertex { from < mesh.now.vertices }
    ensures way { OnOk result (list.new.items ≡ list.old.items ++ from ∷ way_up (tree_of tree.now)
        (slice_index tree.now.distances from) from) }
{
    mesh.law_of_surface();
    list.push(from)?;
    let mut at = from;
    while let Some(parent) = tree.parent(at) {
        list.push(parent)?;
        at = parent;
    }
    Ok(())
}

/// The loop of an edge: down a tree from its base to the lesser end, over the edge, and up to the
/// base again.
pub(crate) fn walk_of(
    alloc: Global,
    mesh: &HalfMesh,
    tree: &TreeDesk,
    edge: EdgeId,
) -> Result<Walk, NoMemory>
    requires rooted { IsRooted mesh.now tree.now }
    requires edge { edge < edge_count mesh.now }
    ensures walk { IfOk result (λ walk. walk ≡ loop_walk mesh.now (tree_of tree.now) edge) }
    ensures closed { IfOk result (λ walk. IsClosedAt mesh.now tree.now.base walk) }
{
    surf_surfaces::law_of_loop_walks();
    mesh.law_of_surface();
    let (u, v) = mesh.ends(edge);
    let mut list = Vec::new(alloc);
    push_way(mesh, tree, u, &mut list)?;
    list.reverse();
    push_way(mesh, tree, v, &mut list)?;
    Ok(Walk::from_vertices(list))
}
