//! The vertices from which the loops of a basis are searched.
ghost use Rattle.std.specs.Prelude.{◌≡◌, ◌<◌, ℕ, All, IfOk, length};
ghost use Rattle.surf_surfaces.specs.FewBases.{MeetsAll};
ghost use Rattle.surf_surfaces.specs.Mesh.{Mesh};
ghost use Rattle.surf_surfaces.specs.Surface.{edge_count};
ghost use Rattle.surf_tree.specs.Tables.{tree_of};
ghost use Rattle.surf_loops.specs.Loops.{IsRooted};
ghost use Rattle.surf_basis.specs.Cut.{AreCutVertices, AreToSearch, IsLeastSet, HasEnds, HasVertex, IsClosedUpward, IsDividedBy};
ghost use Rattle.surf_finder.specs.Found.{is_among};
ghost use Rattle.surf_finder.specs.Passing.{is_marked};
ghost use Rattle.surf_finder.specs.Signing.{AreSigned, signs_of};

use crate::ends::signed_ends;
use std::alloc::Global;
use surf_base::{EdgeId, NoMemory, VertexId};
use surf_finder::{EdgeSigns, list_marked};
use surf_lengths::Lengths;
use surf_loops::LoopDesk;
use surf_mesh::HalfMesh;
use surf_tree::{TreeDesk, even_length};

// Marks a vertex and those on its way up to the base, as far as the first that is marked already.
fn mark_way(tree: &TreeDesk, from: VertexId, marked: &mut [bool])
    requires rooted { (mesh : Mesh) × IsRooted mesh tree.now
        × (length marked.old ≡ mesh.vertices) }
    requires vertex { from < length marked.old }
    requires parents { IsClosedUpward (length marked.old) (tree_of tree.now)
        (is_marked marked.old) }
    ensures way { IsLeastSet (length marked.old) (tree_of tree.now) (HasVertex from)
        (is_marked marked.old) (is_marked marked.new) }
    ensures count { length marked.new ≡ length marked.old }
{
    let mut at = from;
    while !marked[at.index()] {
        marked[at.index()] = true;
        if let Some(parent) = tree.parent(at) {
            at = parent;
        }
    }
}

// Marks the ends of edges and the vertices on their ways up to the base.
fn mark_ways(mesh: &HalfMesh, tree: &TreeDesk, edges: &[EdgeId], marked: &mut [bool])
    requires rooted { IsRooted mesh.now tree.now }
    requires edges { All (λ e. e < edge_count mesh.now) edges.now }
    requires marks { length marked.old ≡ mesh.now.vertices }
    requires parents { IsClosedUpward mesh.now.vertices (tree_of tree.now) (is_marked marked.old) }
    ensures ways { IsLeastSet mesh.now.vertices (tree_of tree.now) (HasEnds mesh.now edges.now)
        (is_marked marked.old) (is_marked marked.new) }
    ensures count { length marked.new ≡ length marked.old }
{
    mesh.law_of_surface();
    for e in edges {
        let (low, high) = mesh.ends(*e);
        mark_way(tree, low, marked);
        mark_way(tree, high, marked);
    }
}

// The vertices of a cut that leaves an open disc: the ends of the left edges, and the vertices on
// their ways up the tree to the base. Every closed walk that isn't null meets one of them.
fn cut_vertices(alloc: Global, mesh: &HalfMesh, desk: &LoopDesk) -> Result<Vec<VertexId>, NoMemory>
    requires divided { IsDividedBy mesh.now desk.now }
    ensures inside { IfOk result (λ list. All (λ v. v < mesh.now.vertices) list.items) }
    ensures cut { IfOk result (λ list. AreCutVertices mesh.now desk.now list.items) }
{
    let mut marked = vec![in alloc; false; mesh.vertices() as usize]?;
    mark_ways(mesh, desk.tree(), desk.cotree().left(), &mut marked);
    list_marked(alloc, &marked)
}

/// Vertices of which every closed walk that isn't null meets one. These are the vertices of a cut:
/// they lie along shortest ways and close together, so that searches pass over many of them. Where
/// all lengths are the same less is passed over, and the ends of edges with signatures are taken if
/// they are fewer.
pub(crate) fn searched_vertices(
    alloc: Global,
    mesh: &HalfMesh,
    lengths: &Lengths,
    desk: &LoopDesk,
    signs: &EdgeSigns,
) -> Result<Vec<VertexId>, NoMemory>
    requires divided { IsDividedBy mesh.now desk.now }
    requires signs { signs.now ≡ signs_of desk.now.cotree }
    requires signed { (count : ℕ) × AreSigned mesh.now signs.now count }
    ensures inside { IfOk result (λ list. All (λ v. v < mesh.now.vertices) list.items) }
    ensures which { IfOk result (λ list. AreToSearch mesh.now lengths.now desk.now list.items) }
    ensures met { IfOk result (λ list. MeetsAll mesh.now (is_among list.items)) }
{
    mesh.law_of_surface();
    let cut = cut_vertices(alloc, mesh, desk)?;
    if even_length(lengths).is_none() {
        return Ok(cut);
    }
    let ends = signed_ends(alloc, mesh, signs)?;
    if ends.len() < cut.len() {
        return Ok(ends);
    }
    Ok(cut)
}
