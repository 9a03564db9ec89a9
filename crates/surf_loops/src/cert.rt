//! The certificate of the loops at a base, and its parts.
ghost use Rattle.std.specs.Prelude.{◌≡◌, ◌<◌, IfOk, length, map};
ghost use Rattle.surf_surfaces.specs.Surface.{edge_count, face_count, ends};
ghost use Rattle.surf_validity.specs.Chosen.{chosen_cert, dual_rows_of, rows_for, side_in};
ghost use Rattle.surf_validity.specs.Valid.{IsValidLoops};
ghost use Rattle.surf_records.specs.Fits.{LoopFits};
ghost use Rattle.surf_tree.specs.Tables.{tree_of};
ghost use Rattle.surf_cotree.specs.Tables.{cotree_of};
ghost use Rattle.surf_cotree.specs.Grown.{IsGrownOn};
ghost use Rattle.surf_loops.specs.Loops.{IsGreedy, IsRooted, trees_of};

use crate::desk::LoopDesk;
use std::alloc::Global;
use surf_base::{FaceId, NoMemory, VertexId};
use surf_cotree::CotreeDesk;
use surf_lengths::Lengths;
use surf_mesh::HalfMesh;
use surf_records::{DualRows, LoopCert, TreeRows};
use surf_tree::TreeDesk;

/// The rows of a tree of vertices: for each vertex its distance from the base and its parent, which
/// the base has not.
pub fn tree_rows(alloc: Global, mesh: &HalfMesh, tree: &TreeDesk) -> Result<TreeRows, NoMemory>
    requires rooted { IsRooted mesh.now tree.now }
    ensures rows { IfOk result (λ rows. rows ≡ rows_for mesh.now (tree_of tree.now)) }
{
    let vertices = mesh.vertices();
    let mut distance = Vec::with_capacity(alloc, vertices as usize)?;
    let mut parent = Vec::with_capacity(alloc, vertices as usize)?;
    for v in 0..vertices {
        let vertex = VertexId::new(v);
        distance.push(tree.distance(vertex))?;
        parent.push(tree.parent(vertex))?;
    }
    Ok(TreeRows::make(tree.base(), distance, parent))
}

// The side of a face over which its parent lies, the lesser end first. Face 0 has none.
fn side_of(mesh: &HalfMesh, cotree: &CotreeDesk, face: FaceId) -> Option<(VertexId, VertexId)>
    requires grown { IsGrownOn mesh.now cotree.now }
    requires face { face < face_count mesh.now }
    ensures side { result ≡ side_in mesh.now (cotree_of cotree.now) face }
{
    mesh.law_of_surface();
    let edge = cotree.parent_edge(face)?;
    Some(mesh.ends(edge))
}

/// The rows of a tree of faces: for each face the number of edges to face 0 and the side over which
/// its parent lies, the lesser end first. Face 0 has none.
pub fn dual_rows(alloc: Global, mesh: &HalfMesh, cotree: &CotreeDesk) -> Result<DualRows, NoMemory>
    requires grown { IsGrownOn mesh.now cotree.now }
    ensures rows { IfOk result (λ rows. rows ≡ dual_rows_of mesh.now (cotree_of cotree.now)) }
{
    let faces = mesh.faces();
    let mut depth = Vec::with_capacity(alloc, faces as usize)?;
    let mut side = Vec::with_capacity(alloc, faces as usize)?;
    for f in 0..faces {
        let face = FaceId::new(f);
        depth.push(cotree.depth(face))?;
        side.push(side_of(mesh, cotree, face))?;
    }
    Ok(DualRows::make(depth, side))
}

/// The edges in neither tree as the pairs of their ends, the lesser first, in the order of their
/// numbers.
pub fn left_pairs(
    alloc: Global,
    mesh: &HalfMesh,
    cotree: &CotreeDesk,
) -> Result<Vec<(VertexId, VertexId)>, NoMemory>
    requires grown { IsGrownOn mesh.now cotree.now }
    ensures pairs { IfOk result (λ pairs. pairs.items ≡ map (ends mesh.now) cotree.now.left) }
{
    let left = cotree.left();
    let mut pairs = Vec::with_capacity(alloc, left.len())?;
    for edge in left {
        pairs.push(mesh.ends(*edge))?;
    }
    Ok(pairs)
}

impl LoopDesk {
    /// A certificate that the loops are a least loop system at their base: the two trees, and the
    /// edges in neither. It is valid for the mesh and the lengths, and its lists fit the lines of a
    /// text.
    pub fn cert(
        &self,
        alloc: Global,
        mesh: &HalfMesh,
        lengths: &Lengths,
    ) -> Result<LoopCert, NoMemory>
        requires greedy { IsGreedy mesh.now lengths.now self.now.tree.base self.now }
        requires lengths { length lengths.now ≡ edge_count mesh.now }
        ensures cert { IfOk result (λ cert. cert ≡ chosen_cert mesh.now (trees_of self.now)) }
        ensures valid { IfOk result (IsValidLoops mesh.now lengths.now) }
        ensures fits { IfOk result LoopFits }
    {
        mesh.law_of_surface();
        lengths.law_of_lengths();
        let tree = tree_rows(alloc, mesh, self.tree())?;
        let dual = dual_rows(alloc, mesh, self.cotree())?;
        let left = left_pairs(alloc, mesh, self.cotree())?;
        Ok(LoopCert::make(tree, dual, left))
    }
}
