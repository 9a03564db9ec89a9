//! The edges whose loops run through a left edge.
ghost use Rattle.std.specs.Prelude.{◌≡◌, ◌<◌, ℕ, IfOk, length, slice_index_or, false};
ghost use Rattle.surf_z2.specs.Parity.{xor};
ghost use Rattle.surf_graphs.specs.Cells.{dual};
ghost use Rattle.surf_graphs.specs.Trees.{on_path};
ghost use Rattle.surf_signatures.specs.Signs.{has_left};
ghost use Rattle.surf_surfaces.specs.Cells.{cells_of};
ghost use Rattle.surf_surfaces.specs.Surface.{edge_count, face_count};
ghost use Rattle.surf_cotree.specs.Grown.{IsGrownOn};
ghost use Rattle.surf_cotree.specs.Tables.{cotree_of};
ghost use Rattle.surf_treecheck.specs.Split.{AreFlags};

use crate::edges::{faces_beside, turn};
use crate::sides::above;
use std::alloc::Global;
use surf_base::{EdgeId, FaceId, NoMemory};
use surf_cotree::CotreeDesk;
use surf_mesh::HalfMesh;

// Turns the flags of the edges on the way from a face to face 0.
fn turn_way(mesh: &HalfMesh, cotree: &CotreeDesk, flags: &mut [bool], face: FaceId)
    requires grown { IsGrownOn mesh.now cotree.now }
    requires face { face < face_count mesh.now }
    requires flags { length flags.old ≡ edge_count mesh.now }
    ensures turned { (e : ℕ) → slice_index_or flags.new e false
        ≡ xor (slice_index_or flags.old e false) (on_path (cotree_of cotree.now) face e) }
{
    let mut at = face;
    while let Some((parent, edge)) = above(mesh, cotree, at) {
        turn(flags, edge.index());
        at = parent;
    }
}

/// For each edge whether its signature has the place of a left edge: the left edge, and those of
/// the tree of faces that are on the way from one of its two faces to face 0, and not on the other.
pub(crate) fn cocycle_flags(
    alloc: Global,
    mesh: &HalfMesh,
    cotree: &CotreeDesk,
    edge: EdgeId,
) -> Result<Vec<bool>, NoMemory>
    requires grown { IsGrownOn mesh.now cotree.now }
    requires edge { edge < edge_count mesh.now }
    ensures flags { IfOk result (λ v. AreFlags (edge_count mesh.now)
        (has_left (dual (cells_of mesh.now)) (cotree_of cotree.now) edge) v.items) }
{
    let mut flags = vec![in alloc; false; mesh.edges() as usize]?;
    let (near, far) = faces_beside(mesh, edge);
    turn(&mut flags, edge.index());
    turn_way(mesh, cotree, &mut flags, near);
    turn_way(mesh, cotree, &mut flags, far);
    Ok(flags)
}
