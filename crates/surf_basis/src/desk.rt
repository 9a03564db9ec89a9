//! Signatures of edges.
ghost use Rattle.std.specs.Prelude.{◌≡◌, ◌<◌, ◌≤◌, All, length, IfOk};
ghost use Rattle.surf_surfaces.specs.Homology.{IsLoopCount};
ghost use Rattle.surf_surfaces.specs.Surface.{edge_count, loop_count};
ghost use Rattle.surf_finder.specs.Signing.{AreSigned, signs_of};
ghost use Rattle.surf_basis.specs.Cut.{IsDividedBy};
ghost use Rattle.surf_base.specs.declared.limits.TheConstants.{MAX_LOOPS};

use std::alloc::Global;
use surf_base::{NoMemory, VertexId};
use surf_finder::EdgeSigns;
use surf_lengths::Lengths;
use surf_loops::LoopDesk;
use surf_mesh::HalfMesh;

/// The loops that are chosen at vertex 0, and the signatures of all edges by the trees there. The
/// signatures stand by themselves, so that the desk may be let go of.
pub(crate) fn signed_desk(
    alloc: Global,
    mesh: &HalfMesh,
    lengths: &Lengths,
) -> Result<(LoopDesk, EdgeSigns), NoMemory>
    requires lengths { length lengths.now ≡ edge_count mesh.now }
    requires few { loop_count mesh.now ≤ MAX_LOOPS }
    ensures signs { IfOk result (λ r. r.1 ≡ signs_of r.0.cotree) }
    ensures signed { IfOk result (λ r. AreSigned mesh.now r.1 (length r.1.left)) }
    ensures left { IfOk result (λ r. All (λ e. e < edge_count mesh.now) r.1.left) }
    ensures full { IfOk result (λ r. IsLoopCount mesh.now (length r.1.left)) }
    ensures divided { IfOk result (λ r. IsDividedBy mesh.now r.0) }
{
    mesh.law_of_surface();
    lengths.law_of_lengths();
    let mut desk = LoopDesk::make(alloc, mesh)?;
    desk.greedy(mesh, lengths, VertexId::new(0));
    desk.sign(mesh);
    let signs = EdgeSigns::make(alloc, mesh, desk.cotree())?;
    Ok((desk, signs))
}
