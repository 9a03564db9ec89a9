//! A desk with the trees that are chosen at vertex 0.
ghost use Rattle.std.specs.Prelude.{◌≡◌, ◌≤◌, length, IfOk};
ghost use Rattle.surf_surfaces.specs.Surface.{edge_count, loop_count};
ghost use Rattle.surf_cover.specs.Grown.{IsSigned};
ghost use Rattle.surf_walking.specs.ChosenDesks.{IsChosenDesk};
ghost use Rattle.surf_base.specs.declared.limits.TheConstants.{MAX_LOOPS};

use std::alloc::Global;
use surf_base::{NoMemory, VertexId};
use surf_lengths::Lengths;
use surf_loops::LoopDesk;
use surf_mesh::HalfMesh;

/// A desk with the trees that are chosen at vertex 0.
pub(crate) fn chosen_desk(
    alloc: Global,
    mesh: &HalfMesh,
    lengths: &Lengths,
) -> Result<LoopDesk, NoMemory>
    requires lengths { length lengths.now ≡ edge_count mesh.now }
    ensures chosen { IfOk result (λ desk. IsChosenDesk mesh.now lengths.now desk.cotree) }
{
    mesh.law_of_surface();
    let mut desk = LoopDesk::make(alloc, mesh)?;
    desk.greedy(mesh, lengths, VertexId::new(0));
    Ok(desk)
}

/// Such a desk, with the signatures of all edges by its trees.
pub(crate) fn signed_desk(
    alloc: Global,
    mesh: &HalfMesh,
    lengths: &Lengths,
) -> Result<LoopDesk, NoMemory>
    requires lengths { length lengths.now ≡ edge_count mesh.now }
    requires few { loop_count mesh.now ≤ MAX_LOOPS }
    ensures signed { IfOk result (λ desk. IsSigned mesh.now desk.cotree) }
{
    let mut desk = chosen_desk(alloc, mesh, lengths)?;
    desk.sign(mesh);
    Ok(desk)
}
