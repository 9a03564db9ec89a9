//! Flags of the edges that walks run an odd number of times.
ghost use Rattle.std.specs.Prelude.{◌≡◌, ◌<◌, ℕ, IfOk, length, slice_index_or, false};
ghost use Rattle.std.specs.Option.{option_copied};
ghost use Rattle.surf_z2.specs.Parity.{xor};
ghost use Rattle.surf_surfaces.specs.Surface.{edge_count};
ghost use Rattle.surf_surfaces.specs.Walk.{IsClosed, parity};
ghost use Rattle.surf_treecheck.specs.Split.{AreFlags};
ghost use Rattle.surf_classes.specs.Evidence.{joint_parity, AreClosed};

use crate::edges::{step_edge, turn};
use std::alloc::Global;
use surf_base::{NoMemory, VertexId};
use surf_mesh::{HalfMesh, Walk};

// Turns the flag of the edge of each step of a closed walk.
fn turn_steps(mesh: &HalfMesh, walk: &[VertexId], flags: &mut [bool])
    requires closed { IsClosed mesh.now walk.now }
    requires count { length flags.old ≡ edge_count mesh.now }
    ensures turned { (e : ℕ) → e < edge_count mesh.now → slice_index_or flags.new e false
        ≡ xor (slice_index_or flags.old e false) (parity mesh.now walk.now e) }
{
    for i in 0..walk.len() - 1 {
        turn(flags, step_edge(mesh, walk, i).index());
    }
}

/// For each edge whether a closed walk runs it an odd number of times; with a second one, whether
/// exactly one of the two does.
pub(crate) fn joint_flags(
    alloc: Global,
    mesh: &HalfMesh,
    first: &Walk,
    second: Option<&Walk>,
) -> Result<Vec<bool>, NoMemory>
    requires closed { AreClosed mesh.now first.now (option_copied second) }
    ensures flags { IfOk result (λ v. AreFlags (edge_count mesh.now)
        (joint_parity mesh.now first.now (option_copied second.entry)) v.items) }
{
    let mut flags = vec![in alloc; false; mesh.edges() as usize]?;
    turn_steps(mesh, first.vertices(), &mut flags);
    if let Some(other) = second {
        turn_steps(mesh, other.vertices(), &mut flags);
    }
    Ok(flags)
}
