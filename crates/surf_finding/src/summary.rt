//! What is found on a surface in short.
ghost use Rattle.std.specs.Prelude.{◌≡◌, ◌<◌, ◌≤◌, ◌+◌, length, IfOk};
ghost use Rattle.surf_surfaces.specs.Surface.{edge_count, loop_count};
ghost use Rattle.surf_answers.specs.Summaries.{BasisTotals, CycleMeasures, GivesSummary, LoopsTotal};
ghost use Rattle.surf_answers.specs.Tells.{Concludes};
ghost use Rattle.surf_base.specs.declared.limits.TheConstants.{MAX_LOOPS};

use crate::{basis, loops};
use std::alloc::Global;
use surf_answers::{Answered, info_of};
use surf_base::{NoMemory, VertexId};
use surf_basis::least_basis;
use surf_lengths::Lengths;
use surf_loops::BaseLoops;
use surf_mesh::HalfMesh;
use surf_texts::{Refused, measures_text};

/// What `info` answers of a surface that has loops, and then what its loops at vertex 0, its basis
/// and its cycle measure.
pub(crate) fn summary_of(
    alloc: Global,
    mesh: &HalfMesh,
    lengths: &Lengths,
) -> Result<Answered, Refused>
    requires lengths { length lengths.now ≡ edge_count mesh.now }
    requires some { 0 < loop_count mesh.now }
    requires few { loop_count mesh.now ≤ MAX_LOOPS }
    ensures { Concludes (GivesSummary mesh.now lengths.now) result }
{
    let mut answered = info_of(alloc, mesh.surface())?;
    let loops = loops_total(alloc, mesh, lengths)?;
    let (basis, cycle) = basis_measures(alloc, mesh, lengths)?;
    let measures = measures_text(alloc, loops, basis, cycle)?;
    answered.text.extend_from_slice(measures.as_bytes())?;
    Ok(answered)
}

// What the loops that are chosen at vertex 0 total.
fn loops_total(alloc: Global, mesh: &HalfMesh, lengths: &Lengths) -> Result<u128, NoMemory>
    requires { length lengths.now ≡ edge_count mesh.now }
    ensures { IfOk result (LoopsTotal mesh.now lengths.now) }
{
    mesh.law_of_surface();
    let found = BaseLoops::find(alloc, mesh, lengths, VertexId::new(0))?;
    Ok(loops::total_of(found.heads()))
}

// What the basis that is chosen totals, and the length of its first cycle, on a surface that has
// loops: no simple cycle that doesn't separate the surface is shorter, so a search for one of its
// own is spared.
fn basis_measures(
    alloc: Global,
    mesh: &HalfMesh,
    lengths: &Lengths,
) -> Result<(u128, u64), NoMemory>
    requires lengths { length lengths.now ≡ edge_count mesh.now }
    requires some { 0 < loop_count mesh.now }
    requires few { loop_count mesh.now ≤ MAX_LOOPS }
    ensures total { IfOk result (λ measures. BasisTotals mesh.now lengths.now measures.0) }
    ensures cycle { IfOk result (λ measures. CycleMeasures mesh.now lengths.now measures.1) }
{
    mesh.law_of_surface();
    lengths.law_of_lengths();
    let basis = least_basis(alloc, mesh, lengths)?;
    let total = basis::total_of(&basis);
    match basis.first() {
        Some(cycle) => Ok((total, cycle.length)),
        None => unreachable!(),
    }
}
