//! Coordinates in which each cycle of a certificate has a place of its own.
ghost use Rattle.std.specs.Prelude.{◌≡◌, ◌≢◌, ◌<◌, ◌≤◌, ◌+◌, ℕ, IfOk};
ghost use Rattle.std.specs.Prelude.{IfErr, MatchOption, MatchBool, All, length, true, None};
ghost use Rattle.surf_z2.specs.Sieve.{has};
ghost use Rattle.surf_graphs.specs.Cells.{Split};
ghost use Rattle.surf_surfaces.specs.Signature.{walk_signature};
ghost use Rattle.surf_surfaces.specs.Surface.{edge_count};
ghost use Rattle.surf_validity.specs.Bases.{IsClosedList, IsDependent, split_in};
ghost use Rattle.surf_treecheck.specs.First.{HoldsBelow};
ghost use Rattle.surf_certcheck.specs.BasisFaults.{IsCycleClosed, IsIndependentAt, DependsFirst, IsDependentFault};
ghost use Rattle.surf_certcheck.specs.Frames.{AreTaken, weight_at, IsFrameOf};
ghost use Rattle.surf_certcheck.specs.Frames.{edge_signatures};
ghost use Rattle.surf_certcheck.specs.Columns.{IsSorted};
ghost use Rattle.surf_base.specs.declared.limits.TheConstants.{MAX_LOOPS};

use crate::cases::BasisCase;
use crate::columns::sort_places;
use crate::coordinates::Frame;
use crate::cycles::{cycle_from, length_of, step_edge};
use std::alloc::Global;
use surf_base::{NoMemory, VertexId};
use surf_bits::Signature;
use surf_mesh::HalfMesh;
use surf_signatures::Signs;
use surf_treecheck::CertFault;

// The sum of the coordinates of a cycle's steps.
fn cycle_set(mesh: &HalfMesh, signs: &Signs, list: &[VertexId]) -> Signature
    requires closed { IsClosedList mesh.now list.now }
    requires count { length signs.now.sets ≡ edge_count mesh.now }
    ensures sum { (d : Split) (to : ℕ → ℕ) → AreTaken mesh.now d to signs.now.sets
        → result ≡ to (walk_signature mesh.now d list.now) }
{
    let mut sum = Signature::zero();
    for i in 0..list.len() - 1 {
        sum.add(signs.signature(step_edge(mesh, list, i)));
    }
    sum
}

// A place of a set that no cycle has got.
fn free_place(set: &Signature, weights: &[Option<u128>]) -> Option<usize>
    requires few { length weights.now ≤ MAX_LOOPS }
    ensures free { MatchOption result
        ((k : ℕ) → k < length weights.now → has set.now k ≡ true
        → weight_at weights.now k ≢ None)
        (λ k. (k < length weights.now) × (has set.now k ≡ true)
        × (weight_at weights.now k ≡ None)) }
{
    for k in 0..weights.len() {
        if weights[k].is_none() && set.bits().bit(k as u32) {
            return Some(k);
        }
    }
    None
}

// Gives the cycle at a place of the list a coordinate of its own, or none where its signature is a
// sum of those before it.
fn admit(case: &BasisCase<'_>, place: usize, frame: &mut Frame) -> bool
    requires place { place < length case.now.cert.now.cycles }
    requires closed { IsCycleClosed case.now.mesh.now case.now.cert.now place }
    requires count { length frame.old.signs.sets ≡ edge_count case.now.mesh.now }
    requires frame { IsFrameOf case.now.mesh.now case.now.lengths.now case.now.cert.now place
        frame.old.signs frame.old.weights.items }
    ensures width { frame.new.signs.width ≡ frame.old.signs.width }
    ensures count { length frame.new.signs.sets ≡ edge_count case.now.mesh.now }
    ensures admitted { MatchBool result
        (IsIndependentAt case.now.mesh.now case.now.cert.now place
        × IsFrameOf case.now.mesh.now case.now.lengths.now case.now.cert.now (place + 1)
        frame.new.signs frame.new.weights.items)
        (IsDependent case.now.mesh.now case.now.cert.now place) }
{
    let list = cycle_from(case.cert, place);
    let mut rest = cycle_set(case.mesh, &frame.signs, list);
    match free_place(&rest, &frame.weights) {
        None => false,
        Some(free) => {
            rest.add(Signature::unit(free as u32).bits());
            frame.signs.add_where(free as u32, &rest.bits());
            frame.weights[free] = Some(length_of(case.mesh, case.lengths, list));
            true
        }
    }
}

// Gives one cycle after the other a place of its own, up to the first whose signature is a sum of
// those before it.
fn admit_all(case: &BasisCase<'_>, frame: &mut Frame) -> Option<usize>
    requires closed { HoldsBelow (length case.now.cert.now.cycles)
        (IsCycleClosed case.now.mesh.now case.now.cert.now) }
    requires count { length frame.old.signs.sets ≡ edge_count case.now.mesh.now }
    requires frame { IsFrameOf case.now.mesh.now case.now.lengths.now case.now.cert.now 0
        frame.old.signs frame.old.weights.items }
    ensures count { length frame.new.signs.sets ≡ edge_count case.now.mesh.now }
    ensures width { frame.new.signs.width ≡ frame.old.signs.width }
    ensures frame { MatchOption result
        (HoldsBelow (length case.now.cert.now.cycles)
        (IsIndependentAt case.now.mesh.now case.now.cert.now)
        × IsFrameOf case.now.mesh.now case.now.lengths.now case.now.cert.now
        (length case.now.cert.now.cycles) frame.new.signs frame.new.weights.items)
        (DependsFirst case.now.mesh.now case.now.cert.now) }
{
    for place in 0..case.cert.cycles().len() {
        if !admit(case, place, frame) {
            return Some(place);
        }
    }
    None
}

// No cycle has a place yet.
fn no_weights(alloc: Global, count: usize) -> Result<Vec<Option<u128>>, NoMemory>
    ensures count { IfOk result (λ v. length v.items ≡ count) }
    ensures none { IfOk result (λ v. All (λ o. o ≡ None) v.items) }
{
    Ok(vec![in alloc; None; count]?)
}

/// The frame of the cycles over the signatures of the edges, or the least place of a cycle whose
/// signature is a sum of those before it.
pub(crate) fn frame_cycles(
    alloc: Global,
    case: &BasisCase<'_>,
    signs: Signs,
) -> Result<Frame, CertFault>
    requires closed { HoldsBelow (length case.now.cert.now.cycles)
        (IsCycleClosed case.now.mesh.now case.now.cert.now) }
    requires places { length case.now.cert.now.cycles
        ≡ length (split_in case.now.mesh.now case.now.cert.now).left }
    requires width { signs.width ≡ length case.now.cert.now.cycles }
    requires signed { signs.sets ≡ edge_signatures case.now.mesh.now
        (split_in case.now.mesh.now case.now.cert.now) }
    ensures independent { IfOk result (λ f. HoldsBelow (length case.now.cert.now.cycles)
        (IsIndependentAt case.now.mesh.now case.now.cert.now)) }
    ensures frame { IfOk result (λ f. IsFrameOf case.now.mesh.now case.now.lengths.now
        case.now.cert.now (length case.now.cert.now.cycles) f.signs f.weights.items) }
    ensures count { IfOk result (λ f. length f.signs.sets ≡ edge_count case.now.mesh.now) }
    ensures sorted { IfOk result (λ f. IsSorted f.weights.items) }
    ensures fault { IfErr result (IsDependentFault case.now.mesh.now case.now.cert.now) }
{
    case.law_of_cycles();
    let weights = no_weights(alloc, case.cert.cycles().len())?;
    let mut frame = Frame { signs, weights };
    match admit_all(case, &mut frame) {
        None => {
            sort_places(&mut frame);
            Ok(frame)
        }
        Some(place) => Err(CertFault::Dependent {
            place: place as u32,
        }),
    }
}
