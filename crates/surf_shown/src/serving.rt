//! Up to which numbers searches show vertices.
ghost use Rattle.std.specs.Prelude.{◌≡◌, ◌+◌, ◌<◌, ◌≤◌, ◌⊎◌, ℕ, All, Contains, IfSome, length, take};
ghost use Rattle.surf_base.specs.Tables.{at};
ghost use Rattle.surf_shown.specs.Shown.{AreRecords, AreServedTo, AreShownTo, IsClaim, IsLeast, IsRaised};

use crate::past::{are_past_needs, end_before};
use crate::record::{Claim, SearchRecord};
use surf_base::VertexId;

// Raises what a table has of a vertex to a number.
fn raise(v: VertexId, end: u32, ends: &mut [u32])
    requires vertex { v < length ends.old }
    ensures raised { IsRaised v end ends.old ends.new }
{
    ends[v.index()] = ends[v.index()].max(end);
}

// Raises what a table has of some vertices.
fn raise_all(vertices: &[VertexId], end: u32, ends: &mut [u32])
    requires inside { All (λ v. v < length ends.old) vertices.now }
    ensures each { (v i : ℕ) → i < at ends.new v →
        (i < at ends.old v) ⊎ ((i < end) × Contains vertices.now v) }
    ensures raised { All (λ v. end ≤ at ends.new v) vertices.now }
    ensures more { (v : ℕ) → at ends.old v ≤ at ends.new v }
    ensures count { length ends.new ≡ length ends.old }
{
    for v in vertices {
        raise(*v, end, ends);
    }
}

// Shows numbers by the `t`-th search at the vertices that it serves, and gives the number before
// which they are, if its loops are past the places of what they may need.
fn show_record(
    claim: &Claim<'_>,
    records: &[SearchRecord],
    t: usize,
    from: u32,
    to: u32,
    ends: &mut [u32],
) -> Option<u32>
    requires claim { IsClaim claim.now }
    requires records { AreRecords claim.now records.now }
    requires place { t < length records.now }
    requires numbers { (from ≤ to) × (to ≤ length claim.now.loops.now) }
    requires count { length ends.old ≡ claim.now.mesh.now.vertices }
    requires least { IsLeast from ends.old }
    requires off { AreServedTo (take t records.now) to ends.old }
    requires shown { AreShownTo claim.now ends.old }
    ensures shown { AreShownTo claim.now ends.new }
    ensures off { IfSome result (λ end. (from ≤ end) × (end ≤ to)
        × AreServedTo (take (t + 1) records.now) end ends.new) }
    ensures least { IsLeast from ends.new }
    ensures count { length ends.new ≡ length ends.old }
{
    claim.mesh.law_of_surface();
    let record = &records[t];
    let end = end_before(claim, record.margin, from, to, &record.limit);
    if !are_past_needs(claim, record.margin, from, end, &record.loops) {
        return None;
    }
    raise_all(&record.served, end, ends);
    Some(end)
}

/// Shows the numbers from one on, and as many before another one as it can, by searches in their
/// order: raises what a table has of the vertices that they serve.
pub(crate) fn show_records(
    claim: &Claim<'_>,
    records: &[SearchRecord],
    from: u32,
    to: u32,
    ends: &mut [u32],
)
    requires claim { IsClaim claim.now }
    requires records { AreRecords claim.now records.now }
    requires numbers { (from ≤ to) × (to ≤ length claim.now.loops.now) }
    requires count { length ends.old ≡ claim.now.mesh.now.vertices }
    requires least { IsLeast from ends.old }
    requires shown { AreShownTo claim.now ends.old }
    ensures shown { AreShownTo claim.now ends.new }
    ensures count { length ends.new ≡ length ends.old }
{
    let mut end = to;
    for t in 0..records.len() {
        match show_record(claim, records, t, from, end, ends) {
            Some(next) => end = next,
            None => return,
        }
    }
}
