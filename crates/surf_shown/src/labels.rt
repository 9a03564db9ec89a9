//! Whether each edge has an end that is served for all that its class needs.
ghost use Rattle.std.specs.Prelude.{◌≡◌, ◌<◌, ◌≤◌, ℕ, IsTrue, length};
ghost use Rattle.surf_surfaces.specs.Surface.{edge_count};
ghost use Rattle.surf_base.specs.Tables.{at};
ghost use Rattle.surf_shown.specs.Shown.{AreLabels, IsClaim, IsServedEdge, label_at, labelled_class};

use crate::past::sum_count;
use crate::record::{Claim, Labels};
use surf_base::{EdgeId, VertexId};
use surf_bits::Signature;

// The class of a vertex's label.
fn label_of<'c>(labels: &Labels<'c>, v: VertexId) -> &'c Signature
    requires labels { v < length labels.now.numbers.now }
    requires class { at labels.now.numbers.now v < length labels.now.classes.now }
    ensures class { result.now ≡ label_at labels.now v }
{
    &labels.classes[labels.numbers[v.index()] as usize]
}

// The signature of an edge, with the labels of its ends added.
fn class_of(claim: &Claim<'_>, labels: &Labels<'_>, e: EdgeId) -> Signature
    requires claim { IsClaim claim.now }
    requires labels { AreLabels claim.now labels.now }
    requires edge { e < edge_count claim.now.mesh.now }
    ensures class { result ≡ labelled_class claim.now labels.now e }
{
    claim.mesh.law_of_surface();
    let (u, v) = claim.mesh.ends(e);
    let mut sum = label_of(labels, u).copy();
    sum.add(label_of(labels, v).bits());
    sum.add(claim.signatures.signature(e));
    sum
}

// Whether an end of an edge is served for all numbers from one on that are before another one and
// that the edge's class may need.
fn is_served(
    claim: &Claim<'_>,
    labels: &Labels<'_>,
    from: u32,
    to: u32,
    ends: &[u32],
    e: EdgeId,
) -> bool
    requires claim { IsClaim claim.now }
    requires labels { AreLabels claim.now labels.now }
    requires edge { e < edge_count claim.now.mesh.now }
    requires count { length ends.now ≡ claim.now.mesh.now.vertices }
    ensures served { IsTrue result → IsServedEdge claim.now labels.now from to ends.now e }
{
    claim.mesh.law_of_surface();
    let class = class_of(claim, labels, e);
    let Some(count) = sum_count(claim, &class.bits()) else {
        return false;
    };
    let need = count.min(to as usize);
    let (u, v) = claim.mesh.ends(e);
    need <= from as usize || need <= ends[u.index()].max(ends[v.index()]) as usize
}

/// Whether so is each edge.
pub(crate) fn are_served(
    claim: &Claim<'_>,
    labels: &Labels<'_>,
    from: u32,
    to: u32,
    ends: &[u32],
) -> bool
    requires claim { IsClaim claim.now }
    requires labels { AreLabels claim.now labels.now }
    requires count { length ends.now ≡ claim.now.mesh.now.vertices }
    ensures served { IsTrue result → (e : ℕ) → e < edge_count claim.now.mesh.now →
        IsServedEdge claim.now labels.now from to ends.now e }
{
    for e in 0..claim.mesh.edges() {
        if !is_served(claim, labels, from, to, ends, EdgeId::new(e)) {
            return false;
        }
    }
    true
}
