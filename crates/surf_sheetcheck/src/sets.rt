//! Sets of cocycles.
ghost use Rattle.std.specs.Prelude.{◌≡◌, ◌<◌, ◌≤◌, ◌^◌, ℕ, length, IfOk, All, IsFalse, bit_xor};
ghost use Rattle.surf_surfaces.specs.Surface.{edge_count};
ghost use Rattle.surf_base.specs.Tables.{at, nobody};
ghost use Rattle.surf_base.specs.declared.limits.TheConstants.{MAX_LOOPS};
ghost use Rattle.surf_sheetcheck.specs.Fits.{SheetCertFits};
ghost use Rattle.surf_sheetcheck.specs.Cocycles.{set_of, edge_set};
ghost use Rattle.surf_sheetcheck.specs.Tables.{AreRowSets, IsReady, IsLastIn, IsCleared};

use crate::cases::SheetCase;
use std::alloc::Global;
use surf_base::{EdgeId, NOBODY, NoMemory, VertexId};
use surf_bits::{Bits, Signature};
use surf_records::SheetCert;
use surf_signatures::VertexSets;

// The set of numbers that count from 1.
fn set_from(row: &[u32]) -> Signature
    requires numbers { All (λ i. (1 ≤ i) × (i ≤ MAX_LOOPS)) row.now }
    ensures set { result ≡ set_of row.now }
{
    let mut set = Signature::zero();
    for i in 0..row.len() {
        set.add(Signature::unit(row[i] - 1).bits());
    }
    set
}

/// The sets of all rows of numbers.
pub(crate) fn row_sets(alloc: Global, cert: &SheetCert) -> Result<VertexSets, NoMemory>
    requires fits { SheetCertFits cert.now }
    requires few { length cert.now.cycles ≤ MAX_LOOPS }
    ensures sets { IfOk result (AreRowSets cert.now) }
{
    let count = cert.edges().len() as u32;
    let mut sets = VertexSets::make(alloc, count, cert.cycles().len() as u32)?;
    for place in 0..count {
        let set = set_from(cert.numbers().row(place as usize));
        sets.put(VertexId::new(place), &set.bits());
    }
    Ok(sets)
}

/// Whether an edge is listed with numbers.
pub(crate) fn has_set(case: &SheetCase<'_>, e: EdgeId) -> bool
    requires ready { IsReady case.now }
    requires edge { e < edge_count case.now.mesh.now }
    ensures none { IsFalse result → edge_set case.now.mesh.now case.now.cert.now e ≡ 0 }
{
    case.slots[e.index()] != NOBODY
}

/// Adds the set of an edge.
pub(crate) fn add_set(case: &SheetCase<'_>, e: EdgeId, sum: &mut Signature)
    requires ready { IsReady case.now }
    requires edge { e < edge_count case.now.mesh.now }
    ensures added { sum.new ≡ bit_xor sum.old (edge_set case.now.mesh.now case.now.cert.now e) }
{
    let slot = case.slots[e.index()];
    if slot != NOBODY {
        sum.add(case.sets.of(VertexId::new(slot)));
    }
}

/// The greatest of the numbers from one up to another, without that, that a set has.
pub(crate) fn last_in(set: &Bits<'_>, from: u32, to: u32) -> Option<u32>
    requires few { to ≤ MAX_LOOPS }
    requires ordered { from ≤ to }
    ensures last { IsLastIn set.now from to result }
{
    for k in 0..to - from {
        let i = to - 1 - k;
        if set.bit(i) {
            return Some(i);
        }
    }
    None
}

/// Takes the numbers from one up to another, without that, out of a set.
pub(crate) fn clear_within(set: &mut Signature, from: u32, to: u32)
    requires few { to ≤ MAX_LOOPS }
    requires ordered { from ≤ to }
    ensures cleared { IsCleared from to set.old set.new }
    ensures small { (n : ℕ) → set.old < 2 ^ n → set.new < 2 ^ n }
{
    for i in from..to {
        if set.bits().bit(i) {
            set.add(Signature::unit(i).bits());
        }
    }
}
