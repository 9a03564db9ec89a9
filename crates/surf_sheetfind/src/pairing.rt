//! Pairs one row after the other with the walks of a basis.
ghost use Rattle.std.specs.Prelude.{◌≡◌, ◌+◌, ◌<◌, ◌≤◌, ℕ, List, length, IfOk};
ghost use Rattle.surf_validity.specs.Bases.{IsClosedList};
ghost use Rattle.surf_surfaces.specs.Surface.{edge_count};
ghost use Rattle.surf_paired.specs.Paired.{ArePairedRows};
ghost use Rattle.surf_sheetfind.specs.Pairs.{AreRows, CanPair, HasOwn, walk_at, classes_of, AreClasses};
ghost use Rattle.surf_base.specs.declared.limits.TheConstants.{MAX_LOOPS};

use crate::classes::class_of;
use crate::images::{first_from, image_of};
use crate::rows::{add_where, units};
use std::alloc::Global;
use surf_base::NoMemory;
use surf_bits::Signature;
use surf_cotree::CotreeDesk;
use surf_mesh::{HalfMesh, Walk};
use surf_signatures::VertexSets;

// Gives the image of a class its own number, where it hasn't got it, for one that no class before it
// has.
fn give_own(rows: &mut VertexSets, count: u32, n: u32, class: &Signature)
    requires rows { AreRows count rows.old }
    requires few { count ≤ MAX_LOOPS }
    requires number { n < count }
    ensures rows { AreRows count rows.new }
    ensures own { (classes : List ℕ) → CanPair classes rows.old.sets n class.now →
        HasOwn classes rows.new.sets n }
{
    let image = image_of(rows, count, &class.bits());
    if image.bits().bit(n) {
        return;
    }
    if let Some(k) = first_from(&image.bits(), n, count) {
        add_where(rows, count, k, &Signature::unit(n));
    }
}

// Takes all but its own number out of the image of a class.
fn take_others(rows: &mut VertexSets, count: u32, n: u32, class: &Signature)
    requires rows { AreRows count rows.old }
    requires few { count ≤ MAX_LOOPS }
    requires number { n < count }
    ensures rows { AreRows count rows.new }
    ensures paired { (classes : List ℕ) → CanPair classes rows.old.sets n class.now →
        HasOwn classes rows.old.sets n → ArePairedRows classes rows.new.sets (n + 1) }
{
    let mut others = image_of(rows, count, &class.bits());
    others.add(Signature::unit(n).bits());
    add_where(rows, count, n, &others);
}

// Pairs the next class.
fn pair_next(rows: &mut VertexSets, count: u32, n: u32, class: &Signature)
    requires rows { AreRows count rows.old }
    requires few { count ≤ MAX_LOOPS }
    requires number { n < count }
    ensures rows { AreRows count rows.new }
    ensures paired { (classes : List ℕ) → CanPair classes rows.old.sets n class.now →
        ArePairedRows classes rows.new.sets (n + 1) }
{
    give_own(rows, count, n, class);
    take_others(rows, count, n, class);
}

/// Rows that are paired with the classes of closed walks, which are independent.
pub(crate) fn paired_rows(
    alloc: Global,
    mesh: &HalfMesh,
    signatures: &CotreeDesk,
    cycles: &[Walk],
) -> Result<VertexSets, NoMemory>
    requires few { length cycles.now ≤ MAX_LOOPS }
    requires closed { (k : ℕ) → k < length cycles.now → IsClosedList mesh.now (walk_at cycles.now k) }
    requires table { length signatures.now.signatures ≡ edge_count mesh.now }
    requires classes { AreClasses (classes_of mesh.now signatures.now.signatures cycles.now) }
    ensures rows { IfOk result (AreRows (length cycles.now)) }
    ensures paired { IfOk result (λ rows. ArePairedRows
        (classes_of mesh.now signatures.now.signatures cycles.now) rows.sets (length cycles.now)) }
{
    let count = cycles.len() as u32;
    let mut rows = units(alloc, count)?;
    for n in 0..count {
        let class = class_of(mesh, signatures, cycles[n as usize].vertices());
        pair_next(&mut rows, count, n, &class);
    }
    Ok(rows)
}
