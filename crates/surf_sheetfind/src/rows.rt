//! Rows of sets.
ghost use Rattle.std.specs.Prelude.{◌≡◌, ◌<◌, ◌≤◌, ◌*◌, ◌^◌, ◌==◌, ℕ, if◌then◌else◌, length, map, IfOk};
ghost use Rattle.surf_base.specs.Tables.{at};
ghost use Rattle.surf_signatures.specs.Tables.{words_for};
ghost use Rattle.surf_paired.specs.Paired.{moved, AreUnits};
ghost use Rattle.surf_base.specs.declared.limits.TheConstants.{MAX_LOOPS};

use std::alloc::Global;
use surf_base::{NoMemory, VertexId};
use surf_bits::Signature;
use surf_signatures::VertexSets;

/// As many rows as numbers, each the set of its own number.
pub(crate) fn units(alloc: Global, count: u32) -> Result<VertexSets, NoMemory>
    requires few { count ≤ MAX_LOOPS }
    ensures units { IfOk result (λ rows. AreUnits rows.sets) }
    ensures count { IfOk result (λ rows. length rows.sets ≡ count) }
    ensures width { IfOk result (λ rows. rows.width ≡ count) }
{
    let mut rows = VertexSets::make(alloc, count, count)?;
    for k in 0..count {
        rows.put(VertexId::new(k), &Signature::unit(k).bits());
    }
    Ok(rows)
}

// Adds a set to a row, where that has a number.
fn add_at(rows: &mut VertexSets, row: u32, k: u32, other: &Signature)
    requires row { row < length rows.old.sets }
    requires number { k < MAX_LOOPS }
    requires fits { other.now < 2 ^ (64 * words_for rows.old.width) }
    ensures added { (j : ℕ) → at rows.new.sets j ≡ (if row == j
        then moved k other.now (at rows.old.sets j) else at rows.old.sets j) }
    ensures count { length rows.new.sets ≡ length rows.old.sets }
    ensures width { rows.new.width ≡ rows.old.width }
{
    let v = VertexId::new(row);
    if rows.of(v).bit(k) {
        let mut sum = other.copy();
        sum.add(rows.of(v));
        rows.put(v, &sum.bits());
    }
}

/// Adds a set to each row that has a number.
pub(crate) fn add_where(rows: &mut VertexSets, count: u32, k: u32, other: &Signature)
    requires count { length rows.old.sets ≡ count }
    requires number { k < MAX_LOOPS }
    requires fits { other.now < 2 ^ (64 * words_for rows.old.width) }
    ensures moved { rows.new.sets ≡ map (moved k other.now) rows.old.sets }
    ensures width { rows.new.width ≡ rows.old.width }
{
    for row in 0..count {
        add_at(rows, row, k, other);
    }
}
