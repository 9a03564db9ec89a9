//! Sheets over single vertices.
ghost use Rattle.std.specs.Prelude.{◌≡◌, ◌<◌, ◌-◌, length, slice_index_or, IfOk, IsFalse};
ghost use Rattle.surf_sheetfind.specs.Listed.{AreVertexRows};

use std::alloc::Global;
use surf_base::{NoMemory, VertexId};
use surf_records::SheetRow;

// Whether a pair is the first, or the one before it begins with another vertex.
fn begins_anew(pairs: &[(VertexId, VertexId)], place: usize) -> bool
    requires place { place < length pairs.now }
    ensures same { IsFalse result → (0 < place) × ((slice_index_or pairs.now (place - 1) (0, 0)).0
        ≡ (slice_index_or pairs.now place (0, 0)).0) }
{
    place == 0 || pairs[place - 1].0.number() != pairs[place].0.number()
}

/// For each pair a sheet for all numbers over its first vertex, without a margin; where pairs one
/// after the other begin with the same vertex, one sheet.
pub(crate) fn vertex_sheets(
    alloc: Global,
    pairs: &[(VertexId, VertexId)],
    count: u32,
) -> Result<Vec<SheetRow>, NoMemory>
    ensures sheets { IfOk result (λ sheets. AreVertexRows count pairs.now (length pairs.now)
        sheets.items) }
{
    let mut sheets = Vec::new(alloc);
    for place in 0..pairs.len() {
        if begins_anew(pairs, place) {
            let v = pairs[place].0.number();
            sheets.push(SheetRow::make((0, count), 0, (v, v), 0))?;
        }
    }
    Ok(sheets)
}
