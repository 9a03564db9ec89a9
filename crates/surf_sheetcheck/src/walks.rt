//! The cycles of a certificate: whether they are closed, and their lengths.
ghost use Rattle.std.specs.Prelude.{◌≡◌, ◌<◌, ◌≤◌, ◌-◌, ◌^◌, ℕ, length, sum, slice_index, IfOk};
ghost use Rattle.surf_surfaces.specs.Surface.{edge_count};
ghost use Rattle.surf_treecheck.specs.First.{HoldsBelow, FindsFirst};
ghost use Rattle.surf_base.specs.declared.limits.TheConstants.{MAX_LOOPS};
ghost use Rattle.surf_sheetcheck.specs.Parts.{cycle_at};
ghost use Rattle.surf_sheetcheck.specs.Valid.{IsCycleClosed};
ghost use Rattle.surf_sheetcheck.specs.Tables.{AreSizes};

use std::alloc::Global;
use surf_base::{NoMemory, VertexId};
use surf_certcheck::{is_closed, length_of};
use surf_lengths::Lengths;
use surf_mesh::HalfMesh;
use surf_records::SheetCert;

/// The vertices of the cycle at a place.
pub(crate) fn cycle_from(cert: &SheetCert, place: usize) -> &[VertexId]
    requires place { place < length cert.now.cycles }
    ensures cycle { result.now ≡ cycle_at cert.now place }
{
    cert.cycles()[place].vertices()
}

/// The least place of a cycle that isn't a closed list of neighbours.
pub(crate) fn first_open(mesh: &HalfMesh, cert: &SheetCert) -> Option<usize>
    ensures first { FindsFirst (length cert.now.cycles) (IsCycleClosed mesh.now cert.now) result }
{
    for place in 0..cert.cycles().len() {
        if !is_closed(mesh, cycle_from(cert, place)) {
            return Some(place);
        }
    }
    None
}

/// The lengths of the cycles.
pub(crate) fn walk_sizes(
    alloc: Global,
    mesh: &HalfMesh,
    lengths: &Lengths,
    cert: &SheetCert,
) -> Result<Vec<u128>, NoMemory>
    requires closed { HoldsBelow (length cert.now.cycles) (IsCycleClosed mesh.now cert.now) }
    requires lengths { length lengths.now ≡ edge_count mesh.now }
    ensures sizes { IfOk result (λ v. AreSizes mesh.now lengths.now cert.now v.items) }
{
    let count = cert.cycles().len();
    let mut sizes = Vec::with_capacity(alloc, count)?;
    for place in 0..count {
        sizes.push(length_of(mesh, lengths, cycle_from(cert, place)))?;
    }
    Ok(sizes)
}

/// The least place of a length that is less than the one before it.
pub(crate) fn first_falling(sizes: &[u128]) -> Option<usize>
    ensures first { FindsFirst (length sizes.now)
        (λ k. slice_index sizes.now (k - 1) ≤ slice_index sizes.now k) result }
{
    for place in 1..sizes.len() {
        if sizes[place] < sizes[place - 1] {
            return Some(place);
        }
    }
    None
}

/// The sum of the lengths.
pub(crate) fn total_of(sizes: &[u128]) -> u128
    requires few { length sizes.now ≤ MAX_LOOPS }
    requires small { (k : ℕ) → k < length sizes.now → slice_index sizes.now k < 2 ^ 96 }
    ensures total { result ≡ sum sizes.now }
{
    let mut total = 0u128;
    for place in 0..sizes.len() {
        total += sizes[place];
    }
    total
}
