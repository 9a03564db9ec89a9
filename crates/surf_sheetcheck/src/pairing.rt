//! Whether walks and cocycles are paired.
ghost use Rattle.std.specs.Prelude.{◌≡◌, ◌<◌, length};
ghost use Rattle.surf_validity.specs.Bases.{IsClosedList};
ghost use Rattle.surf_treecheck.specs.First.{FindsFirst, Tells};
ghost use Rattle.surf_sheetcheck.specs.Cocycles.{walk_set};
ghost use Rattle.surf_sheetcheck.specs.Valid.{IsPaired};
ghost use Rattle.surf_sheetcheck.specs.Tables.{IsReady};

use crate::cases::SheetCase;
use crate::sets::{add_set, last_in};
use crate::walks::cycle_from;
use surf_base::VertexId;
use surf_bits::Signature;
use surf_certcheck::step_edge;

// The set of the cocycles that a walk is odd on.
fn walk_sum(case: &SheetCase<'_>, walk: &[VertexId]) -> Signature
    requires ready { IsReady case.now }
    requires closed { IsClosedList case.now.mesh.now walk.now }
    ensures sum { result ≡ walk_set case.now.mesh.now case.now.cert.now walk.now }
{
    let mut sum = Signature::zero();
    for i in 0..walk.len() - 1 {
        add_set(case, step_edge(case.mesh, walk, i), &mut sum);
    }
    sum
}

// Whether a cycle is odd on the cocycle with its number and on no later one.
fn is_paired(case: &SheetCase<'_>, place: usize) -> bool
    requires ready { IsReady case.now }
    requires place { place < length case.now.cert.now.cycles }
    ensures paired { Tells result (IsPaired case.now.mesh.now case.now.cert.now place) }
{
    let sum = walk_sum(case, cycle_from(case.cert, place));
    let own = place as u32;
    match last_in(&sum.bits(), own, case.cert.cycles().len() as u32) {
        None => false,
        Some(last) => last == own,
    }
}

/// The least place of a cycle that isn't paired.
pub(crate) fn first_unpaired(case: &SheetCase<'_>) -> Option<usize>
    requires ready { IsReady case.now }
    ensures first { FindsFirst (length case.now.cert.now.cycles)
        (IsPaired case.now.mesh.now case.now.cert.now) result }
{
    for place in 0..case.cert.cycles().len() {
        if !is_paired(case, place) {
            return Some(place);
        }
    }
    None
}
