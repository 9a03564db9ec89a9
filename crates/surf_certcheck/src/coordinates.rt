//! Coordinates of edges.
ghost use Rattle.std.specs.Prelude.{◌≡◌, ◌≤◌, length};
ghost use Rattle.surf_base.specs.declared.limits.TheConstants.{MAX_LOOPS};

use surf_signatures::Signs;

/// The coordinates of all edges in which each cycle is a place alone, and for each place the length
/// of its cycle.
///
/// This is C. Jordan's elimination. The coordinates are first the signatures. One cycle after the
/// other gets a place that it has and no earlier one got: where an edge has that place, the rest of
/// the cycle is added. The map of signatures to coordinates takes sums to sums and can be undone,
/// so a signature is a sum of those of some of the cycles exactly where its coordinates are among
/// their places. At the end the places are put in the order of their cycles' lengths.
#[derive(Drop)]
pub(crate) struct Frame {
    pub(crate) signs: Signs,
    pub(crate) weights: Vec<Option<u128>>,
    ghost places: { length weights.items ≡ signs.width },
    ghost few: { signs.width ≤ MAX_LOOPS },
}
