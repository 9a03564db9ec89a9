//! A loop by its edge.

use surf_base::EdgeId;

/// A loop of a system: the edge that closes it with the tree, and its length.
#[derive(Clone, Copy, Debug, PartialEq, Eq)]
pub struct LoopHead {
    pub edge: EdgeId,
    pub length: u64,
}
