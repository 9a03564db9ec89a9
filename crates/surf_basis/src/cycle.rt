//! A cycle by its base and its edge.

use surf_base::{EdgeId, VertexId};
use surf_mesh::Walk;

/// The loop that an edge closes with the tree of shortest walks from a base, where no vertex stands
/// twice but the base, first and last.
#[derive(Drop)]
pub struct Cycle {
    pub base: VertexId,
    pub edge: EdgeId,
    pub length: u64,
    pub walk: Walk,
}
