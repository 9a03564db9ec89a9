//! What is searched.

use crate::edge_signs::EdgeSigns;
use surf_lengths::Lengths;
use surf_mesh::HalfMesh;

/// A surface with lengths, and the signatures of its edges.
#[derive(Drop)]
pub struct SignedSurface<'a> {
    pub mesh: &'a HalfMesh,
    pub lengths: &'a Lengths,
    pub signatures: &'a EdgeSigns,
}
