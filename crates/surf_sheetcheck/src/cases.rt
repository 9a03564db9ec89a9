//! What is judged, and what is to be done for one sheet.

use surf_base::VertexId;
use surf_lengths::Lengths;
use surf_mesh::HalfMesh;
use surf_records::{SheetCert, SheetRow};
use surf_signatures::VertexSets;

/// A certificate whose walks are right, with its tables: the lengths of the walks, for each edge
/// the place of its ends in the list of edges, and for each place of that list the set of the
/// numbers there. A table of sets by vertex serves for these, with the places as its numbers.
#[derive(Drop)]
pub(crate) struct SheetCase<'c> {
    pub(crate) mesh: &'c HalfMesh,
    pub(crate) lengths: &'c Lengths,
    pub(crate) cert: &'c SheetCert,
    pub(crate) sizes: Vec<u128>,
    pub(crate) slots: Vec<u32>,
    pub(crate) sets: VertexSets,
}

/// A sheet, with how far from its part distances are told, and the vertices of the part.
#[derive(Drop)]
pub(crate) struct Task<'c> {
    pub(crate) row: &'c SheetRow,
    pub(crate) limit: u128,
    pub(crate) part: Vec<VertexId>,
}
