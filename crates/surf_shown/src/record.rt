//! What is claimed, and the searches that are kept to show it.

use surf_base::VertexId;
use surf_bits::Signature;
use surf_choice::{Candidate, Choice, Signed};
use surf_lengths::Lengths;
use surf_mesh::HalfMesh;
use surf_signatures::Signs;

/// A surface with lengths and the signatures of its edges, and loops that are claimed to have the
/// places of its basis. Their ranks are a choice of as many candidates with their signatures, each
/// as long as its number, from 1 on: it tells of how many of the first loops a class is a sum.
#[derive(Clone, Copy)]
pub struct Claim<'c> {
    pub mesh: &'c HalfMesh,
    pub lengths: &'c Lengths,
    pub signatures: &'c Signs,
    pub loops: &'c [Signed],
    pub ranks: &'c Choice,
}

/// A search that was kept: from where it went, before which place it lists each loop that isn't
/// null, up to one of each class, how far from its base vertices may be that it serves, these
/// vertices, and the loops. The searches after it in its round may leave the vertices out.
#[derive(Drop)]
pub struct SearchRecord {
    pub base: VertexId,
    pub limit: Option<Candidate>,
    pub margin: u64,
    pub served: Vec<VertexId>,
    pub loops: Vec<Signed>,
}

/// A class for each vertex, by its number in a list of classes.
#[derive(Clone, Copy)]
pub struct Labels<'c> {
    pub numbers: &'c [u32],
    pub classes: &'c [Signature],
}

/// The searches of a round in their order, the number before which it shows all that the rounds
/// before it didn't, and its labels.
#[derive(Clone, Copy)]
pub struct Round<'c> {
    pub records: &'c [SearchRecord],
    pub end: u32,
    pub labels: Labels<'c>,
}
