//! The signatures of the edges of a mesh.
//!
//! Where a spanning tree of the vertices, one of the faces and a list of the edges in neither
//! divide the edges, each edge has a signature: a set of places of the listed edges, by which the
//! class of a walk is told (J. Erickson, notes on computational topology). It is empty for an edge
//! of the tree of vertices, the own place alone for a listed edge, and for an edge of the tree of
//! faces the places of those listed edges whose two faces it parts. [`Signs`] keeps the signatures
//! of all edges in a table that takes all its memory when it is made. It stands on plain tables of
//! the tree of faces, so that searches and checkers fill it alike. [`VertexSets`] is a table of
//! such sets by vertex.
#![tactic(auto)]

mod rows;
mod signing;
mod signs;
mod vertex_sets;

pub use signs::Signs;
pub use vertex_sets::VertexSets;
