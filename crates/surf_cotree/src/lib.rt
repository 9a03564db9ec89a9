//! Heaviest trees of faces, and the signatures of edges by them.
//!
//! Beside a spanning tree of the vertices stands a spanning tree of the faces over the other edges,
//! and the edges that are in neither are left: two less the characteristic of them. A desk holds
//! the tables of one such tree of faces and takes all its memory when it is made, so that many are
//! grown on it one after the other.
//!
//! The other edges are few, one less than the faces and those that are left. So nearly all faces
//! hang on the rest by one edge, and such a face hangs on that edge in every tree. `grow` takes
//! these faces off one after the other, grows the tree of the faces that stay from face 0 on, each
//! time over the heaviest edge that leads on (R. C. Prim, "Shortest connection networks and some
//! generalizations", 1957), with a heap in place of his search, and hangs the others on again.
//! Where the weights are the lengths of the loops that the edges close with the tree of vertices,
//! the loops of the left edges are shortest (J. Erickson and K. Whittlesey, "Greedy Optimal
//! Homotopy and Homology Generators", SODA 2005). Only the edges between the faces that stay are
//! asked for their weights.
//!
//! Where nobody asks for the parents and depths of faces, `CotreeEdges` finds the edges of that
//! tree alone: it marks the edge of each face that is taken off or reached, and hangs nothing on
//! again.
//!
//! `sign` gives each edge its signature, a set of places of left edges, by which the class of a
//! walk is told.
#![tactic(auto)]

mod desk;
mod edges;
mod listing;
mod peeling;
mod search;
mod weights;

pub use desk::CotreeDesk;
pub use edges::CotreeEdges;
pub use weights::Weights;
