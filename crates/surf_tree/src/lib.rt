//! Trees of shortest walks.
//!
//! A desk holds the tables of one tree and takes all its memory when it is made, so that trees
//! at many bases are grown on it one after the other. `grow` settles the vertices from the base
//! on, the nearest first (E. W. Dijkstra, "A note on two problems in connexion with graphs",
//! 1959), with a heap in place of his search for the nearest, or with buckets where no edge is as
//! long as there are buckets. Where all edges have one length, the list of settled vertices itself
//! is the queue of a breadth-first search (E. F. Moore, "The shortest path through a maze", 1959),
//! and there is no heap. The parent of a vertex is its least neighbour from which an edge leads to
//! its distance, whatever the order in which the vertices were settled. So there is one tree for
//! each base.
//!
//! Distances are below 2^62, since there are fewer than 2^30 vertices and no length has more
//! than 32 bits.
#![tactic(auto)]

mod desk;
mod even;
mod network;
mod parents;
mod search;
mod short;

pub use desk::TreeDesk;
pub use even::{even_length, greatest_length};
pub use network::Network;
pub use parents::least_tight;
pub use search::settle;
