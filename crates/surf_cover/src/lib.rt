//! Shortest walks in the class of a closed walk.
//!
//! Closed walks are in one class where the edges that exactly one of them runs an odd number of
//! times are the boundary of a set of faces. The signature of an edge is the set of left edges that
//! a tree of faces gives it, and closed walks are in one class exactly where the sums of the
//! signatures along them are the same. So the search goes over the cover: its nodes are the
//! vertices with each set of left edges, and an edge with signature `s` leads from `u` with a set
//! to its other end with the sum of the set and `s`. A walk from a vertex with no left edge to the
//! same vertex with a set is a closed walk of that class. (J. Erickson and A. Nayyeri, "Minimum
//! cuts and shortest non-separating cycles via homology covers", SODA 2011.)
//!
//! Of the shortest walks in a class one is chosen, in words that speak of no cover: it begins at
//! the least vertex at which one begins, and its vertices are chosen from the end backwards, each
//! the least that stands just before those after it. It is read back from the distances of a search
//! at that vertex. Which vertex that is, searches from few others tell: a walk whose signature has
//! a number runs an edge whose signature has it, so it goes by way of that edge's lesser end. They
//! go no farther than the best length so far, since what is farther is on no walk that is as short.
//!
//! The nodes are two to the power of the number of left edges times the vertices, so there may be
//! at most 16 left edges and 16,777,216 nodes.
#![tactic(auto)]

mod choice;
mod desk;
mod network;
mod reading;
mod rounds;
mod search;
mod signs;

pub use choice::{ClassWalk, least_in_class};
pub use desk::CoverDesk;
