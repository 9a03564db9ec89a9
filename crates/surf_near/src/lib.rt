//! Searches that go no farther than a radius.
//!
//! `Links` has for each vertex of a mesh its neighbours, with the lengths and the numbers of the
//! edges to them side by side, and is made once for many searches. A `NearDesk` takes all its
//! memory when it is made. Before a search its tables are cleared only where the last one wrote.
//!
//! Vertices may be barred from later searches. A search still is one of the whole mesh, but each
//! edge with a barred end has the greatest length that there is: so one that goes less far doesn't
//! come to a barred vertex, unless it begins there. `unbar` removes all bars.
//!
//! A search settles the vertices from a base on, the nearest first, as far as the radius
//! (E. W. Dijkstra, "A note on two problems in connexion with graphs", 1959), with a fringe in
//! place of his search for the nearest: buckets where no edge that leads to a vertex within the
//! radius is as long as there are buckets, and else a heap. What lies past the radius never gets
//! into the fringe. Where all edges that don't lead past the radius have one length, the list of
//! settled vertices itself is the queue of a breadth-first search (E. F. Moore, "The shortest path
//! through a maze", 1959), and there is no fringe.
//!
//! Of each settled vertex the desk has the distance, the least neighbour from which an edge leads
//! to this distance, that edge, and the least vertex on any shortest way from the base. These are
//! the same as after a search of the whole mesh, whichever of the three ways was taken.
#![tactic(auto)]

mod desk;
mod even;
mod fringe;
mod links;
mod search;
mod sizes;
mod tables;

pub use desk::NearDesk;
pub use links::{Link, Links};
