//! Least systems of loops at a base.
//!
//! Each edge closes a loop with a tree of shortest walks from a base. Beside that tree stands the
//! heaviest tree of faces over the other edges by the lengths of their loops, and the loops of the
//! edges in neither tree, two less the characteristic of them, are together no longer than any as
//! many independent closed walks at the base (J. Erickson and K. Whittlesey, "Greedy Optimal
//! Homotopy and Homology Generators", SODA 2005).
//!
//! A desk takes all its memory when it is made, so that the loops at many bases are found on it one
//! after the other. `BaseLoops` finds those at one base with less memory: it keeps only the edges
//! of the tree of faces. A desk's certificate, the rows of the two trees and the ends of the left
//! edges, shows that the loops are least to a checker that searches nothing.
#![tactic(auto)]

mod cert;
mod desk;
mod head;
mod heads;
mod loops;
mod ways;

pub use cert::{dual_rows, left_pairs, tree_rows};
pub use desk::LoopDesk;
pub use head::LoopHead;
pub use loops::BaseLoops;
