//! Whether certificates of loops and of bases are valid, by their conditions alone.
//!
//! `check_loops` reads each row and pair of a certificate against the mesh and the lengths and
//! stands on no search. What both kinds of certificates have in common, their trees and how these
//! divide the edges, is tested by `surf_treecheck`; here follows whether an edge on the way through
//! the tree of faces between the two faces of a left edge has a shorter loop (tops for all left
//! edges at once, heavier for one). The first condition that fails is named with its least witness.
//! What a valid certificate shows is a law of `surf_validity`: its loops are a least loop system at
//! its base, whoever made it.
//!
//! `check_basis` has a tree at each vertex tested, and does the rest for the cycles: they are
//! closed (cycles), their signatures by the tree at vertex 0 (signing) are independent, for which
//! each gets a coordinate of its own (frame), in the order of their lengths (columns), and by these
//! coordinates, summed up along the ways of each tree (sums), each loop through it is a sum of
//! cycles that are no longer (cover, placed). The cycles
//! of a valid certificate are a least basis.
#![tactic(auto)]

mod basis;
mod cases;
mod columns;
mod coordinates;
mod cover;
mod cycles;
mod frame;
mod heavier;
mod loops;
mod placed;
mod signing;
mod sums;
mod tops;

pub use basis::check_basis;
pub use cycles::{is_closed, length_of, step_edge};
pub use loops::check_loops;
pub use surf_treecheck::{CertFault, CertPart};
