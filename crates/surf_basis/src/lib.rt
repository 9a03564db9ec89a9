//! Shortest bases of the closed walks of a surface, and its shortest cycles that don't separate it.
//!
//! The candidates for a basis are the least systems of loops at all vertices, in the order of
//! length, base and edge. A basis of least total keeps each candidate that is independent of those
//! before it (J. Erickson and K. Whittlesey, "Greedy Optimal Homotopy and Homology Generators",
//! SODA 2005), and the first candidate is a shortest cycle that doesn't separate the surface.
//!
//! The bases that the basis needs are found first (`surf_search`): searches find loops whose
//! lengths and least vertices are the lengths and the bases of the loops of the basis. One way of
//! searching needs vertices such that every closed walk that isn't null meets one of them. Where
//! lengths differ these are the vertices of a cut: the ends of the left edges and the vertices on
//! their ways up the tree, without which the surface is an open disc. They lie along shortest ways
//! and close together, so that many are passed over. Where all lengths are the same nothing is
//! passed over, and they are ends of the edges whose signatures aren't empty, which are fewer: a
//! closed walk that isn't null has such an edge.
//!
//! Then the bases so found are gone through one by one. A search near each, no farther than half
//! the greatest length that was found for it, finds the loops of edges there: the first independent
//! ones by length and edge are those that are chosen at the base. Those of them with the length of
//! one that was found for this base are offered to the choice among candidates, which `surf_choice`
//! makes part by part: no more of them are held than a basis has, and no tree of the whole surface
//! is grown. The walks of the loops that are kept then are read off the tables of that search, and
//! that of a loop is dropped when the loop is. The first cycle needs the first of the loops that
//! searches from these vertices find, and then the loops at its base alone.
//!
//! A certificate of the basis has the trees at all vertices, which are grown again for it one after
//! the other, and shows that the basis is least to a checker that searches nothing.
#![tactic(auto)]

mod base_loops;
mod bases;
mod basis;
mod cert;
mod cut;
mod cycle;
mod cycles;
mod desk;
mod ends;
mod shortest;

pub use basis::least_basis;
pub use cert::basis_cert;
pub use cycle::Cycle;
pub use shortest::least_nonseparating;
