//! Whether the trees and the left edges of a certificate are what they claim to be.
//!
//! What certificates of loops and of bases have in common is tested here, row by row against the
//! mesh and the lengths: whether the lists have the sizes that the mesh asks for (shape), whether
//! rows of vertices are a tree of shortest walks (tree), and those of all bases (trees), whether
//! rows of faces are a tree of the faces (dual), and whether the two trees and the left pairs
//! divide the edges (marks, split). Each search for a fault answers the least one. Where a tree of
//! faces is one, its links are tables of numbers (links), by which ways through it are gone.
//! [`CertFault`] is the first fault of a certificate of either kind, in the order in which they are
//! tested.
//!
//! Whether loops could be exchanged and whether cycles are a basis is asked in `surf_certcheck`,
//! above. No search and no text of certificates stands below this crate: it reads the records of
//! `surf_records` by the conditions of `surf_validity`.
#![tactic(auto)]

mod dual;
mod edges;
mod fault;
mod links;
mod marks;
mod shape;
mod split;
mod tree;
mod trees;

pub use dual::first_dual;
pub use edges::{edge_between, edge_up, ends_inside, faces_inside};
pub use fault::{CertFault, CertPart};
pub use links::{Links, link_faces, step_up};
pub use shape::{basis_shape, is_full_count, loop_shape, tree_from};
pub use split::{Marks, first_split, mark_edges};
pub use tree::{first_distance, first_parent, first_short_cut};
pub use trees::trees_fault;
