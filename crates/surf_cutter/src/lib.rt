//! Surfaces cut open to a disc.
//!
//! A tree of the faces, in which neighbours share an edge, leaves edges uncut so that the faces
//! hang together in one piece without a hole: cut along all other edges, the surface is a disc.
//! `cut_full` cuts along all of them, and `cut_trim` takes the cut back where it ends at a vertex,
//! as long as more than two edges are cut. `cut_through` takes it back where it ends at any vertex
//! but those of a list. `Opened` is the disc: its corners are copies of the surface's vertices, numbered in the order of their vertices, and those of one vertex in the
//! order of the least faces that have them. Its border is the cut, both sides of each cut edge, and
//! it lends the border sides in one round. `OpenDisc` is the same without its border;
//! `disc_outside` gives it to what asks for none, by flags that it uses up, so that the tables of
//! the tree can go before.
#![tactic(auto)]

mod along_tree;
mod border;
mod copies;
mod cutting;
mod disc_cut;
mod faces;
mod kind;
mod opened;
mod taking;
mod trimming;

pub use along_tree::{cut_full, cut_through, cut_trim, disc_outside};
pub use kind::{CutFault, CutKind};
pub use opened::{OpenDisc, Opened};
