//! Whether a mesh is a disc.
//!
//! A disc is a mesh that could be drawn flat, without overlaps and without holes: each edge is a
//! side of one or two faces, the faces at each vertex are one fan, all faces are connected, the
//! edges with one face are one cycle, and vertices minus edges plus faces is 1. `check_disc` says
//! whether a mesh is one, with the length of its border, or names the first thing that is wrong
//! with it.
//!
//! All tests are searches in flat tables, in linear time; only the edge table sorts the sides with
//! one lesser end. Its rows say which edges are crowded and which are on the border. For each side,
//! a table says what lies across it: the other side of its edge, or the side itself where it is on
//! the border. One walk over the corners, from the first corner of each vertex across the sides
//! that end there, tells the fans; one over the faces, whether they are connected; and one over the
//! vertices along border edges, whether the border is one cycle.
#![tactic(auto)]

mod across;
mod apart;
mod border;
mod check;
mod corners;
mod fans;
mod faults;

pub use check::check_disc;
pub use faults::{BorderKind, DiscFault};
