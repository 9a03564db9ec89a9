//! A surface that is slit along some of its edges.
//!
//! The corners at a vertex hang together through the uncut edges there. `Slit` keeps one number for
//! each corner, its label: two corners have one label exactly where they are at one vertex and a
//! chain of faces at that vertex, neighbours sharing an uncut edge there, joins their faces. The
//! labels are the numbers from 0 up to their count, each in use.
//!
//! Round a vertex the faces and the edges take turns, so what hangs together is a run of faces
//! between two cut edges. `labels_along` numbers the runs of all vertices in one pass, and
//! `Slit::along` keeps these labels. `Slit::cut_edge` cuts one edge more: at each of its ends it
//! gives the run behind the edge, up to the next cut edge, a label of its own, unless the edge is
//! the only one that is cut there. A label is the number of a copy of its vertex, in an order that
//! depends on the cuts.
#![tactic(auto)]

mod labelling;
mod slit;
mod splitting;

pub use slit::{Slit, labels_along};
