//! Loops at one vertex after the other, on a surface whose edges have signatures.
//!
//! A [`Finder`] searches from a vertex and finds the loops of edges there, with the least vertex on
//! a shortest way to them. Of many loops of one class only the first matters. A search goes no
//! farther than half the length of its limit, since the ends of an edge are within half the length
//! of its loop. A finder bars the ways through vertices that are marked: the edges there are as
//! long as an edge may be. It writes the walks of loops, by the search that found them where this
//! was the last one.
//!
//! Whether a loop is independent of others is told by its signature, a sum over its edges of
//! signatures that one base gives for all. Edges with the same signature are of one kind, and ways
//! with the same sum have one number. So three numbers tell the class of the loop of an edge, and
//! most loops that a search meets are known by them without a sum (`keys.rt`). `EdgeSigns` has the
//! kinds alone, so the trees that told the signatures may be let go of.
#![tactic(auto)]

mod classes;
mod edge_signs;
mod finder;
mod foremost;
mod hashes;
mod keys;
mod kinds;
mod marks;
mod reached;
mod rises;
mod surface;
mod told_loops;
mod walks;
mod ways;

pub use edge_signs::EdgeSigns;
pub use finder::Finder;
pub use marks::{list_marked, scatter};
pub use reached::is_sought;
pub use surface::SignedSurface;
pub use told_loops::Ties;
pub use walks::no_walks;
