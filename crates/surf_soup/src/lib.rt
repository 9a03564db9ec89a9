//! Soups of faces, and the tables that decide whether one is a surface.
//!
//! A [`Soup`] is a number of vertices and a list of faces over them, as a file gives it. It is seen
//! as a mesh: the number of its vertices, and each face as the list of its corners.
//!
//! A side is a pair of neighbours around a face. Sides are numbered in the order of faces and
//! corners, so those of a face follow one another. An edge is the unordered pair of a side's ends;
//! edges are numbered in the order of (lesser end, greater end). On a surface each edge has exactly
//! two sides, and each is the other's mate. The ring of a vertex has the sides that begin there,
//! one a face, in the order round it; the list of its edges goes with it.
//!
//! The sides are put into a row for each vertex that is their lesser end, in linear time, and each
//! row is sorted by greater end and number. Where each edge has two sides they stand side by side
//! there, so `pair_sides` reads a [`Pairing`] off the rows in one pass: the edges, the lesser side
//! of each, and the mate and the edge of each side. The edge table is built for any soup: one pass
//! over the rows lists the edges, the sides of each and the edge of each side. `paired_sides` asks
//! for it only where some edge hasn't two faces, to find the least. `mated_sides` reads the mates
//! alone off the rows, for what asks for no edges. Where each face has three sides the face of a
//! side is its number by three, and [`SideFaces`] keeps no table.
//!
//! The functions behind `paired_sides` each decide one property of a surface and find the least
//! place where it fails: `find_isolated`, `find_rings` and `find_apart`. A surface check calls them
//! in turn and hands their tables to the mesh, so that nothing is built twice. Where no rings are
//! wanted, `find_pinch` makes the same rounds as `find_rings` and lists nothing; `find_pinch_by`
//! does so by mates alone.
//!
//! The tables are those of half-edges, as in D. E. Muller and F. P. Preparata, "Finding the
//! intersection of two convex polyhedra" (1978). A ring is found by turning from each side to the
//! next one at the same vertex, from the least side there, which needs no orientation of the faces.
//! Where all rings together leave a side out, its vertex is pinched. Whether all faces hang
//! together is told by parents: one pass over the sides joins the faces of each edge.
#![tactic(auto)]

mod apart;
mod darts;
mod entries;
mod forest;
mod mated;
mod pairing;
mod pairs;
mod reaching;
mod rings;
mod side_faces;
mod soup;
mod tables;
mod turned;
mod vertices;

pub use apart::find_apart;
pub use mated::{MatedSides, mated_sides};
pub use pairing::{Pairing, pair_sides};
pub use pairs::{PairFault, face_in, first_row, pair_edges, paired_sides};
pub use reaching::{first_unmarked, reach};
pub use rings::{Pinch, Rings, find_pinch, find_pinch_by, find_rings, first_left};
pub use side_faces::SideFaces;
pub use soup::{Soup, face_span};
pub use tables::{EdgeTable, edge_table, numbers};
pub use turned::{Turn, turned_sides};
pub use vertices::{find_isolated, first_sides, vertex_sides};
