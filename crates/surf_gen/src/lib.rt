//! Meshes and lengths that are made from numbers.
//!
//! `torus` makes a torus of squares, each cut into two triangles: a surface of characteristic 0.
//! `chain` joins tori one after the other, which gives a surface of any genus from 1 on.
//! `made_lengths` gives each edge of a mesh a length from 1 to 97 that depends on its number and
//! on a scatter alone; at scatter 0 all lengths are 1.
#![tactic(auto)]

mod chains;
mod grid;
mod made;
mod tori;

pub use chains::chain;
pub use made::made_lengths;
pub use tori::torus;
