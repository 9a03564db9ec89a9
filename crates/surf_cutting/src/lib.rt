//! What is answered of cuts: a surface cut open, the mesh before a cut, and whether a mesh is a disc.
#![tactic(auto)]

pub mod commands;
mod cut;
mod disc;
mod points;
mod sewing;
