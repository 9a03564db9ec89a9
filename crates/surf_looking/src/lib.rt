//! What is answered of a surface at a look: its counts, distances from a base, lengths from
//! coordinates, and meshes that are made.
#![tactic(auto)]

mod about;
pub mod commands;
mod distances;
mod meshes;

pub use about::{help, version};
