//! Lengths of edges: whole numbers from 1 to 4,294,967,295, one for each edge of a mesh.
//!
//! They are read from a length file, whose lines `u v n` give the edge between the vertices `u`
//! and `v` the length `n`. A file of version 2 begins with the line `SURFLEN 2`, and its next
//! line may be `default n`, which gives `n` to the edges without a line. Every other file is of
//! version 1, in which each edge has a line. The table of a reading is a number of 32 bits for each
//! edge: its length, and 0 until a line names it. Which line that is isn't kept: where a later line
//! names the edge again, the text is read anew.
#![tactic(auto)]

mod fault;
mod file;
mod lengths;
mod line;
mod plain;

pub use fault::LengthFault;
pub use file::read_lengths;
pub use lengths::{Lengths, unit_lengths};
