//! Loops, trees of faces, covers and openings of small surfaces, with answers that were worked out
//! by hand. The crate has tests alone.
#![tactic(auto)]

#[cfg(test)]
mod duals;
#[cfg(test)]
mod loops;
#[cfg(test)]
mod openings;
