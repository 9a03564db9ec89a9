//! Length files, bases and shortest cycles of small surfaces, with answers that were worked out by
//! hand. The crate has tests alone.
#![tactic(auto)]

#[cfg(test)]
mod bases;
#[cfg(test)]
mod lengths;
