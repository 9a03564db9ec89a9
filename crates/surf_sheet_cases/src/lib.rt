//! Certificates by sheets of small surfaces, whose totals were worked out by hand. The crate has
//! tests alone.
#![tactic(auto)]

#[cfg(test)]
mod sheets;
