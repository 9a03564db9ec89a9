//! The choice among candidates for a basis, made part by part.
//!
//! A candidate is a loop of an edge with its signature, and candidates are in the order of length,
//! base and edge. The choice keeps each that is independent of those before it. It is made from
//! lists of candidates, one after the other, each in order: what a list offers is merged with what
//! was kept so far, and from them the choice is made again, from the place on where it first
//! changes. So no more candidates are held than may be independent.
//!
//! Whether a candidate is independent of others is told by their signatures. These are reduced by
//! rows, one for each candidate that is kept, whose greatest numbers differ, and the first rows
//! tell what is a sum of the first signatures.
//!
//! Where as many are kept as may be independent, none that comes after the last one can be kept any
//! more: this one is the limit of a [`Choice`].
#![tactic(auto)]

mod candidate;
mod choosing;
mod echelon;
mod merging;

pub use candidate::{Candidate, Signed, comes_before, copy_of};
pub use choosing::Choice;
