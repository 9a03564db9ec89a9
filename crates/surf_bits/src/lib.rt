//! Sets of small numbers as bits, and a sieve that tells which of them are sums of others.
//!
//! A sum of two sets has the numbers that are in exactly one of them. A set has numbers below
//! 1,024, so that it fits sixteen words of 64 bits: a [`Signature`] owns its words, [`Bits`] are
//! lent from a table, of any number of words up to sixteen, and words that aren't there count as
//! zero. Contracts see either as one number, whose bit `k` says whether `k` is in the set.
//!
//! A [`Sieve`] admits each set that is no sum of sets admitted before, so that those admitted are
//! always independent.
#![tactic(auto)]

mod bits;
mod sieve;
mod signature;
mod words;

pub use bits::Bits;
pub use sieve::Sieve;
pub use signature::Signature;
