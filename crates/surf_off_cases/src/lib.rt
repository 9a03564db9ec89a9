//! Tests of what reads and writes OFF texts: the texts, the numbers in them, and sewing. The crate
//! has tests alone.
#![tactic(auto)]

#[cfg(test)]
mod numbers;
#[cfg(test)]
mod sewing;
#[cfg(test)]
mod texts;
