//! Tests of the crates below the meshes, and of texts of certificates: files and sinks, rows, bits,
//! heaps, buckets, texts. The crate has tests alone.
#![tactic(auto)]

#[cfg(test)]
mod base;
#[cfg(test)]
mod bits;
#[cfg(test)]
mod buckets;
#[cfg(test)]
mod cert;
#[cfg(test)]
mod heap;
#[cfg(test)]
mod rows;
#[cfg(test)]
mod text;
