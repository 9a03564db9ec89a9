//! Queues of buckets for the places below a fixed number, for searches that settle the nearest
//! first and whose steps are short.
//!
//! `Buckets` is seen as a list with, for each place, a key or nothing, and the number that it has
//! come to. `offer` gives a place a key, unless it has one that is no greater. `take_least` takes
//! out a place whose key is least. A key that is offered is no less than the one that was taken
//! last, and greater by less than the number of buckets. All memory is taken by `make`.
//!
//! `LentBuckets` is such a queue over a table of keys that is lent: a place that waits has its key
//! there, and so has a place that was taken out. A search whose distances are the keys needs no
//! table of its own for those that wait.
//!
//! They are the queue of R. Dial, "Algorithm 360: Shortest-Path Forest with Topological Ordering"
//! (1969). A place waits in the bucket of its key, modulo the number of buckets, so that all places
//! in a bucket have one key, and a walk over the buckets meets the keys in order. A bucket is a
//! circle, linked both ways, from which a place is taken out wherever it stands.
#![tactic(auto)]

mod buckets;
mod circles;
mod lent;

pub use buckets::Buckets;
pub use lent::LentBuckets;

/// How many buckets there are.
pub const BUCKETS: u32 = 4096;

// The key of a place that has none.
pub(crate) const NOTHING: u64 = u64::MAX;
