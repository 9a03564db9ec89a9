//! Lengths of edges from coordinates.
//!
//! A coordinate is a decimal number as tools for meshes write it, with a sign, a point and an
//! exponent if need be. Its fixed value counts units of 10^-9, cut towards zero ([`fixed`]). The
//! measure of an edge is the distance of its ends by these values, in units of 10^-k, cut to a
//! whole number: the greatest whole square root ([`root`]). All is done in whole numbers of up to
//! 128 bits, so no measure depends on rounding. [`measure`] gives each edge of a mesh its measure
//! as length, and [`write_lengths`] writes lengths as a length file that is read again as the same
//! lengths.
#![tactic(auto)]

mod fault;
mod laws;
mod measures;
mod numbers;
mod points;
mod roots;
mod values;
mod write;

pub use fault::{FixedFault, GeomFault};
pub use laws::law_of_measures;
pub use measures::measure;
pub use roots::root;
pub use values::fixed;
pub use write::write_lengths;
