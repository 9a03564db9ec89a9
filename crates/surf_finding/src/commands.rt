//! The commands that find what is least.

pub mod basis;
pub mod certify_basis;
pub mod certify_loops;
pub mod cycle;
pub mod loops;
pub mod try_shape;
