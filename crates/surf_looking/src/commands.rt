//! The commands that look at a surface or make one.

pub mod dist;
pub mod gen_shape;
pub mod info;
pub mod lengths;
