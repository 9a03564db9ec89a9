//! The commands that take walks.

pub mod class;
pub mod same;
pub mod shortest;
