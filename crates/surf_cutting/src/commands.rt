//! The commands that cut, sew and tell discs.

pub mod cut;
pub mod disc;
pub mod sew;
