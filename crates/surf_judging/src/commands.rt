//! The commands that judge certificates and evidence.

pub mod check;
pub mod confirm;
