//! What is found on a surface and is least: loops at a base, bases and cycles, and certificates of
//! them.
#![tactic(auto)]

mod basis;
mod certificates;
pub mod commands;
mod cycle;
mod loops;
mod summary;
