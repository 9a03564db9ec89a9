//! What is answered of closed walks: their classes, how two differ, and a shortest walk of a class.
#![tactic(auto)]

mod classes;
pub mod commands;
mod desk;
mod walk;
