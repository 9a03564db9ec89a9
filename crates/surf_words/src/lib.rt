//! The words of the command line, and the command that they are.
#![tactic(auto)]

mod cuts;
mod decimals;
mod shape;
mod words;

pub use cuts::CutWords;
pub use decimals::Decimals;
pub use shape::Shape;
pub use words::{Command, HELP, VERSION, parse};
