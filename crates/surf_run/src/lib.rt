//! The program as one call.
#![tactic(auto)]

mod commands;
mod laws;
mod saying;
mod top;

pub use laws::{law_of_named_files, law_of_one_answer, law_of_two_runs};
pub use saying::{MEMORY, say};
pub use top::{USAGE, run};
