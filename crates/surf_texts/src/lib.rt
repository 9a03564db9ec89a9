//! The texts of answers, and the lines that say why there is none.
//!
//! A page refuses a text exactly where it would hold too much. So does each call here that puts a
//! text on a page, for its whole text: where a part doesn't fit, the whole doesn't.
#![tactic(auto)]

mod certificates;
mod cycles;
mod discs;
mod distances;
mod evidence;
mod laws;
mod lengths;
mod lines;
mod loops;
mod meshes;
mod numbers;
mod points;
mod refusal;
mod sewing;
mod summaries;
mod verdicts;
mod walks;

pub use cycles::{put_cycle, put_cycles_head};
pub use discs::{disc_text, no_line};
pub use distances::put_distances;
pub use evidence::{right_line, wrong_line};
pub use laws::law_of_reread_answers;
pub use loops::{put_loop, put_loops_head};
pub use numbers::put_line;
pub use refusal::Refused;
pub use summaries::{counts_text, crosscaps_text, genus_text, kind_counts_text, measures_text};
pub use verdicts::{basis_line, fault_line, loops_line};
pub use walks::WalkFile;
