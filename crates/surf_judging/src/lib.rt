//! Whether a certificate or evidence of a file is right.
#![tactic(auto)]

pub mod commands;
mod evidence;
mod verdicts;
