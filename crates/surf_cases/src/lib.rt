//! The program over files and streams in memory: reads and writes that fail or move few bytes, and
//! diagnostics that nobody hears.
//!
//! That each command answers what was wanted is tried on the built program, by `tools/oracles/cases`.
#![tactic(auto)]

#[cfg(test)]
mod failing;
#[cfg(test)]
mod files;
#[cfg(test)]
mod moving;
#[cfg(test)]
mod runs;
