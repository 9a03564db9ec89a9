//! Whether certificates of bases by sheets are valid, by their conditions alone.
//!
//! A certificate has closed walks, cocycles and sheets. `check_sheets` reads each against the mesh
//! and the lengths and stands on no search that makes such certificates: what a valid one shows is
//! a law of `surf_sheets`, whoever made it. The walks are closed and in the order of length (walks),
//! the listed pairs are edges (pairs), the sides of each face have an even number of each cocycle
//! (cocycles), and each walk is odd on its own cocycle and on no later one (pairing). For each sheet
//! distances from its part are told as far as they matter (search), labels by the rule of the least
//! parent (labelling), and then all edges at what was come to are looked at (looks). What a sheet
//! serves is taken out of what is left of the edges (serving), of which nothing may be left. The
//! tables are put back after each sheet, so that a sheet costs what its search comes to.
#![tactic(auto)]

mod cases;
mod check;
mod cocycles;
mod desk;
mod fault;
mod forms;
mod labelling;
mod labels;
mod looks;
mod pairing;
mod pairs;
mod search;
mod serving;
mod sets;
mod shape;
mod sheets;
mod walks;

pub use check::check_sheets;
pub use fault::SheetFault;
pub use surf_treecheck::CertPart;
