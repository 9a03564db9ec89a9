//! The records of certificates that a system of loops or a basis of cycles is least.
//!
//! A certificate is plain data: trees of shortest walks with distances and parents, a tree of faces
//! with depths and sides, the edges that are left, and the cycles of a basis. A certificate by
//! sheets has cycles, cocycles and sheets in their place. Nothing of it is trusted here: whether a certificate is valid for a mesh is asked elsewhere. Contracts see each
//! record as the record of its plain lists, so two certificates are the same where these lists are.
//!
//! Searches make such records and a checker reads them, so no file format stands below them: the
//! texts of certificates are read and written in `surf_cert`, above this crate. A text has bounds
//! of its own, and which records fit them is said here: a distance is a whole number of 64 bits,
//! all other numbers have 32. The certificates of the choice fit, where the counts of the mesh and
//! the lengths do.
#![tactic(auto)]

mod cert;
mod rows;
mod sheets;

pub use cert::{BasisCert, Cert, LoopCert};
pub use rows::{DualRows, TreeRows};
pub use sheets::{SheetCert, SheetRow};
