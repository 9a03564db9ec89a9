//! What finds a certificate by sheets that a basis is least.
//!
//! Such a certificate has cocycles that are paired with the walks of the basis, and sheets that
//! serve an end of each of their edges (`surf_sheets`). The signatures of edges by a tree of vertices
//! and one of faces are cocycles that tell all classes apart, so elimination makes paired ones of
//! them (`surf_paired`): small rows, one for each left edge, say what becomes of a signature, and
//! the signatures of all edges are read once, at the end.
//!
//! Then one vertex at each edge of a cocycle is a sheet for all numbers. What is made so passes the
//! checker (`surf_sheetcheck`), which is asked before anything is given away; that it can't refuse
//! is proved, so there is always an answer.
#![tactic(auto)]

mod basis;
mod classes;
mod edges;
mod images;
mod pairing;
mod rows;
mod sheets;
mod vertices;

pub use basis::sheet_cert;
pub use vertices::sheets_of_vertices;
