//! Sewing, which undoes cutting: copies of one vertex become that vertex again.
//!
//! A text as `cut` writes it has a comment `# copy i from v` for each copy, which names its origin:
//! the vertex that it is a copy of. [`read_copies`] reads these lines, [`sew`] replaces each corner
//! of the mesh of copies by its origin, and [`write_sewn`] puts the mesh that this gives on a page,
//! with the vertex line of the least copy of each vertex. Vertex lines and colours are slices of
//! the text that was read; none is copied but to the page. That sewing undoes cutting is a law,
//! [`law_of_sewing`].
#![tactic(auto)]

mod copies;
mod fault;
mod first;
mod laws;
mod sewing;
mod write;

pub use copies::{CopyFault, read_copies};
pub use fault::SewFault;
pub use laws::law_of_sewing;
pub use sewing::sew;
pub use write::write_sewn;
