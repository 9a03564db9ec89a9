//! What every other crate stands on: the numbers of the parts of a mesh, the greatest numbers that
//! are read or written, and the outside.
//!
//! The outside is two traits. A [`Shelf`] has named files that are read one at a time, and a
//! [`Sink`] takes bytes. Each counts its own failures, so that a refusal always has a cause that a
//! caller can see: the count rose, or a name isn't held. What a shelf holds and what a sink was
//! given may be told or not; [`MemShelf`] and [`MemSink`] tell both, and a disk or a terminal tells
//! neither. [`fetch`] reads a whole file and [`put_all`] writes a whole text over any of them.
//! [`make_room`] is how a text that may become long grows, and [`reuse_room`] lets one large table
//! take the place of another.
#![tactic(auto)]

mod ids;
mod limits;
mod memory;
mod outside;
mod room;
mod transfer;

pub use ids::{CopyId, EdgeId, FaceId, NOBODY, SideId, VertexId};
pub use limits::{
    LimitKind, MAX_ANSWER, MAX_BASIS_VERTICES, MAX_CERTIFICATE_VERTICES, MAX_COVER_LOOPS,
    MAX_COVER_NODES, MAX_FACES, MAX_LARGE_COVER_LOOPS, MAX_LARGE_COVER_NODES, MAX_LOOPS, MAX_SIDES,
    MAX_TEXT, MAX_VERTICES,
};
pub use memory::{MemShelf, MemSink};
pub use outside::{Failed, NoMemory, Shelf, Sink};
pub use room::{make_room, reuse_room};
pub use transfer::{FetchFault, fetch, fetch_into, put_all};
