//! The classes of closed walks, with evidence that anybody can check by counting.
//!
//! The parity of a walk is the set of edges that it runs an odd number of times. A closed walk is
//! null where its parity is the boundary of some set of faces, and such a set is its evidence.
//! Where it isn't null, the evidence is a set of edges of which each face has an even number as
//! sides, while the parity has an odd number of them: then the parity is no boundary, since each
//! boundary has an even number of them. The same goes for two walks, with the edges that are in
//! exactly one of their parities.
//!
//! `classify` finds evidence in time linear in the mesh and the walks, with a tree of the faces. The
//! faces are told apart along the tree, a face from the face that it hangs on where the edge between
//! them is in the parity. The walk is null where each left edge, one in neither tree, is in the
//! parity exactly where its two faces are told apart. Else the first left edge where that fails is
//! the least number of the sum of the signatures of the walk's steps, and the edges whose signature
//! has it are the evidence. `check_class` stands on no search: it counts.
//!
//! A walk is read from a file by `read_walk`, a list of vertices by `read_points`, evidence by
//! `read_evidence`. What a text gives, or its first fault, is one definition over the list of its
//! lines.
#![tactic(auto)]

mod check;
mod cocycle;
mod edges;
mod evidence;
mod fault;
mod finding;
mod flagged;
mod laws;
mod numbers;
mod parity;
mod points;
mod read;
mod sides;
mod walk;
mod write;

pub use check::check_class;
pub use evidence::{Evidence, FaceList, PairList};
pub use fault::{ClassFault, EvidenceFault, WalkFault};
pub use finding::classify;
pub use laws::law_of_reread;
pub use points::{PointFault, read_points};
pub use read::read_evidence;
pub use walk::read_walk;
pub use write::write_evidence;
