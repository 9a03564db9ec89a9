//! Whether a mesh is a closed connected surface, and of which kind.
//!
//! `check` takes a soup of faces and gives the surface, or the first of six faults with its least
//! witness. It decides one property after another: that there is a face, that each edge is a side
//! of exactly two faces, that each vertex is in a face, that the faces at each vertex form one
//! cycle, and that the faces are connected through edges. Each takes time linear in the number of
//! sides, but for the sides at each lesser end, which are sorted, and the parents by which faces
//! are joined where some vertex other than vertex 0 has no lesser neighbour. `check_surface`
//! decides the same, and gives the surface without its rings, for what asks for none. `check_kind`
//! keeps no more than tells how many cells there are and whether there are two sides: where all
//! faces run the same way, that is the faces.
//!
//! `characteristic` is the number of vertices minus that of edges plus that of faces. `orient`
//! finds a turning, a flag for each face by which the two faces of each edge run it in opposite
//! ways, or else a chain of faces that shows that there is none. It grows a tree of the faces from
//! face 0 and gives each face the flag that its edge to the tree asks for; then either all edges
//! fit the flags, or one doesn't, and the ways from its two faces to face 0 close a one-sided
//! chain. Where there is a turning, `genus` is half of 2 minus the characteristic. The three stand
//! on `surface_characteristic`, `orient_surface` and `surface_genus`, which ask for no rings.
#![tactic(auto)]

mod answers;
mod checking;
mod counts;
mod descent;
mod face_tree;
mod growth;
mod kinds;
mod one_way;
mod orienting;

pub use answers::{Chain, ChainLink, Sides, Turning};
pub use checking::{SurfaceFault, check, check_surface};
pub use counts::{characteristic, genus, surface_characteristic, surface_genus};
pub use kinds::{Kind, check_kind};
pub use orienting::{orient, orient_surface};
