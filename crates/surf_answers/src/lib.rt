//! What is answered: its definitions, how each command comes to it, and the steps that commands share.
#![tactic(auto)]

mod answered;
mod info;
mod lengths;
mod limits;
mod made;
mod reading;
mod surfaces;
mod walks;

pub use answered::{Answered, Verdict};
pub use info::{info_of, kind_info_of, loop_count};
pub use lengths::{base_of, lengths_named};
pub use limits::{at_most, test_loops};
pub use made::{build, build_surface, test_faces, test_search, test_shape_loops, test_vertices};
pub use reading::{
    kind_at, mesh_at, read_file, read_front, read_mesh, surface_at, surface_of, surface_through,
};
pub use surfaces::{measured_surface, small_surface};
pub use walks::walk_named;
