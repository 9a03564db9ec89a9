//! Small surfaces and other meshes of triangles that tests try things on: tables of faces, the soup
//! and the surface that a table makes, and texts.
#![tactic(auto)]

mod faces;
mod soups;
mod texts;

pub use faces::{Faces, open, pillow, projective, seven, tetrahedron, torus};
pub use soups::{soup, surface};
pub use texts::{scattered, unit};
