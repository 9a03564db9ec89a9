//! Tests of meshes: edges, turnings and rings of surfaces, discs, slits and lengths that are made.
//! The crate has tests alone.
#![tactic(auto)]

#[cfg(test)]
mod discs;
#[cfg(test)]
mod edges;
#[cfg(test)]
mod made;
#[cfg(test)]
mod slits;
#[cfg(test)]
mod surfaces;
