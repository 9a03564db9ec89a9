//! Points in space.

/// A point, by the fixed values of its coordinates.
#[derive(Clone, Copy)]
pub(crate) struct Point {
    pub(crate) x: i64,
    pub(crate) y: i64,
    pub(crate) z: i64,
}
