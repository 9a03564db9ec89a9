//! How far a surface is to be cut.

/// How far a surface is to be cut, as the words have it.
#[derive(Clone, Copy, Debug)]
pub enum CutWords<'w> {
    /// Along the full cut.
    Full,
    /// Along the trimmed cut.
    Trimmed,
    /// Along the cut through the vertices of a file.
    Through { points: &'w str },
}
