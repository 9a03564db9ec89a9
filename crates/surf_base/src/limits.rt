//! The greatest numbers that are read and written. A count is refused exactly where it is greater
//! than its limit.

/// Bytes of one file that is read.
pub const MAX_TEXT: u64 = 268_435_456;

/// Vertices of a mesh that is read or made.
pub const MAX_VERTICES: u32 = 1_000_000;

/// Faces of a mesh that is read or made.
pub const MAX_FACES: u32 = 2_000_000;

/// The sizes of all faces together.
pub const MAX_SIDES: u32 = 6_000_000;

/// Independent loops of a mesh: 2 − χ.
pub const MAX_LOOPS: u32 = 1_024;

/// Vertices of a mesh whose basis or shortest cycle is wanted.
pub const MAX_BASIS_VERTICES: u32 = 20_000;

/// Vertices of a mesh whose basis certificate is made or checked.
pub const MAX_CERTIFICATE_VERTICES: u32 = 1_000;

/// Bytes of one answer.
pub const MAX_ANSWER: u64 = 1_073_741_824;

/// Independent loops of a mesh in which a shortest walk of a class is wanted.
pub const MAX_COVER_LOOPS: u32 = 8;

/// Pairs of a vertex and a class that are searched for a shortest walk of a class.
pub const MAX_COVER_NODES: u32 = 65_536;

/// Independent loops where a shortest walk of a class is wanted on a larger mesh.
pub const MAX_LARGE_COVER_LOOPS: u32 = 16;

/// Pairs of a vertex and a class that are searched there.
pub const MAX_LARGE_COVER_NODES: u32 = 16_777_216;

/// What is greater than its limit.
#[derive(Clone, Copy, Debug, PartialEq, Eq)]
pub enum LimitKind {
    Text,
    Vertices,
    Faces,
    Sides,
    Loops,
    BasisVertices,
    CertificateVertices,
    Answer,
    CoverLoops,
    CoverNodes,
}
