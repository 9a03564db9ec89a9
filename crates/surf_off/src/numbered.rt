//! Ids by the numbers that texts have in their place.
ghost use Rattle.std.specs.Prelude.{◌≡◌, ℕ};

use surf_base::{CopyId, VertexId};

/// An id with a number. A face's line has the numbers of its corners, be they vertices or copies
/// of vertices, so what writes it is written once, for both.
pub(crate) trait Numbered: Copy {
    // the number of an id
    ghost number: { Self → ℕ };

    /// Its number.
    fn number(self) -> u32
        ensures { result ≡ number self };
}

impl Numbered for VertexId {
    ghost number = { λ v. v };

    #[inline]
    fn number(self) -> u32 {
        VertexId::number(self)
    }
}

impl Numbered for CopyId {
    ghost number = { λ c. c };

    #[inline]
    fn number(self) -> u32 {
        CopyId::number(self)
    }
}
