//! How far a surface is cut, and why it isn't.
ghost use Rattle.std.specs.Prelude.{◌≡◌};
ghost use Rattle.surf_cutter.specs.declared.kind.CutFault.TheVariants.{Memory as NoCutRoom};

use std::alloc::{AllocError, AllocFailed};
use surf_base::{NoMemory, VertexId};

/// How far a surface is cut.
#[derive(Debug, Drop)]
pub enum CutKind {
    /// Along all edges that the tree of the faces doesn't hold.
    Full,
    /// Along those of them that are left when the cut is trimmed: while more than two edges are cut
    /// and a vertex has exactly one of them, the greatest such vertex loses it.
    Trimmed,
    /// Along the largest set of them in which no vertex but those of the list has exactly one. The
    /// order of the list and repeats in it don't matter.
    Through(Vec<VertexId>),
}

/// Why a surface isn't cut open.
#[derive(Clone, Copy, Debug, PartialEq, Eq)]
pub enum CutFault {
    /// The cut through the vertices has fewer than two edges.
    Near,
    /// There was no memory.
    Memory,
}

impl From<NoMemory> for CutFault {
    ghost from_gives = { λ _ e. e ≡ NoCutRoom };

    fn from(_: NoMemory) -> CutFault {
        CutFault::Memory
    }
}

impl From<AllocError> for CutFault {
    ghost from_gives = { λ _ e. e ≡ NoCutRoom };

    fn from(_: AllocError) -> CutFault {
        CutFault::Memory
    }
}

impl<T: Drop> From<AllocFailed<T>> for CutFault {
    ghost from_gives = { λ _ e. e ≡ NoCutRoom };

    fn from(_: AllocFailed<T>) -> CutFault {
        CutFault::Memory
    }
}
