//! Why a text is no walk or no evidence, and why evidence isn't right.
ghost use Rattle.std.specs.Prelude.{◌≡◌};
ghost use Rattle.surf_class.specs.Walks.{form_fault};
ghost use Rattle.surf_class.specs.declared.fault.WalkFault.TheVariants.{Memory as NoWalkRoom};
ghost use Rattle.surf_class.specs.declared.fault.EvidenceFault.TheVariants.{Memory as NoEvidenceRoom};
ghost use Rattle.surf_class.specs.declared.fault.ClassFault.TheVariants.{Memory as NoClassRoom};

use crate::numbers::NumberFault;
use std::alloc::{AllocError, AllocFailed};
use surf_base::{FaceId, NoMemory, VertexId};

/// Why a text gives no closed walk of a mesh. The first kind decides, in the order of this list,
/// and of that kind the least place. Places are counted from 0 and lines from 1.
#[derive(Clone, Copy, Debug, PartialEq, Eq)]
pub enum WalkFault {
    /// No line has a token.
    Empty,
    /// The token at this place isn't a whole number of at most 4,294,967,295.
    Form { place: u32 },
    /// The number at this place is no vertex of the mesh.
    NotVertex { place: u32 },
    /// No edge joins the vertex at this place with the next one.
    NotEdge { place: u32 },
    /// The first vertex and the last differ.
    Unclosed,
    /// A second line has a token.
    Trailing { line: u32 },
    /// There was no memory.
    Memory,
}

impl From<NumberFault> for WalkFault {
    ghost from_gives = { λ number walk. walk ≡ form_fault number };

    fn from(fault: NumberFault) -> WalkFault {
        match fault {
            NumberFault::Bad { place } => WalkFault::Form { place },
            NumberFault::Memory => WalkFault::Memory,
        }
    }
}

impl From<AllocError> for WalkFault {
    ghost from_gives = { λ _ e. e ≡ NoWalkRoom };

    fn from(_: AllocError) -> WalkFault {
        WalkFault::Memory
    }
}

impl<T: Drop> From<AllocFailed<T>> for WalkFault {
    ghost from_gives = { λ _ e. e ≡ NoWalkRoom };

    fn from(_: AllocFailed<T>) -> WalkFault {
        WalkFault::Memory
    }
}

/// Why a text is no evidence. Lines are numbered from 1, and 0 stands for a line that isn't there.
#[derive(Clone, Copy, Debug, PartialEq, Eq)]
pub enum EvidenceFault {
    /// The first token is neither `null` nor `odd`.
    Header { line: u32 },
    /// The first line with a token doesn't have the form of evidence.
    Form { line: u32 },
    /// A second line has a token.
    Trailing { line: u32 },
    /// There was no memory.
    Memory,
}

impl From<AllocError> for EvidenceFault {
    ghost from_gives = { λ _ e. e ≡ NoEvidenceRoom };

    fn from(_: AllocError) -> EvidenceFault {
        EvidenceFault::Memory
    }
}

impl<T: Drop> From<AllocFailed<T>> for EvidenceFault {
    ghost from_gives = { λ _ e. e ≡ NoEvidenceRoom };

    fn from(_: AllocFailed<T>) -> EvidenceFault {
        EvidenceFault::Memory
    }
}

/// Why evidence isn't right for a walk, each with its least witness. The kinds come in the order in
/// which they are tested.
#[derive(Clone, Copy, Debug, PartialEq, Eq)]
pub enum ClassFault {
    /// A listed face is none of the mesh.
    Face { face: FaceId },
    /// An edge is in exactly one of the walk's parity and the boundary of the faces.
    Boundary { u: VertexId, v: VertexId },
    /// A listed pair is no edge of the mesh.
    Pair { u: VertexId, v: VertexId },
    /// A face has an odd number of its sides among the listed pairs.
    OddFace { face: FaceId },
    /// The walk runs an even number of the listed pairs an odd number of times.
    Even,
    /// There was no memory.
    Memory,
}

impl From<NoMemory> for ClassFault {
    ghost from_gives = { λ _ e. e ≡ NoClassRoom };

    fn from(_: NoMemory) -> ClassFault {
        ClassFault::Memory
    }
}

impl From<AllocError> for ClassFault {
    ghost from_gives = { λ _ e. e ≡ NoClassRoom };

    fn from(_: AllocError) -> ClassFault {
        ClassFault::Memory
    }
}
