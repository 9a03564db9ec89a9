//! Why copies are not sewn.
ghost use Rattle.std.specs.Prelude.{◌≡◌};
ghost use Rattle.surf_sew.specs.declared.fault.SewFault.TheVariants.{Memory};

use std::alloc::{AllocError, AllocFailed};
use surf_base::{CopyId, FaceId, NoMemory, VertexId};

/// The first fault of a mesh of copies and their origins.
#[derive(Clone, Copy, Debug, PartialEq, Eq)]
pub enum SewFault {
    /// Of the numbers below that of the different origins, this least one is no origin.
    Gap { v: VertexId },
    /// The vertex line of this least copy differs from that of the least copy with its origin.
    Line { copy: CopyId, earlier: CopyId },
    /// Two corners of this least face have this origin. It is the first on the face that stands
    /// before.
    FaceRepeat { face: FaceId, v: VertexId },
    /// There was no memory.
    Memory,
}

impl From<AllocError> for SewFault {
    ghost from_gives = { λ _ e. e ≡ Memory };

    fn from(_: AllocError) -> SewFault {
        SewFault::Memory
    }
}

impl<T: Drop> From<AllocFailed<T>> for SewFault {
    ghost from_gives = { λ _ e. e ≡ Memory };

    fn from(_: AllocFailed<T>) -> SewFault {
        SewFault::Memory
    }
}

impl From<NoMemory> for SewFault {
    ghost from_gives = { λ _ e. e ≡ Memory };

    fn from(_: NoMemory) -> SewFault {
        SewFault::Memory
    }
}
