//! Why a text is not an OFF file.
ghost use Rattle.std.specs.Prelude.{◌≡◌};
ghost use Rattle.surf_off.specs.declared.fault.OffFault.TheVariants.{Memory};

use std::alloc::{AllocError, AllocFailed};
use surf_base::{LimitKind, NoMemory, VertexId};

/// The first fault of a text. Lines are numbered from 1, and 0 stands for a line that isn't there.
#[derive(Clone, Copy, Debug, PartialEq, Eq)]
pub enum OffFault {
    /// The first token isn't one of the keywords.
    Header { line: u32 },
    /// The counts aren't two whole numbers.
    Counts { line: u32 },
    /// A vertex line has fewer than three tokens.
    VertexLine { line: u32 },
    /// A face line begins with no whole number from 3 on that so many tokens follow.
    FaceSize { line: u32 },
    /// The corner at this place, counted from 0, isn't the number of a vertex.
    FaceIndex { line: u32, place: u32 },
    /// This vertex stands twice on a face line.
    FaceRepeat { line: u32, vertex: VertexId },
    /// The text ends before the last face line: so many vertex and face lines are missing.
    Early { missing: u32 },
    /// A line with a token stands after the last face.
    Trailing { line: u32 },
    /// A count is greater than its limit.
    Limit { line: u32, kind: LimitKind },
    /// There was no memory.
    Memory,
}

impl From<AllocError> for OffFault {
    ghost from_gives = { λ _ e. e ≡ Memory };

    fn from(_: AllocError) -> OffFault {
        OffFault::Memory
    }
}

impl<T: Drop> From<AllocFailed<T>> for OffFault {
    ghost from_gives = { λ _ e. e ≡ Memory };

    fn from(_: AllocFailed<T>) -> OffFault {
        OffFault::Memory
    }
}

impl From<NoMemory> for OffFault {
    ghost from_gives = { λ _ e. e ≡ Memory };

    fn from(_: NoMemory) -> OffFault {
        OffFault::Memory
    }
}
