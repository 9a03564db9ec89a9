//! Why a text gives no lengths.
ghost use Rattle.std.specs.Prelude.{◌≡◌};
ghost use Rattle.surf_lengths.specs.declared.fault.LengthFault.TheVariants.{Memory};

use std::alloc::AllocError;
use surf_base::{NoMemory, VertexId};

/// Why a text gives no lengths. The first faulty line decides, and of its faults the first in the
/// order of this list. Lines are numbered from 1.
#[derive(Clone, Copy, Debug, PartialEq, Eq)]
pub enum LengthFault {
    /// A line doesn't have its form.
    Form { line: u32 },
    /// A number that should be a length isn't from 1 to 4,294,967,295.
    Range { line: u32 },
    /// A line names a pair that is no edge of the mesh.
    NotEdge { line: u32 },
    /// A line names an edge that an earlier line names.
    Twice { line: u32, earlier: u32 },
    /// No line is faulty, there is no default, and no line names the edge between `u` and `v`. It
    /// is the least such edge.
    Missing { u: VertexId, v: VertexId },
    /// There was no memory.
    Memory,
}

impl From<NoMemory> for LengthFault {
    ghost from_gives = { λ _ e. e ≡ Memory };

    fn from(_: NoMemory) -> LengthFault {
        LengthFault::Memory
    }
}

impl From<AllocError> for LengthFault {
    ghost from_gives = { λ _ e. e ≡ Memory };

    fn from(_: AllocError) -> LengthFault {
        LengthFault::Memory
    }
}
