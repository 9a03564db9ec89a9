//! Why a certificate of a basis by sheets isn't valid.
ghost use Rattle.std.specs.Prelude.{◌≡◌};
ghost use Rattle.surf_sheetcheck.specs.declared.fault.SheetFault.TheVariants.{Memory};

use std::alloc::AllocError;
use surf_base::{FaceId, NoMemory, VertexId};
use surf_treecheck::CertPart;

/// The first fault of a certificate by sheets, each with its least witness. The variants come in
/// the order in which they are tested. Cycles, sheets and faces are counted from 0.
#[derive(Clone, Copy, Debug, PartialEq, Eq)]
pub enum SheetFault {
    /// The first count that isn't that of the mesh.
    Shape {
        part: CertPart,
    },
    /// A cycle is empty, or has neighbours that no edge joins, or its ends differ.
    NotClosed {
        place: u32,
    },
    /// A cycle is shorter than the one before it.
    Falling {
        place: u32,
    },
    /// A pair that has numbers is no edge.
    Pair {
        u: VertexId,
        v: VertexId,
    },
    /// An odd number of the sides of a face are in some cocycle.
    Cocycle {
        face: FaceId,
    },
    /// A cycle isn't odd on the cocycle with its number, or is odd on a later one.
    Unpaired {
        place: u32,
    },
    /// A sheet has no numbers, or numbers of no cycle, or a part that isn't there.
    Form {
        sheet: u32,
    },
    /// A sheet doesn't hold at an edge.
    Short {
        sheet: u32,
        u: VertexId,
        v: VertexId,
    },
    /// For some cocycle that an edge is in no sheet has an end of it within its margin.
    Unserved {
        u: VertexId,
        v: VertexId,
    },
    /// The memory didn't suffice.
    Memory,
}

impl From<NoMemory> for SheetFault {
    ghost from_gives = { λ _ e. e ≡ Memory };

    fn from(_: NoMemory) -> SheetFault {
        SheetFault::Memory
    }
}

impl From<AllocError> for SheetFault {
    ghost from_gives = { λ _ e. e ≡ Memory };

    fn from(_: AllocError) -> SheetFault {
        SheetFault::Memory
    }
}
