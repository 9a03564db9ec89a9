//! Why a certificate isn't valid.
ghost use Rattle.std.specs.Prelude.{◌≡◌};
ghost use Rattle.surf_treecheck.specs.declared.fault.CertFault.TheVariants.{Memory};

use std::alloc::AllocError;
use surf_base::{FaceId, NoMemory, VertexId};

/// A part of a certificate whose size or base doesn't fit the mesh.
#[derive(Clone, Copy, Debug, PartialEq, Eq)]
pub enum CertPart {
    /// The rows of vertices.
    Vertices,
    /// The rows of faces.
    Faces,
    /// The left pairs, or the cycles.
    Loops,
    /// The base of a tree.
    Base,
}

/// The first fault of a certificate, each with its least witness. The variants come in the order in
/// which they are tested.
#[derive(Clone, Copy, Debug, PartialEq, Eq)]
pub enum CertFault {
    /// The first part that doesn't fit the mesh.
    Shape {
        part: CertPart,
    },
    /// The base has a parent, or another vertex has none or one that isn't its neighbour.
    Parent {
        base: VertexId,
        vertex: VertexId,
    },
    /// The base's distance isn't 0, or another vertex's isn't its parent's and the length of the
    /// edge to it.
    Distance {
        base: VertexId,
        vertex: VertexId,
    },
    /// The distances of an edge's ends differ by more than its length.
    Slack {
        base: VertexId,
        u: VertexId,
        v: VertexId,
    },
    /// Face 0 has a side or a depth other than 0, or another face has no side, one that isn't its
    /// own, or a depth other than one more than that of the face across.
    Dual {
        face: FaceId,
    },
    /// A pair that is listed as left isn't an edge, or an edge isn't in just one of the tree, the
    /// tree of faces and the list.
    Split {
        u: VertexId,
        v: VertexId,
    },
    /// Between the two faces of a left edge stands an edge of the tree of faces whose loop is
    /// shorter.
    Heavier {
        left: (VertexId, VertexId),
        cotree: (VertexId, VertexId),
    },
    /// A cycle is empty, or has neighbours that no edge joins, or its ends differ. Cycles are
    /// counted from 0.
    NotClosed {
        place: u32,
    },
    /// A cycle's signature is a sum of those before it.
    Dependent {
        place: u32,
    },
    /// The signature of an edge's loop isn't a sum of those of cycles that are no longer.
    Uncovered {
        base: VertexId,
        u: VertexId,
        v: VertexId,
    },
    /// The memory didn't suffice.
    Memory,
}

impl From<NoMemory> for CertFault {
    ghost from_gives = { λ _ e. e ≡ Memory };

    fn from(_: NoMemory) -> CertFault {
        CertFault::Memory
    }
}

impl From<AllocError> for CertFault {
    ghost from_gives = { λ _ e. e ≡ Memory };

    fn from(_: AllocError) -> CertFault {
        CertFault::Memory
    }
}
