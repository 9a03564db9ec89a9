//! Why a soup is no disc.
ghost use Rattle.std.specs.Prelude.{◌≡◌};
ghost use Rattle.surf_disc.specs.declared.faults.DiscFault.TheVariants.{Memory};

use surf_base::{FaceId, NoMemory, VertexId};

/// What is wrong with the border of a mesh.
#[derive(Clone, Copy, Debug, PartialEq, Eq)]
pub enum BorderKind {
    /// No edge has one face only.
    Nothing,
    /// The border edges are more than one cycle: the least border edge `u v`, and the least one
    /// outside its cycle, `s t`.
    Two {
        u: VertexId,
        v: VertexId,
        s: VertexId,
        t: VertexId,
    },
}

/// Why a mesh is no disc. The faults are in the order in which they are looked for.
#[derive(Clone, Copy, Debug, PartialEq, Eq)]
pub enum DiscFault {
    /// The least edge that is a side of three or more faces, and its three least faces.
    Crowded {
        u: VertexId,
        v: VertexId,
        faces: [FaceId; 3],
    },
    /// The least vertex in no face.
    Isolated {
        v: VertexId,
    },
    /// The least vertex whose faces aren't connected through the sides that end there, the least
    /// face at it, and the least one that isn't connected with that face.
    Pinched {
        v: VertexId,
        first: FaceId,
        second: FaceId,
    },
    /// The least face that isn't connected with face 0.
    Apart {
        face: FaceId,
    },
    /// No border, or more than one.
    Border {
        kind: BorderKind,
    },
    /// Vertices minus edges plus faces isn't 1.
    Count {
        vertices: u32,
        edges: u32,
        faces: u32,
    },
    /// There was no memory for the tables. It says nothing about the mesh.
    Memory,
}

impl From<NoMemory> for DiscFault {
    ghost from_gives = { λ _ e. e ≡ Memory };

    fn from(_: NoMemory) -> DiscFault {
        DiscFault::Memory
    }
}
