//! Why coordinates give no lengths.
ghost use Rattle.std.specs.Prelude.{◌≡◌, option_map, string_bytes, IfOk};
ghost use Rattle.surf_geom.specs.Lines.{fault_line};
ghost use Rattle.surf_geom.specs.declared.fault.GeomFault.TheVariants.{Memory};

use std::alloc::{AllocError, AllocFailed, Global};
use surf_base::{NoMemory, VertexId};
use surf_text::numbered;

/// Why a token has no fixed value.
#[derive(Clone, Copy, Debug, PartialEq, Eq)]
pub enum FixedFault {
    /// It isn't a decimal number.
    Form,
    /// Its amount is 10^9 or more.
    Range,
}

/// Why coordinates give no lengths. The first faulty token decides, by vertex and place, and where
/// none is faulty the least faulty edge. Places on a vertex line are counted from 0.
#[derive(Clone, Copy, Debug, PartialEq, Eq)]
pub enum GeomFault {
    /// The token isn't a decimal number.
    Form { vertex: VertexId, place: u32 },
    /// The amount of the coordinate is 10^9 or more.
    Range { vertex: VertexId, place: u32 },
    /// The edge between `u` and `v` is shorter than one unit.
    Zero { u: VertexId, v: VertexId },
    /// The edge between `u` and `v` is longer than 4,294,967,295 units.
    Great { u: VertexId, v: VertexId },
    /// There was no memory.
    Memory,
}

impl GeomFault {
    /// The line that says it. None where there was no memory for lengths.
    pub fn line(&self, alloc: Global) -> Result<Option<String>, AllocError>
        ensures line { IfOk result (λ line. option_map string_bytes line ≡ fault_line self.now) }
    {
        let (words, numbers) = match self {
            GeomFault::Form { vertex, place } => ("coordinates: form", [vertex.number(), *place]),
            GeomFault::Range { vertex, place } => ("coordinates: range", [vertex.number(), *place]),
            GeomFault::Zero { u, v } => ("coordinates: zero", [u.number(), v.number()]),
            GeomFault::Great { u, v } => ("coordinates: great", [u.number(), v.number()]),
            GeomFault::Memory => return Ok(None),
        };
        Ok(Some(numbered(alloc, words, &numbers)?))
    }
}

impl From<AllocError> for GeomFault {
    ghost from_gives = { λ _ e. e ≡ Memory };

    fn from(_: AllocError) -> GeomFault {
        GeomFault::Memory
    }
}

impl<T: Drop> From<AllocFailed<T>> for GeomFault {
    ghost from_gives = { λ _ e. e ≡ Memory };

    fn from(_: AllocFailed<T>) -> GeomFault {
        GeomFault::Memory
    }
}

impl From<NoMemory> for GeomFault {
    ghost from_gives = { λ _ e. e ≡ Memory };

    fn from(_: NoMemory) -> GeomFault {
        GeomFault::Memory
    }
}
