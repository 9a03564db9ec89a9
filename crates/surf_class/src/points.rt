//! Reads vertices.
ghost use Rattle.std.specs.Prelude.{◌≡◌, ◌<◌, All, IfOk, length};
ghost use Rattle.surf_base.specs.Gives.{Gives};
ghost use Rattle.surf_class.specs.Points.{form_fault, points_in};
ghost use Rattle.surf_class.specs.declared.points.PointFault.TheVariants.{Memory as NoPointRoom};

use crate::numbers::{NumberFault, read_numbers};
use crate::walk::{as_vertices, first_stranger};
use std::alloc::{AllocError, AllocFailed, Global};
use surf_base::VertexId;
use surf_mesh::HalfMesh;
use surf_text::{Lines, Tokens};

/// Why a text names no vertices of a mesh. The first kind decides, in the order of this list, and
/// of that kind the least place. Places are counted from 0 and lines from 1.
#[derive(Clone, Copy, Debug, PartialEq, Eq)]
pub enum PointFault {
    /// No line has a token.
    Empty,
    /// The token at this place isn't a whole number of at most 4,294,967,295.
    Form { place: u32 },
    /// The number at this place is no vertex of the mesh.
    NotVertex { place: u32 },
    /// A second line has a token.
    Trailing { line: u32 },
    /// There was no memory.
    Memory,
}

impl From<NumberFault> for PointFault {
    ghost from_gives = { λ number point. point ≡ form_fault number };

    fn from(fault: NumberFault) -> PointFault {
        match fault {
            NumberFault::Bad { place } => PointFault::Form { place },
            NumberFault::Memory => PointFault::Memory,
        }
    }
}

impl From<AllocError> for PointFault {
    ghost from_gives = { λ _ e. e ≡ NoPointRoom };

    fn from(_: AllocError) -> PointFault {
        PointFault::Memory
    }
}

impl<T: Drop> From<AllocFailed<T>> for PointFault {
    ghost from_gives = { λ _ e. e ≡ NoPointRoom };

    fn from(_: AllocFailed<T>) -> PointFault {
        PointFault::Memory
    }
}

/// Reads vertices of a mesh, all on one line, in any order. The text is shorter than 2^32 − 1
/// bytes.
///
/// Refuses with the first kind of fault, in the order of [`PointFault`], at its least place, or
/// with `Memory` where there is none.
pub fn read_points(alloc: Global, text: &[u8], mesh: &HalfMesh) -> Result<Vec<VertexId>, PointFault>
    requires short { length text.now < 4294967295 }
    ensures points { Gives PointFault.Memory (λ v. v.items) result (points_in mesh.now text.now) }
    ensures inside { IfOk result (λ v. All (λ p. p < mesh.now.vertices) v.items) }
{
    let mut lines = Lines::over(text);
    let Some(line) = lines.next_line() else {
        return Err(PointFault::Empty);
    };
    let numbers = read_numbers(alloc, Tokens::over(line.bytes))?;
    if let Some(place) = first_stranger(mesh, &numbers) {
        return Err(PointFault::NotVertex { place });
    }
    let points = as_vertices(alloc, &numbers)?;
    match lines.next_line() {
        Some(line) => Err(PointFault::Trailing { line: line.number }),
        None => Ok(points),
    }
}
