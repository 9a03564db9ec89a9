//! The lines of a file of vertices and of a cut through them.
ghost use Rattle.std.specs.Prelude.{◌≡◌, string_bytes, IfOk};
ghost use Rattle.surf_texts.specs.Cause.{line_of};
ghost use Rattle.surf_texts.specs.PointLines.{near_cause, point_cause};

use std::alloc::{AllocError, Global};
use surf_class::PointFault;
use surf_text::numbered;

/// The line of a fault in a file of vertices.
pub(crate) fn point_line(alloc: Global, fault: &PointFault) -> Result<String, AllocError>
    ensures { IfOk result (λ line. string_bytes line ≡ line_of (point_cause fault.now)) }
{
    match fault {
        PointFault::Empty => numbered(alloc, "vertices: empty", &[]),
        PointFault::Form { place } => numbered(alloc, "vertices: form", &[*place]),
        PointFault::NotVertex { place } => numbered(alloc, "vertices: not-vertex", &[*place]),
        PointFault::Trailing { line } => numbered(alloc, "vertices: trailing", &[*line]),
        PointFault::Memory => String::from_str(alloc, "memory\n"),
    }
}

/// The line where the cut through vertices has fewer than two edges.
pub(crate) fn near_line(alloc: Global) -> Result<String, AllocError>
    ensures { IfOk result (λ line. string_bytes line ≡ line_of near_cause) }
{
    numbered(alloc, "vertices: near", &[])
}
