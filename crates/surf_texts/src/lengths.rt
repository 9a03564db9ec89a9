//! The lines of length files and of bases.
ghost use Rattle.std.specs.Prelude.{◌≡◌, string_bytes, IfOk};
ghost use Rattle.surf_texts.specs.Cause.{line_of};
ghost use Rattle.surf_texts.specs.LengthLines.{length_cause};
ghost use Rattle.surf_texts.specs.CountLines.{of_line};

use std::alloc::{AllocError, Global};
use surf_lengths::LengthFault;
use surf_text::numbered;

/// The line of a fault in a length file.
pub(crate) fn length_line(alloc: Global, fault: &LengthFault) -> Result<String, AllocError>
    ensures { IfOk result (λ line. string_bytes line ≡ line_of (length_cause fault.now)) }
{
    match fault {
        LengthFault::Form { line } => numbered(alloc, "lengths: form", &[*line]),
        LengthFault::Range { line } => numbered(alloc, "lengths: range", &[*line]),
        LengthFault::NotEdge { line } => numbered(alloc, "lengths: not-edge", &[*line]),
        LengthFault::Twice { line, earlier } => {
            numbered(alloc, "lengths: twice", &[*line, *earlier])
        }
        LengthFault::Missing { u, v } => {
            numbered(alloc, "lengths: missing", &[u.number(), v.number()])
        }
        LengthFault::Memory => String::from_str(alloc, "memory\n"),
    }
}

/// The line of a base that is no vertex.
pub(crate) fn base_line(alloc: Global, base: u32, vertices: u32) -> Result<String, AllocError>
    ensures { IfOk result (λ line. string_bytes line ≡ of_line "base: " base vertices) }
{
    format!(in alloc; "base: {base} of {vertices}\n")
}
