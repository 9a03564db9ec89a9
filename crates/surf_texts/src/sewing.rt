//! The lines of copies and of sewing.
ghost use Rattle.std.specs.Prelude.{◌≡◌, string_bytes, IfOk};
ghost use Rattle.surf_texts.specs.Cause.{line_of};
ghost use Rattle.surf_texts.specs.SewingLines.{copy_cause, sew_cause};
ghost use Rattle.surf_texts.specs.CountLines.{of_line};

use std::alloc::{AllocError, Global};
use surf_sew::{CopyFault, SewFault};
use surf_text::numbered;

fn copy_count_line(alloc: Global, have: u32, vertices: u32) -> Result<String, AllocError>
    ensures { IfOk result (λ line. string_bytes line ≡ of_line "sew: copy-count " have vertices) }
{
    format!(in alloc; "sew: copy-count {have} of {vertices}\n")
}

/// The line of a fault of the copy lines, where there are so many copies.
pub(crate) fn copy_line(
    alloc: Global,
    fault: &CopyFault,
    vertices: u32,
) -> Result<String, AllocError>
    ensures { IfOk result (λ line. string_bytes line ≡ line_of (copy_cause vertices fault.now)) }
{
    match fault {
        CopyFault::CopyForm { line } => numbered(alloc, "sew: copy-form", &[*line]),
        CopyFault::CopyCount { have } => copy_count_line(alloc, *have, vertices),
        CopyFault::Memory => String::from_str(alloc, "memory\n"),
    }
}

/// The line of a fault of sewing.
pub(crate) fn sew_line(alloc: Global, fault: &SewFault) -> Result<String, AllocError>
    ensures { IfOk result (λ line. string_bytes line ≡ line_of (sew_cause fault.now)) }
{
    match fault {
        SewFault::Gap { v } => numbered(alloc, "sew: gap", &[v.number()]),
        SewFault::Line { copy, earlier } => {
            numbered(alloc, "sew: line", &[copy.number(), earlier.number()])
        }
        SewFault::FaceRepeat { face, v } => {
            numbered(alloc, "sew: face-repeat", &[face.number(), v.number()])
        }
        SewFault::Memory => String::from_str(alloc, "memory\n"),
    }
}
