//! The lines of a limit, and of a fault that says its own.
ghost use Rattle.std.specs.Prelude.{◌≡◌, ◌++◌, ℕ, codes, option_map, string_bytes, IfOk};
ghost use Rattle.surf_texts.specs.Cause.{line_of, told_with};
ghost use Rattle.surf_texts.specs.Limits.{limit_name};

use std::alloc::{AllocError, Global};
use surf_base::LimitKind;

fn limit_name(kind: LimitKind) -> &'static str
    ensures { result.now ≡ limit_name kind }
{
    match kind {
        LimitKind::Text => "text",
        LimitKind::Vertices => "vertices",
        LimitKind::Faces => "faces",
        LimitKind::Sides => "sides",
        LimitKind::Loops => "loops",
        LimitKind::BasisVertices => "basis-vertices",
        LimitKind::CertificateVertices => "certificate-vertices",
        LimitKind::Answer => "answer",
        LimitKind::CoverLoops => "cover-loops",
        LimitKind::CoverNodes => "cover-nodes",
    }
}

/// The line of a limit that was passed.
pub(crate) fn limit_line(alloc: Global, kind: LimitKind) -> Result<String, AllocError>
    ensures { IfOk result (λ line. string_bytes line
        ≡ codes "limit: " ++ limit_name kind ++ codes "\n") }
{
    format!(in alloc; "limit: {}\n", limit_name(kind))
}

/// The line that a fault says of itself, or that of want of memory where it has none.
pub(crate) fn told_line(alloc: Global, line: Option<String>) -> Result<String, AllocError>
    ensures { IfOk result (λ said. (status : ℕ) → string_bytes said
        ≡ line_of (told_with status (option_map string_bytes line))) }
{
    match line {
        Some(line) => Ok(line),
        None => String::from_str(alloc, "memory\n"),
    }
}
