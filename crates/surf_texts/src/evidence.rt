//! The lines of evidence.
ghost use Rattle.std.specs.Prelude.{◌≡◌, ◌≢◌, string_bytes, IfOk};
ghost use Rattle.surf_class.specs.Seen.{seen};
ghost use Rattle.surf_class.specs.declared.fault.ClassFault.TheVariants.{Memory};
ghost use Rattle.surf_texts.specs.Cause.{line_of};
ghost use Rattle.surf_texts.specs.EvidenceLines.{evidence_cause, right_line, wrong_line};

use std::alloc::{AllocError, Global};
use surf_class::{ClassFault, Evidence, EvidenceFault};
use surf_text::numbered;

/// The line of a fault in the text of evidence.
pub(crate) fn evidence_line(alloc: Global, fault: &EvidenceFault) -> Result<String, AllocError>
    ensures { IfOk result (λ line. string_bytes line ≡ line_of (evidence_cause fault.now)) }
{
    match fault {
        EvidenceFault::Header { line } => numbered(alloc, "certificate text: header", &[*line]),
        EvidenceFault::Form { line } => numbered(alloc, "certificate text: form", &[*line]),
        EvidenceFault::Trailing { line } => {
            numbered(alloc, "certificate text: trailing", &[*line])
        }
        EvidenceFault::Memory => String::from_str(alloc, "memory\n"),
    }
}

/// The line of evidence that is right.
pub fn right_line(evidence: &Evidence) -> &'static str
    ensures { result.now ≡ right_line (seen evidence.now) }
{
    match evidence {
        Evidence::Null(_) => "valid null\n",
        Evidence::Odd(_) => "valid odd\n",
    }
}

/// The line of what is wrong with evidence.
pub fn wrong_line(alloc: Global, fault: &ClassFault) -> Result<String, AllocError>
    requires { fault.now ≢ Memory }
    ensures { IfOk result (λ line. string_bytes line ≡ wrong_line fault.now) }
{
    match fault {
        ClassFault::Face { face } => numbered(alloc, "no face", &[face.number()]),
        ClassFault::Boundary { u, v } => {
            numbered(alloc, "no boundary", &[u.number(), v.number()])
        }
        ClassFault::Pair { u, v } => numbered(alloc, "no pair", &[u.number(), v.number()]),
        ClassFault::OddFace { face } => numbered(alloc, "no odd-face", &[face.number()]),
        ClassFault::Even => String::from_str(alloc, "no even\n"),
        ClassFault::Memory => unreachable!(),
    }
}
