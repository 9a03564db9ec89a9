//! The lines of the texts of certificates.
ghost use Rattle.std.specs.Prelude.{◌≡◌, string_bytes, IfOk};
ghost use Rattle.surf_texts.specs.Cause.{line_of};
ghost use Rattle.surf_texts.specs.CertLines.{cert_cause};

use std::alloc::{AllocError, Global};
use surf_cert::CertText;
use surf_text::numbered;

/// The line of a fault in the text of a certificate.
pub(crate) fn cert_line(alloc: Global, fault: &CertText) -> Result<String, AllocError>
    ensures { IfOk result (λ line. string_bytes line ≡ line_of (cert_cause fault.now)) }
{
    match fault {
        CertText::Header { line } => numbered(alloc, "certificate text: header", &[*line]),
        CertText::Form { line } => numbered(alloc, "certificate text: form", &[*line]),
        CertText::Early => numbered(alloc, "certificate text: early", &[]),
        CertText::Trailing { line } => numbered(alloc, "certificate text: trailing", &[*line]),
        CertText::Memory => String::from_str(alloc, "memory\n"),
    }
}
