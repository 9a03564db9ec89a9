//! Certificates by trees and by sheets.
ghost use Rattle.std.specs.Prelude.{◌≡◌, ◌<◌, length, IfOk};
ghost use Rattle.surf_base.specs.Gives.{Gives};
ghost use Rattle.surf_text.specs.Text.{lines_of};
ghost use Rattle.surf_sheetcert.specs.Kinds.{begins_sheets, parsed_any, AnyCertFits};

use crate::line::is_sheet_header;
use crate::read::read_sheet_cert;
use std::alloc::Global;
use surf_cert::{Cert, CertText, take_cert};
use surf_records::SheetCert;
use surf_text::Lines;

/// A certificate by trees, of loops or of a basis, or one by sheets, of a basis.
#[derive(Drop)]
pub enum AnyCert {
    Trees(Cert),
    Sheets(SheetCert),
}

// Whether the first line of a text is that of a certificate by sheets.
fn begins_sheets(text: &[u8]) -> bool
    requires short { length text.now < 4294967295 }
    ensures sheets { result ≡ begins_sheets (lines_of text.now) }
{
    let mut lines = Lines::over(text);
    match lines.next_line() {
        Some(line) => is_sheet_header(line.bytes),
        None => false,
    }
}

/// Reads the text of a certificate, which its first line says to be one by trees or by sheets.
/// Refuses with the first fault of the text, or with `Memory` where there is none. The text is
/// shorter than 2^32 − 1 bytes, and goes while it is read as `take_cert` says.
pub fn take_any_cert(alloc: Global, text: Vec<u8>) -> Result<AnyCert, CertText>
    requires short { length text.items < 4294967295 }
    ensures cert { Gives CertText.Memory (λ x. x) result (parsed_any text.items) }
    ensures fits { IfOk result AnyCertFits }
{
    if begins_sheets(&text) {
        let cert = read_sheet_cert(alloc, &text)?;
        return Ok(AnyCert::Sheets(cert));
    }
    let cert = take_cert(alloc, text)?;
    Ok(AnyCert::Trees(cert))
}
