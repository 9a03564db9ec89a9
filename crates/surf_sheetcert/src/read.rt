//! Reads the text of a certificate by sheets.
ghost use Rattle.std.specs.Prelude.{◌≡◌, ◌<◌, [], length, IfOk};
ghost use Rattle.surf_base.specs.Gives.{Gives};
ghost use Rattle.surf_cert.specs.Grammar.{rows_of};
ghost use Rattle.surf_sheetcheck.specs.Fits.{SheetCertFits};
ghost use Rattle.surf_sheetcert.specs.Lines.{sheet_on};
ghost use Rattle.surf_sheetcert.specs.Grammar.{sheets_of, parts_of, made_of, behind_counts, parsed_sheets};

use crate::cocycles::read_cocycles;
use crate::line::is_sheet_header;
use crate::next::{next_count, next_sheet};
use std::alloc::Global;
use surf_cert::{CertText, Counts, next_counts, read_cycles, read_end};
use surf_records::{SheetCert, SheetRow};
use surf_rows::Rows;
use surf_text::Lines;

// So many sheets.
fn read_rows(alloc: Global, lines: &mut Lines<'_>, count: u32) -> Result<Vec<SheetRow>, CertText>
    ensures rows { Gives CertText.Memory (λ x. (x.items, lines.new)) result
        (rows_of sheet_on count lines.old) }
{
    let mut sheets = Vec::new(alloc);
    for _ in 0..count {
        sheets.push(next_sheet(lines)?)?;
    }
    Ok(sheets)
}

// The sheets behind the line that says how many.
#[tactic(auto, unfolding(crate::specs::Grammar::sheets_of))]
fn read_sheets(alloc: Global, lines: &mut Lines<'_>) -> Result<Vec<SheetRow>, CertText>
    ensures sheets { Gives CertText.Memory (λ x. (x.items, lines.new)) result
        (sheets_of lines.old) }
{
    let count = next_count(lines, b"sheets")?;
    read_rows(alloc, lines, count)
}

// What stands behind the counts, where there are cycles.
#[tactic(auto, unfolding(crate::specs::Grammar::parts_of))]
fn read_parts(alloc: Global, lines: &mut Lines<'_>, counts: Counts) -> Result<SheetCert, CertText>
    ensures parts { Gives CertText.Memory (λ x. x) result (parts_of counts lines.old) }
{
    let cycles = read_cycles(alloc, lines, counts.left)?;
    let (edges, numbers) = read_cocycles(alloc, lines, counts.left)?;
    let sheets = read_sheets(alloc, lines)?;
    read_end(lines)?;
    let shape = (counts.vertices, counts.faces);
    Ok(SheetCert::make(shape, cycles, edges, numbers, sheets))
}

// A certificate without cycles.
fn without_cycles(alloc: Global, counts: Counts) -> SheetCert
    ensures made { result ≡ made_of counts [] ([], []) [] }
{
    let shape = (counts.vertices, counts.faces);
    let (cycles, edges, sheets) = (Vec::new(alloc), Vec::new(alloc), Vec::new(alloc));
    SheetCert::make(shape, cycles, edges, Rows::new(alloc), sheets)
}

#[tactic(auto, unfolding(crate::specs::Grammar::behind_counts))]
fn read_behind(alloc: Global, lines: &mut Lines<'_>, counts: Counts) -> Result<SheetCert, CertText>
    ensures behind { Gives CertText.Memory (λ x. x) result (behind_counts counts lines.old) }
{
    if counts.left == 0 {
        read_end(lines)?;
        return Ok(without_cycles(alloc, counts));
    }
    read_parts(alloc, lines, counts)
}

#[tactic(auto, unfolding(crate::specs::Grammar::sheets_in, crate::specs::Grammar::sheet_cert_in))]
fn read_text(alloc: Global, text: &[u8]) -> Result<SheetCert, CertText>
    requires short { length text.now < 4294967295 }
    ensures cert { Gives CertText.Memory (λ x. x) result (parsed_sheets text.now) }
{
    let mut lines = Lines::over(text);
    let Some(line) = lines.next_line() else {
        return Err(CertText::Header { line: 0 });
    };
    if !is_sheet_header(line.bytes) {
        return Err(CertText::Header { line: line.number });
    }
    let counts = next_counts(&mut lines)?;
    read_behind(alloc, &mut lines, counts)
}

/// Reads the text of a certificate by sheets. Refuses with the first fault of the text, or with
/// `Memory` where there is none. The text is shorter than 2^32 − 1 bytes.
///
/// No room is taken for counts that a text merely states. A certificate that was read fits the
/// lines of a text, so it can be written.
pub fn read_sheet_cert(alloc: Global, text: &[u8]) -> Result<SheetCert, CertText>
    requires short { length text.now < 4294967295 }
    ensures cert { Gives CertText.Memory (λ x. x) result (parsed_sheets text.now) }
    ensures fits { IfOk result SheetCertFits }
{
    read_text(alloc, text)
}
