//! Writes the text of a certificate by sheets.
ghost use Rattle.std.specs.Prelude.{◌≡◌, ◌≤◌, ◌++◌, length, flat_map, codes, decimal};
ghost use Rattle.std.specs.List.{All, zip};
ghost use Rattle.surf_text.specs.Pages.{Puts};
ghost use Rattle.surf_text.specs.Numbers.{numbers_text};
ghost use Rattle.surf_sheetcheck.specs.Fits.{SheetCertFits};
ghost use Rattle.surf_sheetcert.specs.Written.{sheet_head_text, cocycles_line, cocycles_text, sheet_line, sheets_text};
ghost use Rattle.surf_sheetcert.specs.Written.{parts_text, behind_text, sheet_cert_text, RereadsSheets};

use surf_base::VertexId;
use surf_cert::write_cycles;
use surf_records::{SheetCert, SheetRow};
use surf_text::{Page, PageFault, Piece};

fn write_head(page: &mut Page, vertices: u32, faces: u32, cycles: usize) -> Result<(), PageFault>
    ensures puts { Puts page.old page.new (sheet_head_text vertices faces cycles) result }
{
    page.push_pieces(&[
        Piece::Bytes(b"SURFCERT 2 basis\ncounts "),
        Piece::Whole(vertices as u128),
        Piece::Bytes(b" "),
        Piece::Whole(faces as u128),
        Piece::Bytes(b" "),
        Piece::Whole(cycles as u128),
        Piece::Bytes(b"\n"),
    ])
}

fn write_count(page: &mut Page, word: &[u8], count: usize) -> Result<(), PageFault>
    ensures puts { Puts page.old page.new (word.now ++ (decimal count ++ codes "\n")) result }
{
    page.push_pieces(&[
        Piece::Bytes(word),
        Piece::Whole(count as u128),
        Piece::Bytes(b"\n"),
    ])
}

fn write_numbers(page: &mut Page, numbers: &[u32]) -> Result<(), PageFault>
    requires fits { length page.old.bytes ≤ page.old.most }
    ensures puts { Puts page.old page.new (numbers_text numbers.now) result }
{
    for number in numbers {
        page.push_pieces(&[Piece::Bytes(b" "), Piece::Whole(*number as u128)])?;
    }
    Ok(())
}

fn write_ends(page: &mut Page, edge: (VertexId, VertexId)) -> Result<(), PageFault>
    ensures puts { Puts page.old page.new (decimal edge.0 ++ (codes " " ++ decimal edge.1)) result }
{
    page.push_pieces(&[
        Piece::Whole(edge.0.index() as u128),
        Piece::Bytes(b" "),
        Piece::Whole(edge.1.index() as u128),
    ])
}

fn write_edge(page: &mut Page, edge: (VertexId, VertexId), numbers: &[u32]) -> Result<(), PageFault>
    ensures puts { Puts page.old page.new (cocycles_line (edge, numbers.now)) result }
{
    write_ends(page, edge)?;
    write_numbers(page, numbers)?;
    page.push_bytes(b"\n")
}

fn write_edges(page: &mut Page, cert: &SheetCert) -> Result<(), PageFault>
    requires fits { length page.old.bytes ≤ page.old.most }
    ensures puts { Puts page.old page.new (flat_map cocycles_line
        (zip cert.now.edges cert.now.numbers)) result }
{
    let edges = cert.edges();
    let numbers = cert.numbers();
    for j in 0..edges.len() {
        write_edge(page, edges[j], numbers.row(j))?;
    }
    Ok(())
}

fn write_cocycles(page: &mut Page, cert: &SheetCert) -> Result<(), PageFault>
    ensures puts { Puts page.old page.new (cocycles_text (zip cert.now.edges cert.now.numbers))
        result }
{
    write_count(page, b"cocycles ", cert.edges().len())?;
    write_edges(page, cert)
}

fn write_sheet(page: &mut Page, sheet: &SheetRow) -> Result<(), PageFault>
    ensures puts { Puts page.old page.new (sheet_line sheet.now) result }
{
    let (from, to) = sheet.range();
    let (first, last) = sheet.part();
    page.push_pieces(&[
        Piece::Whole(from as u128),
        Piece::Bytes(b" "),
        Piece::Whole(to as u128),
        Piece::Bytes(b" "),
        Piece::Whole(sheet.walk() as u128),
        Piece::Bytes(b" "),
        Piece::Whole(first as u128),
        Piece::Bytes(b" "),
        Piece::Whole(last as u128),
        Piece::Bytes(b" "),
        Piece::Whole(sheet.margin() as u128),
        Piece::Bytes(b"\n"),
    ])
}

fn write_rows(page: &mut Page, sheets: &[SheetRow]) -> Result<(), PageFault>
    requires fits { length page.old.bytes ≤ page.old.most }
    ensures puts { Puts page.old page.new (flat_map sheet_line sheets.now) result }
{
    for sheet in sheets {
        write_sheet(page, sheet)?;
    }
    Ok(())
}

fn write_sheets(page: &mut Page, sheets: &[SheetRow]) -> Result<(), PageFault>
    ensures puts { Puts page.old page.new (sheets_text sheets.now) result }
{
    write_count(page, b"sheets ", sheets.len())?;
    write_rows(page, sheets)
}

fn write_parts(page: &mut Page, cert: &SheetCert) -> Result<(), PageFault>
    requires some { All (λ c. 1 ≤ length c) cert.now.cycles }
    ensures puts { Puts page.old page.new (parts_text cert.now) result }
{
    write_cycles(page, cert.cycles())?;
    write_cocycles(page, cert)?;
    write_sheets(page, cert.sheets())
}

// What stands behind the counts: nothing where there is no cycle.
fn write_behind(page: &mut Page, cert: &SheetCert) -> Result<(), PageFault>
    requires fits { length page.old.bytes ≤ page.old.most }
    requires some { All (λ c. 1 ≤ length c) cert.now.cycles }
    ensures puts { Puts page.old page.new (behind_text cert.now) result }
{
    if cert.cycles().is_empty() {
        return Ok(());
    }
    write_parts(page, cert)
}

/// Puts the text of a certificate by sheets on a page. Its lists fit the lines of a text: each cycle
/// has a vertex, the edges of cocycles increase, and the numbers of each rise from 1 to the number
/// of the cycles. Where there is no cycle, there is no edge and no sheet.
///
/// Refuses with `Full` where the page would hold more than its bound with the whole text, and with
/// `Memory` where there is none. After a refusal the page holds a front of the text behind its
/// bytes. Read again, the text is this certificate.
pub fn write_sheet_cert(page: &mut Page, cert: &SheetCert) -> Result<(), PageFault>
    requires fits { SheetCertFits cert.now }
    ensures puts { Puts page.old page.new (sheet_cert_text cert.now) result }
    ensures reread { RereadsSheets cert.now }
{
    write_head(page, cert.vertices(), cert.faces(), cert.cycles().len())?;
    write_behind(page, cert)
}
