//! Reads the text of a certificate.
ghost use Rattle.std.specs.Prelude.{◌<◌, length, IfOk};
ghost use Rattle.surf_records.specs.Fits.{CertFits};
ghost use Rattle.surf_cert.specs.Grammar.{loops_in, basis_in, ended, parsed_cert};
ghost use Rattle.surf_cert.specs.declared.fault.CertText.TheVariants.{Trailing};
ghost use Rattle.surf_base.specs.Gives.{Gives};

use crate::fault::CertText;
use crate::line::is_header;
use crate::next::next_counts;
use crate::sections::{read_cycles, read_dual, read_left, read_tree, read_trees};
use std::alloc::Global;
use surf_records::{BasisCert, Cert, LoopCert};
use surf_text::Lines;

/// No line stands behind. Refuses with `Trailing` where one does.
pub fn read_end(lines: &mut Lines<'_>) -> Result<(), CertText>
    ensures end { Gives CertText.Memory (λ x. x) result (ended Trailing lines.old tt) }
{
    match lines.next_line() {
        Some(line) => Err(CertText::Trailing { line: line.number }),
        None => Ok(()),
    }
}

#[tactic(auto, unfolding(crate::specs::Grammar::loops_in))]
fn read_loops(alloc: Global, lines: &mut Lines<'_>) -> Result<LoopCert, CertText>
    ensures loops { Gives CertText.Memory (λ x. x) result (loops_in lines.old) }
{
    let counts = next_counts(lines)?;
    let tree = read_tree(alloc, lines, counts.vertices)?;
    let dual = read_dual(alloc, lines, counts.faces)?;
    let left = read_left(alloc, lines, counts.left)?;
    read_end(lines)?;
    Ok(LoopCert::make(tree, dual, left))
}

#[tactic(auto, unfolding(crate::specs::Grammar::basis_in))]
fn read_basis(alloc: Global, lines: &mut Lines<'_>) -> Result<BasisCert, CertText>
    ensures basis { Gives CertText.Memory (λ x. x) result (basis_in lines.old) }
{
    let counts = next_counts(lines)?;
    let trees = read_trees(alloc, lines, counts.vertices)?;
    let dual = read_dual(alloc, lines, counts.faces)?;
    let left = read_left(alloc, lines, counts.left)?;
    let cycles = read_cycles(alloc, lines, counts.left)?;
    read_end(lines)?;
    Ok(BasisCert::make(trees, dual, left, cycles))
}

#[tactic(auto, unfolding(crate::specs::Grammar::cert_in))]
fn read_text(alloc: Global, text: &[u8]) -> Result<Cert, CertText>
    requires short { length text.now < 4294967295 }
    ensures cert { Gives CertText.Memory (λ x. x) result (parsed_cert text.now) }
{
    let mut lines = Lines::over(text);
    let Some(line) = lines.next_line() else {
        return Err(CertText::Header { line: 0 });
    };
    if is_header(line.bytes, b"loops") {
        let cert = read_loops(alloc, &mut lines)?;
        return Ok(Cert::Loops(cert));
    }
    if is_header(line.bytes, b"basis") {
        let cert = read_basis(alloc, &mut lines)?;
        return Ok(Cert::Basis(cert));
    }
    Err(CertText::Header { line: line.number })
}

/// Reads the text of a certificate. Refuses with the first fault of the text, or with `Memory`
/// where there is none. The text is shorter than 2^32 − 1 bytes.
///
/// The first line says whether it is a certificate of loops or of a basis, and the second how many
/// vertices, faces and left edges there are. So many lines follow for each part, and none after
/// them. No room is taken for counts that a text merely states. A certificate that was read fits
/// the lines of a text, so it can be written.
pub fn read_cert(alloc: Global, text: &[u8]) -> Result<Cert, CertText>
    requires short { length text.now < 4294967295 }
    ensures cert { Gives CertText.Memory (λ x. x) result (parsed_cert text.now) }
    ensures fits { IfOk result CertFits }
{
    read_text(alloc, text)
}
