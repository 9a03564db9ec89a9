//! The edges of cocycles, read line by line.
ghost use Rattle.std.specs.Prelude.{◌≡◌, ◌≤◌, ◌++◌, ◌∷◌, [], IfErr, IfOk, OnOk, drop, length, ok_or};
ghost use Rattle.surf_text.specs.Text.{tokens_of};
ghost use Rattle.surf_text.specs.Walks.{text_line};
ghost use Rattle.surf_cert.specs.declared.fault.CertText.TheVariants.{Form};
ghost use Rattle.surf_base.specs.Gives.{Gives};
ghost use Rattle.surf_cert.specs.Grammar.{next_of};
ghost use Rattle.surf_sheetcert.specs.Lines.{cocycles_on};
ghost use Rattle.surf_sheetcert.specs.Grammar.{cocycles_of, tables_of};

use crate::line::edge_among;
use crate::next::{next_count, read_numbers};
use std::alloc::Global;
use surf_base::VertexId;
use surf_cert::CertText;
use surf_rows::Rows;
use surf_text::{Line, Lines};

// How many numbers a table of rows holds.
const MOST_NUMBERS: usize = 4_294_967_295;

// Adds the numbers of a line behind the first two to a table, as a row. No text has so many numbers
// that it would be full.
fn push_row(table: &mut Rows<u32>, numbers: &[u32]) -> Result<(), CertText>
    requires two { 2 ≤ length numbers.now }
    ensures ok { OnOk result (table.new ≡ table.old ++ drop 2 numbers.now ∷ []) }
    ensures memory { IfErr result (λ e. e ≡ CertText.Memory) }
{
    let row = &numbers[2..];
    let total = table.total();
    if total > MOST_NUMBERS || row.len() > MOST_NUMBERS - total {
        return Err(CertText::Memory);
    }
    table.push(row)?;
    Ok(())
}

// The edge of a line, behind the one before, and all numbers of the line: those of its cocycles
// stand behind the first two.
fn read_edge(
    alloc: Global,
    line: &Line<'_>,
    k: u32,
    before: Option<(u32, u32)>,
) -> Result<((u32, u32), Vec<u32>), CertText>
    ensures edge { Gives CertText.Memory (λ x. (x.0, drop 2 x.1.items)) result (ok_or (cocycles_on k
        before (tokens_of (text_line line.now).bytes)) (Form (text_line line.now).number)) }
    ensures two { IfOk result (λ x. 2 ≤ length x.1.items) }
{
    let numbers = read_numbers(alloc, line)?;
    match edge_among(k, before, &numbers) {
        Some(edge) => Ok((edge, numbers)),
        None => Err(CertText::Form { line: line.number }),
    }
}

// The edge of the next line, as `read_edge` gives it.
#[tactic(auto, unfolding(surf_cert::specs::Grammar::next_of))]
fn next_edge(
    alloc: Global,
    lines: &mut Lines<'_>,
    k: u32,
    before: Option<(u32, u32)>,
) -> Result<((u32, u32), Vec<u32>), CertText>
    ensures edge { Gives CertText.Memory (λ x. ((x.0, drop 2 x.1.items), lines.new)) result
        (next_of (cocycles_on k before) lines.old) }
    ensures two { IfOk result (λ x. 2 ≤ length x.1.items) }
{
    let line = lines.next_line().ok_or(CertText::Early)?;
    read_edge(alloc, &line, k, before)
}

// So many edges with their numbers, each edge greater than the one before.
fn read_edges(
    alloc: Global,
    lines: &mut Lines<'_>,
    k: u32,
    count: u32,
) -> Result<(Vec<(VertexId, VertexId)>, Rows<u32>), CertText>
    ensures tables { Gives CertText.Memory (λ x. ((x.0.items, x.1), lines.new)) result
        (tables_of k count lines.old) }
    ensures rows { IfOk result (λ x. length x.1 ≡ length x.0.items) }
{
    let mut edges = Vec::new(alloc);
    let mut table = Rows::new(alloc);
    let mut before = None;
    for _ in 0..count {
        let ((u, v), numbers) = next_edge(alloc, lines, k, before)?;
        edges.push((VertexId::new(u), VertexId::new(v)))?;
        push_row(&mut table, &numbers)?;
        before = Some((u, v));
    }
    Ok((edges, table))
}

/// The edges of k cocycles, each with the numbers of its cocycles.
#[tactic(auto, unfolding(crate::specs::Grammar::cocycles_of))]
pub(crate) fn read_cocycles(
    alloc: Global,
    lines: &mut Lines<'_>,
    k: u32,
) -> Result<(Vec<(VertexId, VertexId)>, Rows<u32>), CertText>
    ensures cocycles { Gives CertText.Memory (λ x. ((x.0.items, x.1), lines.new)) result
        (cocycles_of k lines.old) }
    ensures rows { IfOk result (λ x. length x.1 ≡ length x.0.items) }
{
    let count = next_count(lines, b"cocycles")?;
    read_edges(alloc, lines, k, count)
}
