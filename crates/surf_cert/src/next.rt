//! The next line of a text, which has a form.
ghost use Rattle.std.specs.Prelude.{ok_or};
ghost use Rattle.surf_text.specs.Text.{tokens_of};
ghost use Rattle.surf_text.specs.Walks.{text_line};
ghost use Rattle.surf_cert.specs.Lines.{counts_of, base_of, base_at, tree_row, dual_row, pair_behind, the_word};
ghost use Rattle.surf_cert.specs.Lines.{numbers_of, cycle_of};
ghost use Rattle.surf_cert.specs.Grammar.{next_of};
ghost use Rattle.surf_cert.specs.declared.fault.CertText.TheVariants.{Form};
ghost use Rattle.surf_base.specs.Gives.{Gives};

use crate::fault::CertText;
use crate::line::{
    Counts, is_word, read_base, read_base_at, read_counts, read_dual_row, read_number,
    read_pair_behind, read_tree_row,
};
use std::alloc::Global;
use surf_base::VertexId;
use surf_mesh::Walk;
use surf_text::{Line, Lines, Tokens};

/// The next line, which is exactly a word. Refuses with `Early` where there is none, and with
/// `Form` where it has another form.
#[tactic(auto, unfolding(crate::specs::Grammar::next_of))]
pub fn next_word(lines: &mut Lines<'_>, word: &[u8]) -> Result<(), CertText>
    ensures word { Gives CertText.Memory (λ x. (x, lines.new)) result
        (next_of (the_word word.now) lines.old) }
{
    let line = lines.next_line().ok_or(CertText::Early)?;
    if is_word(line.bytes, word) {
        Ok(())
    } else {
        Err(CertText::Form { line: line.number })
    }
}

/// The next line, which gives the counts. Refuses as [`next_word`] does.
#[tactic(auto, unfolding(crate::specs::Grammar::next_of))]
pub fn next_counts(lines: &mut Lines<'_>) -> Result<Counts, CertText>
    ensures counts { Gives CertText.Memory (λ x. (x, lines.new)) result
        (next_of counts_of lines.old) }
{
    let line = lines.next_line().ok_or(CertText::Early)?;
    read_counts(line.bytes).ok_or(CertText::Form { line: line.number })
}

/// The next line, which gives the base of a tree.
#[tactic(auto, unfolding(crate::specs::Grammar::next_of))]
pub(crate) fn next_base(lines: &mut Lines<'_>) -> Result<VertexId, CertText>
    ensures base { Gives CertText.Memory (λ x. (x, lines.new)) result (next_of base_of lines.old) }
{
    let line = lines.next_line().ok_or(CertText::Early)?;
    read_base(line.bytes).ok_or(CertText::Form { line: line.number })
}

/// The next line, which gives this vertex as the base of a tree.
#[tactic(auto, unfolding(crate::specs::Grammar::next_of))]
pub(crate) fn next_base_at(lines: &mut Lines<'_>, base: u32) -> Result<VertexId, CertText>
    ensures base { Gives CertText.Memory (λ x. (x, lines.new)) result
        (next_of (base_at base) lines.old) }
{
    let line = lines.next_line().ok_or(CertText::Early)?;
    read_base_at(base, line.bytes).ok_or(CertText::Form { line: line.number })
}

/// The next line, which gives a distance and a parent.
#[tactic(auto, unfolding(crate::specs::Grammar::next_of))]
pub(crate) fn next_tree_row(lines: &mut Lines<'_>) -> Result<(u64, Option<VertexId>), CertText>
    ensures row { Gives CertText.Memory (λ x. (x, lines.new)) result (next_of tree_row lines.old) }
{
    let line = lines.next_line().ok_or(CertText::Early)?;
    read_tree_row(line.bytes).ok_or(CertText::Form { line: line.number })
}

/// The next line, which gives a depth and a side.
#[tactic(auto, unfolding(crate::specs::Grammar::next_of))]
pub(crate) fn next_dual_row(
    lines: &mut Lines<'_>,
) -> Result<(u32, Option<(VertexId, VertexId)>), CertText>
    ensures row { Gives CertText.Memory (λ x. (x, lines.new)) result (next_of dual_row lines.old) }
{
    let line = lines.next_line().ok_or(CertText::Early)?;
    read_dual_row(line.bytes).ok_or(CertText::Form { line: line.number })
}

/// The next line, which gives a pair behind the one before.
#[tactic(auto, unfolding(crate::specs::Grammar::next_of))]
pub(crate) fn next_pair(
    lines: &mut Lines<'_>,
    before: Option<(u32, u32)>,
) -> Result<(u32, u32), CertText>
    ensures pair { Gives CertText.Memory (λ x. (x, lines.new)) result
        (next_of (pair_behind before) lines.old) }
{
    let line = lines.next_line().ok_or(CertText::Early)?;
    read_pair_behind(before, line.bytes).ok_or(CertText::Form { line: line.number })
}

// The numbers of a line, as vertices.
fn read_vertices(alloc: Global, line: &Line<'_>) -> Result<Vec<VertexId>, CertText>
    ensures vertices { Gives CertText.Memory (λ x. x.items) result
        (ok_or (numbers_of (tokens_of (text_line line.now).bytes)) (Form (text_line line.now).number)) }
{
    let mut vertices = Vec::new(alloc);
    let mut tokens = Tokens::over(line.bytes);
    while let Some(token) = tokens.next_token() {
        let Some(number) = read_number(token) else {
            return Err(CertText::Form { line: line.number });
        };
        vertices.push(VertexId::new(number))?;
    }
    Ok(vertices)
}

// The vertices of a line, which has at least one.
fn read_cycle(alloc: Global, line: &Line<'_>) -> Result<Walk, CertText>
    ensures cycle { Gives CertText.Memory (λ x. x) result (ok_or
        (cycle_of (tokens_of (text_line line.now).bytes)) (Form (text_line line.now).number)) }
{
    let vertices = read_vertices(alloc, line)?;
    if vertices.is_empty() {
        return Err(CertText::Form { line: line.number });
    }
    Ok(Walk::from_vertices(vertices))
}

/// The next line, which gives the vertices of a cycle.
#[tactic(auto, unfolding(crate::specs::Grammar::next_of))]
pub(crate) fn next_cycle(alloc: Global, lines: &mut Lines<'_>) -> Result<Walk, CertText>
    ensures cycle { Gives CertText.Memory (λ x. (x, lines.new)) result
        (next_of cycle_of lines.old) }
{
    let line = lines.next_line().ok_or(CertText::Early)?;
    read_cycle(alloc, &line)
}
