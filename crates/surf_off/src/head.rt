//! The lines before the vertices.
ghost use Rattle.std.specs.Prelude.{◌≡◌, ◌≤◌, true, IfOk};
ghost use Rattle.surf_text.specs.Walks.{lines_ahead};
ghost use Rattle.surf_off.specs.Off.{head_of, counts_of};
ghost use Rattle.surf_base.specs.Gives.{Gives};
ghost use Rattle.surf_off.specs.Seen.{head_seen};
ghost use Rattle.surf_base.specs.declared.limits.TheConstants.{MAX_FACES, MAX_VERTICES};

use crate::fault::OffFault;
use crate::header::{Header, read_header};
use surf_base::{LimitKind, MAX_FACES, MAX_VERTICES};
use surf_text::{PlacedLines, Tokens, read_whole};

/// The keyword, and the tokens of the counts with the number of their line.
#[derive(Drop)]
pub(crate) struct Head<'a> {
    pub(crate) header: Header,
    pub(crate) number: u32,
    pub(crate) counts: Tokens<'a>,
}

#[tactic(auto, unfolding(crate::specs::Off::head_of))]
pub(crate) fn read_head<'a>(lines: &mut PlacedLines<'a>) -> Result<Head<'a>, OffFault>
    ensures head { Gives OffFault.Memory (λ h. head_seen h (lines_ahead lines.new)) result
        (head_of (lines_ahead lines.old)) }
    ensures text { lines.new.text ≡ lines.old.text }
{
    let Some(line) = lines.next_line() else {
        return Err(OffFault::Header { line: 0 });
    };
    let mut tokens = Tokens::over(line.bytes);
    let Some(word) = tokens.next_token() else {
        return Err(OffFault::Header { line: line.number });
    };
    let Some(header) = read_header(word) else {
        return Err(OffFault::Header { line: line.number });
    };
    if !tokens.is_empty() {
        return Ok(Head {
            header,
            number: line.number,
            counts: tokens,
        });
    }
    let Some(next) = lines.next_line() else {
        return Err(OffFault::Counts { line: 0 });
    };
    Ok(Head {
        header,
        number: next.number,
        counts: Tokens::over(next.bytes),
    })
}

/// The numbers of vertices and of faces.
#[tactic(auto, unfolding(crate::specs::Off::counts_of))]
pub(crate) fn read_counts(line: u32, tokens: &mut Tokens) -> Result<(u32, u32), OffFault>
    ensures counts { Gives OffFault.Memory (λ x. x) result (counts_of true line tokens.old.tokens) }
    ensures limits { IfOk result (λ x. (x.0 ≤ MAX_VERTICES) × (x.1 ≤ MAX_FACES)) }
{
    let (Some(v), Some(f)) = (tokens.next_token(), tokens.next_token()) else {
        return Err(OffFault::Counts { line });
    };
    let (Some(v), Some(f)) = (read_whole(v), read_whole(f)) else {
        return Err(OffFault::Counts { line });
    };
    if v > MAX_VERTICES as u64 {
        return Err(OffFault::Limit {
            line,
            kind: LimitKind::Vertices,
        });
    }
    if f > MAX_FACES as u64 {
        return Err(OffFault::Limit {
            line,
            kind: LimitKind::Faces,
        });
    }
    Ok((v as u32, f as u32))
}
