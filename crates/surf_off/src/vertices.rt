//! The vertex lines.
ghost use Rattle.std.specs.Prelude.{◌≡◌, ◌<◌, ◌+◌, ◌^◌, [], length, IfOk, OnOk};
ghost use Rattle.surf_text.specs.Walks.{lines_ahead, StandsAt};
ghost use Rattle.surf_off.specs.Off.{vertices_at};
ghost use Rattle.surf_base.specs.Gives.{Gives};
ghost use Rattle.surf_off.specs.Gives.{GivesSecond, GivesVertex};

use crate::fault::OffFault;
use crate::parts::{Parts, Span};
use surf_text::{PlacedLine, PlacedLines, has_tokens};

// The first of so many vertex lines, which so many face lines are to follow.
fn next_vertex<'a>(
    lines: &mut PlacedLines<'a>,
    vertices: u32,
    faces: u32,
) -> Result<PlacedLine<'a>, OffFault>
    requires some { 0 < vertices }
    requires fits { vertices + faces < 2 ^ 32 }
    ensures line { GivesVertex vertices faces (lines_ahead lines.old) (lines_ahead lines.new)
        result }
    ensures text { lines.new.text ≡ lines.old.text }
    ensures place { IfOk result (λ line. StandsAt lines.old.text line.bytes.now line.start) }
    ensures short { length lines.old.text < 4294967295 }
{
    let Some(line) = lines.next_line() else {
        return Err(OffFault::Early {
            missing: vertices + faces,
        });
    };
    if has_tokens(line.bytes, 3) {
        Ok(line)
    } else {
        Err(OffFault::VertexLine { line: line.number })
    }
}

/// The vertex lines of a text, as many as its counts say, before its face lines. They are put to
/// those that are kept.
pub(crate) fn read_vertices(
    lines: &mut PlacedLines<'_>,
    vertices: u32,
    faces: u32,
    kept: &mut Parts<'_>,
) -> Result<(), OffFault>
    requires fits { vertices + faces < 2 ^ 32 }
    requires text { kept.old.text ≡ lines.old.text }
    requires none { kept.old.parts ≡ [] }
    ensures lines { Gives OffFault.Memory (λ _. (kept.new.parts, lines_ahead lines.new)) result
        (vertices_at vertices faces (lines_ahead lines.old)) }
    ensures count { OnOk result (length kept.new.parts ≡ vertices) }
    ensures text { OnOk result (lines.new.text ≡ lines.old.text) }
    ensures same { OnOk result (kept.new.text ≡ kept.old.text) }
{
    for done in 0..vertices {
        let line = next_vertex(lines, vertices - done, faces)?;
        kept.push(Span {
            start: line.start,
            len: line.bytes.len() as u32,
        })?;
    }
    Ok(())
}

/// Passes over the vertex lines of a text, and keeps none.
pub(crate) fn pass_vertices(
    lines: &mut PlacedLines<'_>,
    vertices: u32,
    faces: u32,
) -> Result<(), OffFault>
    requires fits { vertices + faces < 2 ^ 32 }
    ensures lines { GivesSecond (λ _. lines_ahead lines.new) result
        (vertices_at vertices faces (lines_ahead lines.old)) }
    ensures text { OnOk result (lines.new.text ≡ lines.old.text) }
{
    for done in 0..vertices {
        next_vertex(lines, vertices - done, faces)?;
    }
    Ok(())
}
