//! The face lines.
ghost use Rattle.std.specs.Prelude.{◌≡◌, ◌≢◌, ◌==◌, ◌<◌, ◌≤◌, ◌+◌, ℕ, true, [], length, slice_index};
ghost use Rattle.std.specs.Prelude.{take, drop, IfOk, IfNone, IfSome, IsTrue, OnOk};
ghost use Rattle.std.specs.List.{All, AllPairs, before_first, list_any};
ghost use Rattle.surf_surfaces.specs.Mesh.{IsFace};
ghost use Rattle.surf_surfaces.specs.SideNumber.{side_count};
ghost use Rattle.surf_text.specs.Text.{whole, behind_word, behind_words, is_line_end, tokens_of};
ghost use Rattle.surf_text.specs.Text.{uncommented, trimmed, onto_lines};
ghost use Rattle.surf_text.specs.Walks.{placed_line, lines_ahead};
ghost use Rattle.surf_off.specs.Off.{size_of, corner_read, corners_at, first_repeat, distinct, face_of, faces_at};
ghost use Rattle.surf_base.specs.Gives.{Gives};
ghost use Rattle.surf_off.specs.Gives.{GivesFace};
ghost use Rattle.surf_off.specs.Plain.{IsBehind, line_before};
ghost use Rattle.surf_off.specs.Seen.{part_of};
ghost use Rattle.surf_base.specs.declared.limits.TheConstants.{MAX_FACES, MAX_SIDES};

use crate::fault::OffFault;
use crate::parts::{Colours, Span};
use crate::plain::read_plain;
use std::alloc::Global;
use surf_base::{LimitKind, MAX_SIDES, VertexId};
use surf_soup::Soup;
use surf_text::{PlacedLine, PlacedLines, Tokens, first_line, read_whole};

// A face of so many corners is searched for repeated ones without marks.
const FEW_CORNERS: usize = 8;

// How many corners a face has.
#[tactic(auto, unfolding(crate::specs::Off::size_of))]
fn read_size(line: u32, tokens: &mut Tokens) -> Result<u64, OffFault>
    ensures size { Gives OffFault.Memory (λ k. k) result (size_of line tokens.old.tokens) }
    ensures tokens { OnOk result (tokens.new.tokens ≡ drop 1 tokens.old.tokens) }
    ensures rest { tokens.new.rest ≡ behind_word tokens.old.rest }
    ensures bounds { IfOk result (λ k. (3 ≤ k) × (k ≤ length tokens.new.tokens)) }
{
    let Some(word) = tokens.next_token() else {
        return Err(OffFault::FaceSize { line });
    };
    match read_whole(word) {
        Some(size) if size >= 3 && tokens.has(size) => Ok(size),
        _ => Err(OffFault::FaceSize { line }),
    }
}

fn read_corner(line: u32, vertices: u32, place: u32, token: &[u8]) -> Result<VertexId, OffFault>
    ensures corner { Gives OffFault.Memory (λ u. u) result
        (corner_read line vertices place (whole token.now)) }
    ensures within { IfOk result (λ u. u < vertices) }
{
    match read_whole(token) {
        Some(u) if u < vertices as u64 => Ok(VertexId::new(u as u32)),
        _ => Err(OffFault::FaceIndex { line, place }),
    }
}

// The corners of a face of a given size, in place of those that were kept.
fn read_corners(
    line: u32,
    vertices: u32,
    size: u32,
    tokens: &mut Tokens,
    corners: &mut Vec<VertexId>,
) -> Result<(), OffFault>
    requires enough { size ≤ length tokens.old.tokens }
    ensures corners { Gives OffFault.Memory (λ _. corners.new.items) result
        (corners_at line vertices 0 (take size tokens.old.tokens)) }
    ensures rest { OnOk result (tokens.new.rest ≡ behind_words size tokens.old.rest) }
    ensures size { OnOk result (length corners.new.items ≡ size) }
    ensures within { OnOk result (All (λ u. u < vertices) corners.new.items) }
{
    corners.clear();
    for place in 0..size {
        let token = tokens.next_token().unwrap();
        let corner = read_corner(line, vertices, place, token)?;
        corners.push(corner)?;
    }
    Ok(())
}

// Whether a vertex is among those that were seen.
fn is_among(seen: &[VertexId], vertex: VertexId) -> bool
    ensures among { result ≡ list_any (λ s. s == vertex) seen.now }
{
    seen.contains(&vertex)
}

// The first corner whose vertex stands before, for a face of few corners.
fn repeated_of_few(corners: &[VertexId]) -> Option<VertexId>
    ensures first { result ≡ first_repeat [] corners.now }
    ensures distinct { IfNone result (AllPairs (λ a b. a ≢ b) corners.now) }
{
    for i in 0..corners.len() {
        let vertex = corners[i];
        if is_among(&corners[..i], vertex) {
            return Some(vertex);
        }
    }
    None
}

// The first corner whose vertex stands before. Each vertex has the stamp of the last face that it
// was seen on, so that a face of many corners takes one turn for each.
fn repeated(marks: &mut [u32], stamp: u32, corners: &[VertexId]) -> Option<VertexId>
    requires within { All (λ u. u < length marks.old) corners.now }
    requires earlier { (k : ℕ) → k < length marks.old → slice_index marks.old k < stamp }
    ensures first { result ≡ first_repeat [] corners.now }
    ensures distinct { IfNone result (AllPairs (λ a b. a ≢ b) corners.now) }
    ensures marks { (k : ℕ) → k < length marks.new → slice_index marks.new k ≤ stamp }
{
    for u in corners {
        if marks[u.index()] == stamp {
            return Some(*u);
        }
        marks[u.index()] = stamp;
    }
    None
}

// The first corner whose vertex stands before, as `repeated` finds it, out of line for faces of
// many corners.
#[inline(never)]
fn repeated_of_any(marks: &mut [u32], stamp: u32, corners: &[VertexId]) -> Option<VertexId>
    requires within { All (λ u. u < length marks.old) corners.now }
    requires earlier { (k : ℕ) → k < length marks.old → slice_index marks.old k < stamp }
    ensures first { result ≡ first_repeat [] corners.now }
    ensures distinct { IfNone result (AllPairs (λ a b. a ≢ b) corners.now) }
    ensures marks { (k : ℕ) → k < length marks.new → slice_index marks.new k ≤ stamp }
{
    if corners.len() <= FEW_CORNERS {
        repeated_of_few(corners)
    } else {
        repeated(marks, stamp, corners)
    }
}

// Whether they are three corners of as many vertices.
fn are_three(corners: &[VertexId]) -> bool
    ensures three { IsTrue result → length corners.now ≡ 3 }
    ensures distinct { IsTrue result → AllPairs (λ a b. a ≢ b) corners.now }
{
    match corners {
        [a, b, c] => a != b && a != c && b != c,
        _ => false,
    }
}

// No corner may have a vertex that stands before.
#[inline]
#[tactic(auto, using(crate::proofs::Repeats::three_differ))]
fn refuse_repeats(
    line: u32,
    marks: &mut [u32],
    stamp: u32,
    corners: &[VertexId],
) -> Result<(), OffFault>
    requires within { All (λ u. u < length marks.old) corners.now }
    requires earlier { (k : ℕ) → k < length marks.old → slice_index marks.old k < stamp }
    ensures distinct { Gives OffFault.Memory (λ _. corners.now) result
        (distinct line corners.now (first_repeat [] corners.now)) }
    ensures differ { OnOk result (AllPairs (λ a b. a ≢ b) corners.now) }
    ensures marks { (k : ℕ) → k < length marks.new → slice_index marks.new k ≤ stamp }
{
    if are_three(corners) {
        return Ok(());
    }
    match repeated_of_any(marks, stamp, corners) {
        Some(vertex) => Err(OffFault::FaceRepeat { line, vertex }),
        None => Ok(()),
    }
}

// The colour of a face line, behind faces of so many sides. Its corners are those that are kept
// then.
#[tactic(auto, unfolding(crate::specs::Off::face_of))]
fn read_by_tokens<'a>(
    line: &PlacedLine<'a>,
    vertices: u32,
    sides: u32,
    marks: &mut [u32],
    stamp: u32,
    corners: &mut Vec<VertexId>,
) -> Result<&'a [u8], OffFault>
    requires few { sides ≤ MAX_SIDES }
    requires room { length marks.old ≡ vertices }
    requires earlier { (k : ℕ) → k < length marks.old → slice_index marks.old k < stamp }
    ensures face { Gives OffFault.Memory
        (λ colour. record { corners = corners.new.items; colour = colour.now })
        result (face_of true vertices sides (placed_line line.now)) }
    ensures corners { OnOk result (IsFace vertices corners.new.items) }
    ensures few { OnOk result (sides + length corners.new.items ≤ MAX_SIDES) }
    ensures marks { (k : ℕ) → k < length marks.new → slice_index marks.new k ≤ stamp }
{
    let mut tokens = Tokens::over(line.bytes);
    let size = read_size(line.number, &mut tokens)?;
    if size > MAX_SIDES as u64 - sides as u64 {
        return Err(OffFault::Limit {
            line: line.number,
            kind: LimitKind::Sides,
        });
    }
    read_corners(line.number, vertices, size as u32, &mut tokens, corners)?;
    refuse_repeats(line.number, marks, stamp, corners)?;
    Ok(tokens.rest())
}

// Passes over a line of which what stands behind the corners is known. Its number, and where its
// colour stands.
fn pass_plain(lines: &mut PlacedLines<'_>, behind: &[u8]) -> (u32, Span)
    requires behind { IsBehind (drop lines.old.at lines.old.text) behind.now }
    ensures text { lines.new.text ≡ lines.old.text }
    ensures within { result.1.start + result.1.len ≤ length lines.old.text }
    ensures colour { part_of lines.old.text result.1
        ≡ trimmed (uncommented (before_first is_line_end behind.now)) }
    ensures ahead { lines_ahead lines.old ≡ onto_lines (record {
      number = result.0;
      bytes = trimmed (uncommented (line_before (drop lines.old.at lines.old.text) behind.now));
    }) (tokens_of (line_before (drop lines.old.at lines.old.text) behind.now))
        (lines_ahead lines.new) }
{
    let from = lines.place();
    let before = lines.rest().len() - behind.len();
    let colour = first_line(behind);
    let line = lines.pass_line(before + colour.len);
    let span = Span {
        start: from + (before + colour.start) as u32,
        len: colour.bytes.len() as u32,
    };
    (line, span)
}

// The next face, behind faces of so many sides, by the tokens of its line.
fn next_by_tokens(
    lines: &mut PlacedLines<'_>,
    vertices: u32,
    sides: u32,
    marks: &mut [u32],
    stamp: u32,
    corners: &mut Vec<VertexId>,
) -> Result<Option<Span>, OffFault>
    requires few { sides ≤ MAX_SIDES }
    requires room { length marks.old ≡ vertices }
    requires earlier { (k : ℕ) → k < length marks.old → slice_index marks.old k < stamp }
    ensures face { GivesFace vertices sides (lines_ahead lines.old) (lines_ahead lines.new)
        lines.old.text corners.new.items result }
    ensures text { lines.new.text ≡ lines.old.text }
    ensures within { IfOk result (λ found. IfSome found (λ span.
        span.start + span.len ≤ length lines.old.text)) }
    ensures corners { IfOk result (λ found. IfSome found
        (λ _. IsFace vertices corners.new.items)) }
    ensures few { IfOk result (λ found. IfSome found
        (λ _. sides + length corners.new.items ≤ MAX_SIDES)) }
    ensures marks { (k : ℕ) → k < length marks.new → slice_index marks.new k ≤ stamp }
{
    let Some(line) = lines.next_line() else {
        return Ok(None);
    };
    let colour = read_by_tokens(&line, vertices, sides, marks, stamp, corners)?;
    Ok(Some(Span {
        start: line.start + (line.bytes.len() - colour.len()) as u32,
        len: colour.len() as u32,
    }))
}

// The next face line. A plain line is read in one pass. One with a fault other than a repeated
// corner isn't plain, so the order of faults is that of the tokens.
fn next_face(
    lines: &mut PlacedLines<'_>,
    vertices: u32,
    sides: u32,
    marks: &mut [u32],
    stamp: u32,
    corners: &mut Vec<VertexId>,
) -> Result<Option<Span>, OffFault>
    requires few { sides ≤ MAX_SIDES }
    requires room { length marks.old ≡ vertices }
    requires earlier { (k : ℕ) → k < length marks.old → slice_index marks.old k < stamp }
    ensures face { GivesFace vertices sides (lines_ahead lines.old) (lines_ahead lines.new)
        lines.old.text corners.new.items result }
    ensures text { lines.new.text ≡ lines.old.text }
    ensures within { IfOk result (λ found. IfSome found (λ span.
        span.start + span.len ≤ length lines.old.text)) }
    ensures corners { IfOk result (λ found. IfSome found
        (λ _. IsFace vertices corners.new.items)) }
    ensures few { IfOk result (λ found. IfSome found
        (λ _. sides + length corners.new.items ≤ MAX_SIDES)) }
    ensures marks { (k : ℕ) → k < length marks.new → slice_index marks.new k ≤ stamp }
{
    let Some(behind) = read_plain(lines.rest(), vertices, MAX_SIDES - sides, corners)? else {
        return next_by_tokens(lines, vertices, sides, marks, stamp, corners);
    };
    let (line, colour) = pass_plain(lines, behind);
    refuse_repeats(line, marks, stamp, corners)?;
    Ok(Some(colour))
}

/// The face lines of a text, as many as its counts say, over its vertices. Their colours are put to
/// those that are kept.
pub(crate) fn read_faces(
    alloc: Global,
    lines: &mut PlacedLines<'_>,
    vertices: u32,
    faces: u32,
    colours: &mut Colours<'_>,
) -> Result<Soup, OffFault>
    requires few { faces ≤ MAX_FACES }
    requires text { colours.old.text ≡ lines.old.text }
    requires none { colours.old.parts ≡ [] }
    ensures faces { Gives OffFault.Memory (λ soup. record {
      faces = soup.faces;
      colours = colours.new.parts;
      lines = lines_ahead lines.new;
    }) result (faces_at true vertices faces 0 (lines_ahead lines.old)) }
    ensures vertices { IfOk result (λ soup. soup.vertices ≡ vertices) }
    ensures count { IfOk result (λ soup. length soup.faces ≡ faces) }
    ensures colours { OnOk result (length colours.new.parts ≡ faces) }
    ensures same { OnOk result (colours.new.text ≡ colours.old.text) }
    ensures sides { IfOk result (λ soup. side_count soup ≤ MAX_SIDES) }
{
    let mut soup = Soup::start(alloc, vertices);
    let mut corners = Vec::new(alloc);
    let mut marks = vec![in alloc; 0u32; vertices as usize]?;
    for done in 0..faces {
        let sides = soup.side_count();
        let found = next_face(lines, vertices, sides, &mut marks, done + 1, &mut corners)?;
        let Some(colour) = found else {
            return Err(OffFault::Early {
                missing: faces - done,
            });
        };
        soup.push_face(&corners)?;
        colours.push(colour)?;
    }
    Ok(soup)
}
