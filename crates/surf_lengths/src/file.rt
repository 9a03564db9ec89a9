//! Reads a length file.
ghost use Rattle.std.specs.Prelude.{◌≡◌, ◌≢◌, ◌<◌, ◌≤◌, ◌^◌, ◌==◌, ℕ, Option, Some, Ok, Err, All, drop, length, map, replicate};
ghost use Rattle.std.specs.Prelude.{IfOk, IfSome, MatchResult, OnOk};
ghost use Rattle.std.specs.List.{fold, position};
ghost use Rattle.surf_text.specs.Text.{lines_of};
ghost use Rattle.surf_text.specs.Walks.{lines_ahead};
ghost use Rattle.surf_surfaces.specs.Surface.{edge_count};
ghost use Rattle.surf_lengths.specs.Files.{Head, Named, behind_version, length_head, name_line, none_named};
ghost use Rattle.surf_base.specs.Gives.{Gives};
ghost use Rattle.surf_lengths.specs.Files.{all_named, missing_edge, lengths_in};
ghost use Rattle.surf_lengths.specs.Naming.{IsFirstNaming, length_or, IsTableOf, AreNamed};
ghost use Rattle.surf_lengths.specs.Walks.{GivesEntry};

use crate::line::{Entry, begins_with, entry_with, is_version, read_default, read_entry};
use crate::plain::plain_line;
use crate::{LengthFault, Lengths};
use std::alloc::Global;
use surf_base::EdgeId;
use surf_mesh::HalfMesh;
use surf_text::PlacedLines;

// A walk over the lines behind the first one.
fn behind_first(text: &[u8]) -> PlacedLines<'_>
    requires short { length text.now < 4294967295 }
    ensures lines { lines_ahead result ≡ drop 1 (lines_of text.now) }
{
    let mut lines = PlacedLines::over(text);
    lines.next_line();
    lines
}

// Behind the first line of version 2: the default, if there is one, and a walk over the lines that
// name edges.
fn read_behind_version(text: &[u8]) -> Result<(Option<u32>, PlacedLines<'_>), LengthFault>
    requires short { length text.now < 4294967295 }
    ensures head { MatchResult result (λ x. behind_version (drop 1 (lines_of text.now))
        ≡ Ok (record { default = x.0; entries = lines_ahead x.1 }))
        (λ e. behind_version (drop 1 (lines_of text.now)) ≡ Err e) }
    ensures positive { IfOk result (λ x. IfSome x.0 (λ n. 1 ≤ n)) }
{
    let mut lines = behind_first(text);
    match lines.next_line() {
        None => Ok((None, lines)),
        Some(line) => {
            if !begins_with(line.bytes, b"default") {
                return Ok((None, behind_first(text)));
            }
            let default = read_default(line)?;
            Ok((Some(default), lines))
        }
    }
}

// The default, if there is one, and a walk over the lines that name edges.
fn read_head(text: &[u8]) -> Result<(Option<u32>, PlacedLines<'_>), LengthFault>
    requires short { length text.now < 4294967295 }
    ensures head { MatchResult result (λ x. length_head (lines_of text.now)
        ≡ Ok (record { default = x.0; entries = lines_ahead x.1 }))
        (λ e. length_head (lines_of text.now) ≡ Err e) }
    ensures positive { IfOk result (λ x. IfSome x.0 (λ n. 1 ≤ n)) }
{
    let all = PlacedLines::over(text);
    match PlacedLines::over(text).next_line() {
        None => Ok((None, all)),
        Some(line) => {
            if !begins_with(line.bytes, b"SURFLEN") {
                return Ok((None, all));
            }
            if !is_version(line.bytes) {
                return Err(LengthFault::Form { line: line.number });
            }
            read_behind_version(text)
        }
    }
}

// What the next line says, by its tokens.
fn next_by_tokens(
    mesh: &HalfMesh,
    lines: &mut PlacedLines<'_>,
    expected: usize,
) -> Result<Option<Entry>, LengthFault>
    ensures entry { GivesEntry mesh.now (lines_ahead lines.old) (lines_ahead lines.new) result }
    ensures inside { IfOk result (λ x. IfSome x (λ entry. entry.edge < edge_count mesh.now)) }
    ensures numbered { IfOk result (λ x. IfSome x (λ entry. 1 ≤ entry.line)) }
{
    let Some(line) = lines.next_line() else {
        return Ok(None);
    };
    let entry = read_entry(mesh, line, expected)?;
    Ok(Some(entry))
}

// What the next line says: a plain line is read in one pass, another by its tokens.
fn next_entry(
    mesh: &HalfMesh,
    lines: &mut PlacedLines<'_>,
    expected: usize,
) -> Result<Option<Entry>, LengthFault>
    ensures entry { GivesEntry mesh.now (lines_ahead lines.old) (lines_ahead lines.new) result }
    ensures inside { IfOk result (λ x. IfSome x (λ entry. entry.edge < edge_count mesh.now)) }
    ensures numbered { IfOk result (λ x. IfSome x (λ entry. 1 ≤ entry.line)) }
{
    let Some(plain) = plain_line(lines.rest()) else {
        return next_by_tokens(mesh, lines, expected);
    };
    let line = lines.pass_line(plain.len);
    let numbers = (u64::from(plain.u), u64::from(plain.v), u64::from(plain.n));
    let entry = entry_with(mesh, line, numbers, expected)?;
    Ok(Some(entry))
}

// The number of the first of the lines to come that names an edge.
fn first_naming(
    mesh: &HalfMesh,
    lines: &mut PlacedLines<'_>,
    edge: EdgeId,
) -> Result<u32, LengthFault>
    ensures first { (number : ℕ) → IsFirstNaming mesh.now edge (lines_ahead lines.old) number →
        result ≡ Ok number }
{
    let mut expected = 0;
    while let Some(entry) = next_entry(mesh, lines, expected)? {
        if entry.edge == edge {
            return Ok(entry.line);
        }
        expected = entry.edge.index() + 1;
    }
    Ok(0)
}

// The number of the first line of a text that names an edge.
fn earlier_line(mesh: &HalfMesh, text: &[u8], edge: EdgeId) -> Result<u32, LengthFault>
    requires short { length text.now < 4294967295 }
    ensures first { (head : Head) → length_head (lines_of text.now) ≡ Ok head → (number : ℕ) →
        IsFirstNaming mesh.now edge head.entries number → result ≡ Ok number }
{
    let (_, mut lines) = read_head(text)?;
    first_naming(mesh, &mut lines, edge)
}

// Gives the edges of all lines to come their lengths, in a table that has 0 for each edge. Which
// line names an edge isn't kept: where a later one names it again, the text is read anew.
fn name_all(
    mesh: &HalfMesh,
    text: &[u8],
    lines: &mut PlacedLines<'_>,
    table: &mut [u32],
) -> Result<(), LengthFault>
    requires short { length text.now < 4294967295 }
    requires head { (default : Option ℕ) × (length_head (lines_of text.now)
        ≡ Ok (record { default = default; entries = lines_ahead lines.old })) }
    requires none { table.old ≡ replicate (edge_count mesh.now) 0 }
    ensures named { (default : Option ℕ) → MatchResult result
        (λ _. AreNamed mesh.now default (lines_ahead lines.old) table.new)
        (λ e. fold (name_line mesh.now) (Ok (none_named mesh.now default)) (lines_ahead lines.old)
        ≡ Err e) }
    ensures sized { length table.new ≡ edge_count mesh.now }
{
    let mut expected = 0;
    while let Some(entry) = next_entry(mesh, lines, expected)? {
        let e = entry.edge.index();
        if table[e] != 0 {
            let earlier = earlier_line(mesh, text, entry.edge)?;
            return Err(LengthFault::Twice {
                line: entry.line,
                earlier,
            });
        }
        table[e] = entry.length;
        expected = e + 1;
    }
    Ok(())
}

// The first edge without a length.
fn first_unnamed(table: &[u32]) -> Option<usize>
    ensures place { result ≡ position (λ n. n == 0) table.now }
{
    table.iter().position(|n| *n == 0)
}

// Gives a length to the edges that have none.
fn fill(default: u32, table: &mut [u32])
    ensures filled { table.new ≡ map (length_or (Some default)) table.old }
{
    for e in 0..table.len() {
        if table[e] == 0 {
            table[e] = default;
        }
    }
}

// Gives the default to the edges that no line names. Where there is none, no edge may be missing.
fn complete(mesh: &HalfMesh, default: Option<u32>, table: &mut [u32]) -> Result<(), LengthFault>
    requires sized { length table.old ≡ edge_count mesh.now }
    requires few { length table.old < 2 ^ 32 }
    requires positive { IfSome default (λ n. 1 ≤ n) }
    ensures complete { (named : Named) → IsTableOf mesh.now default named table.old →
        MatchResult result (λ _. all_named mesh.now named (missing_edge default named.lines) ≡ Ok table.new)
        (λ e. all_named mesh.now named (missing_edge default named.lines) ≡ Err e) }
    ensures some { OnOk result (All (λ n. n ≢ 0) table.new) }
    ensures sized { length table.new ≡ edge_count mesh.now }
{
    if let Some(n) = default {
        fill(n, table);
        return Ok(());
    }
    if let Some(e) = first_unnamed(table) {
        let (u, v) = mesh.ends(EdgeId::new(e as u32));
        return Err(LengthFault::Missing { u, v });
    }
    Ok(())
}

// Reads the lengths into a table that has 0 for each edge.
fn read_table(mesh: &HalfMesh, text: &[u8], table: &mut [u32]) -> Result<(), LengthFault>
    requires short { length text.now < 4294967295 }
    requires few { edge_count mesh.now < 2 ^ 32 }
    requires none { table.old ≡ replicate (edge_count mesh.now) 0 }
    ensures read { MatchResult result (λ _. lengths_in mesh.now text.now ≡ Ok table.new)
        (λ e. lengths_in mesh.now text.now ≡ Err e) }
    ensures some { OnOk result (All (λ n. n ≢ 0) table.new) }
    ensures sized { length table.new ≡ edge_count mesh.now }
{
    let (default, mut lines) = read_head(text)?;
    name_all(mesh, text, &mut lines, table)?;
    complete(mesh, default, table)
}

/// Reads the lengths of the edges of a mesh from the text of a length file. The text is shorter
/// than 2^32 − 1 bytes, so that line numbers fit.
///
/// Each line is `u v n`, which gives the edge between `u` and `v` the length `n`, whichever of the
/// two comes first. The first line may be `SURFLEN 2`, and then the next line may be `default n`,
/// which gives `n` to the edges without a line. A line is tested for its form, for the range of
/// its number, for its edge, and for an earlier line with the same edge, in this order, and the
/// first faulty line decides. Where no line is faulty, the least edge that has neither a line nor
/// a default is missing.
pub fn read_lengths(alloc: Global, text: &[u8], mesh: &HalfMesh) -> Result<Lengths, LengthFault>
    requires short { length text.now < 4294967295 }
    ensures gives { Gives LengthFault.Memory (λ l. l) result (lengths_in mesh.now text.now) }
    ensures count { IfOk result (λ lengths. length lengths ≡ edge_count mesh.now) }
{
    let mut table = vec![in alloc; 0u32; mesh.edges() as usize]?;
    read_table(mesh, text, &mut table)?;
    Ok(Lengths::from_values(table))
}
