//! What the lines of a length file say.
ghost use Rattle.std.specs.Prelude.{◌≡◌, ◌<◌, ◌≤◌, false, IfSome, IfOk, MatchOption};
ghost use Rattle.std.specs.Str.{bytes_eq};
ghost use Rattle.surf_text.specs.Text.{tokens_of};
ghost use Rattle.surf_text.specs.Walks.{placed_line};
ghost use Rattle.surf_surfaces.specs.Mesh.{pair, pair_eq, among, edges};
ghost use Rattle.surf_surfaces.specs.Surface.{edge_count, ends};
ghost use Rattle.surf_lengths.specs.Lines.{as_length, three_numbers, edge_named, of_numbers, entry_of, begins_with, is_version};
ghost use Rattle.surf_lengths.specs.Lines.{second_number, default_of};
ghost use Rattle.surf_lengths.specs.Walks.{Says};

use crate::LengthFault;
use surf_base::{EdgeId, VertexId};
use surf_mesh::HalfMesh;
use surf_text::{PlacedLine, Tokens, read_whole};

// A number as a length.
fn as_length(n: u64) -> Option<u32>
    ensures length { result ≡ as_length n }
    ensures positive { IfSome result (λ m. 1 ≤ m) }
{
    if 1 <= n && n <= 4_294_967_295 {
        Some(n as u32)
    } else {
        None
    }
}

// The numbers of a line that has exactly three tokens, all whole.
fn three_numbers(line: &[u8]) -> Option<(u64, u64, u64)>
    ensures numbers { result ≡ three_numbers (tokens_of line.now) }
{
    let mut tokens = Tokens::over(line);
    let u = read_whole(tokens.next_token()?)?;
    let v = read_whole(tokens.next_token()?)?;
    let n = read_whole(tokens.next_token()?)?;
    if tokens.is_empty() {
        Some((u, v, n))
    } else {
        None
    }
}

// Whether an edge is the one between two vertices, whichever of them comes first.
fn joins(mesh: &HalfMesh, e: EdgeId, u: VertexId, v: VertexId) -> bool
    requires inside { e < edge_count mesh.now }
    ensures joins { result ≡ pair_eq (ends mesh.now e) (pair u v) }
{
    let (low, high) = mesh.ends(e);
    if u < v {
        low == u && high == v
    } else {
        low == v && high == u
    }
}

// The edge between two vertices. Files name edges mostly in their order, so the one at `expected`
// is tried before the search.
fn find_edge(mesh: &HalfMesh, u: VertexId, v: VertexId, expected: usize) -> Option<EdgeId>
    ensures edge { MatchOption result (among (pair u v) (edges mesh.now) ≡ false)
        (λ e. (e < edge_count mesh.now) × (ends mesh.now e ≡ pair u v)) }
{
    if expected < mesh.edges() as usize {
        let e = EdgeId::new(expected as u32);
        if joins(mesh, e, u, v) {
            return Some(e);
        }
    }
    mesh.find_edge(u, v)
}

// The edge between two vertices that a text names, tried first at `expected`.
fn edge_named(mesh: &HalfMesh, u: u64, v: u64, expected: usize) -> Option<EdgeId>
    ensures edge { result ≡ edge_named mesh.now u v }
    ensures inside { IfSome result (λ e. e < edge_count mesh.now) }
{
    let vertices = u64::from(mesh.vertices());
    if u < vertices && v < vertices {
        find_edge(
            mesh,
            VertexId::new(u as u32),
            VertexId::new(v as u32),
            expected,
        )
    } else {
        None
    }
}

/// What a line says: its number, the edge that it names, and the length of that.
#[derive(Clone, Copy)]
pub(crate) struct Entry {
    pub line: u32,
    pub edge: EdgeId,
    pub length: u32,
}

/// What a line with these numbers says. The edge is tried first at `expected`.
pub(crate) fn entry_with(
    mesh: &HalfMesh,
    line: u32,
    numbers: (u64, u64, u64),
    expected: usize,
) -> Result<Entry, LengthFault>
    ensures entry { Says result (of_numbers mesh.now line numbers) }
    ensures line { IfOk result (λ x. x.line ≡ line) }
    ensures inside { IfOk result (λ x. x.edge < edge_count mesh.now) }
{
    let (u, v, n) = numbers;
    let Some(length) = as_length(n) else {
        return Err(LengthFault::Range { line });
    };
    let Some(edge) = edge_named(mesh, u, v, expected) else {
        return Err(LengthFault::NotEdge { line });
    };
    Ok(Entry { line, edge, length })
}

/// What a line says. The edge is tried first at `expected`.
pub(crate) fn read_entry(
    mesh: &HalfMesh,
    line: PlacedLine<'_>,
    expected: usize,
) -> Result<Entry, LengthFault>
    ensures entry { Says result (entry_of mesh.now (placed_line line.entry)) }
    ensures line { IfOk result (λ x. x.line ≡ line.entry.number) }
    ensures inside { IfOk result (λ x. x.edge < edge_count mesh.now) }
{
    match three_numbers(line.bytes) {
        None => Err(LengthFault::Form { line: line.number }),
        Some(numbers) => entry_with(mesh, line.number, numbers, expected),
    }
}

// Whether a token is a word.
fn is_word(token: &[u8], word: &[u8]) -> bool
    ensures word { result ≡ bytes_eq token.now word.now }
{
    token == word
}

/// Whether the first token of a line is a word.
pub(crate) fn begins_with(line: &[u8], word: &[u8]) -> bool
    ensures word { result ≡ begins_with word.now (tokens_of line.now) }
{
    match Tokens::over(line).next_token() {
        None => false,
        Some(token) => is_word(token, word),
    }
}

/// Whether a line has exactly the tokens of version 2.
pub(crate) fn is_version(line: &[u8]) -> bool
    ensures version { result ≡ is_version (tokens_of line.now) }
{
    let mut tokens = Tokens::over(line);
    match (tokens.next_token(), tokens.next_token()) {
        (Some(name), Some(version)) => {
            is_word(name, b"SURFLEN") && is_word(version, b"2") && tokens.is_empty()
        }
        _ => false,
    }
}

// The second token of a line that has exactly two, as a whole number.
fn second_number(line: &[u8]) -> Option<u64>
    ensures number { result ≡ second_number (tokens_of line.now) }
{
    let mut tokens = Tokens::over(line);
    tokens.next_token()?;
    let n = read_whole(tokens.next_token()?)?;
    if tokens.is_empty() { Some(n) } else { None }
}

/// The length that a default line gives.
pub(crate) fn read_default(line: PlacedLine<'_>) -> Result<u32, LengthFault>
    ensures default { result ≡ default_of (placed_line line.entry) }
    ensures positive { IfOk result (λ n. 1 ≤ n) }
{
    let number = line.number;
    match second_number(line.bytes) {
        None => Err(LengthFault::Form { line: number }),
        Some(n) => match as_length(n) {
            None => Err(LengthFault::Range { line: number }),
            Some(length) => Ok(length),
        },
    }
}
