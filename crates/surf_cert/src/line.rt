//! What the lines of a certificate say.
ghost use Rattle.std.specs.Prelude.{◌≡◌, [], ◌∷◌};
ghost use Rattle.std.specs.Str.{bytes_eq};
ghost use Rattle.surf_text.specs.Text.{tokens_of};
ghost use Rattle.surf_cert.specs.Lines.{cert_number, is_word, is_header, counts_of, base_of, base_at, parent_of};
ghost use Rattle.surf_cert.specs.Lines.{tree_row, dual_row, pair_of, is_next, pair_behind};

use surf_base::VertexId;
use surf_text::{Tokens, read_whole};

/// How many vertices, faces and left edges a certificate is for.
#[derive(Clone, Copy, Debug)]
pub struct Counts {
    pub vertices: u32,
    pub faces: u32,
    pub left: u32,
}

/// The number that a token is, if it is whole and at most 4,294,967,295.
pub fn read_number(token: &[u8]) -> Option<u32>
    ensures number { result ≡ cert_number token.now }
{
    match read_whole(token) {
        Some(n) if n <= 4_294_967_295 => Some(n as u32),
        _ => None,
    }
}

// The number that a token is, as a vertex.
fn read_vertex(token: &[u8]) -> Option<VertexId>
    ensures vertex { result ≡ cert_number token.now }
{
    match read_number(token) {
        Some(n) => Some(VertexId::new(n)),
        None => None,
    }
}

// Whether a token is a word.
fn is_token(token: &[u8], word: &[u8]) -> bool
    ensures word { result ≡ bytes_eq token.now word.now }
{
    token == word
}

/// Whether a line is exactly a word.
pub(crate) fn is_word(line: &[u8], word: &[u8]) -> bool
    ensures word { result ≡ is_word word.now (tokens_of line.now) }
{
    let mut tokens = Tokens::over(line);
    match tokens.next_token() {
        Some(token) => is_token(token, word) && tokens.is_empty(),
        None => false,
    }
}

/// Whether a line is the first line of a certificate of what a word names.
pub(crate) fn is_header(line: &[u8], word: &[u8]) -> bool
    ensures header { result ≡ is_header word.now (tokens_of line.now) }
{
    let mut tokens = Tokens::over(line);
    match (
        tokens.next_token(),
        tokens.next_token(),
        tokens.next_token(),
    ) {
        (Some(name), Some(version), Some(kind)) => {
            is_token(name, b"SURFCERT")
                && is_token(version, b"1")
                && is_token(kind, word)
                && tokens.is_empty()
        }
        _ => false,
    }
}

/// The counts of a line `counts V F k`.
pub(crate) fn read_counts(line: &[u8]) -> Option<Counts>
    ensures counts { result ≡ counts_of (tokens_of line.now) }
{
    let mut tokens = Tokens::over(line);
    let word = tokens.next_token()?;
    if !is_token(word, b"counts") {
        return None;
    }
    let vertices = read_number(tokens.next_token()?)?;
    let faces = read_number(tokens.next_token()?)?;
    let left = read_number(tokens.next_token()?)?;
    if tokens.is_empty() {
        Some(Counts {
            vertices,
            faces,
            left,
        })
    } else {
        None
    }
}

/// The base of a line `tree x`.
pub(crate) fn read_base(line: &[u8]) -> Option<VertexId>
    ensures base { result ≡ base_of (tokens_of line.now) }
{
    let mut tokens = Tokens::over(line);
    let word = tokens.next_token()?;
    if !is_token(word, b"tree") {
        return None;
    }
    let base = read_vertex(tokens.next_token()?)?;
    if tokens.is_empty() { Some(base) } else { None }
}

/// The base of a line `tree x`, where it is this vertex.
pub(crate) fn read_base_at(x: u32, line: &[u8]) -> Option<VertexId>
    ensures base { result ≡ base_at x (tokens_of line.now) }
{
    match read_base(line) {
        Some(base) if base.number() == x => Some(base),
        _ => None,
    }
}

// A parent: a number, or `-` for none.
fn read_parent(token: &[u8]) -> Option<Option<VertexId>>
    ensures parent { result ≡ parent_of token.now }
{
    if is_token(token, b"-") {
        return Some(None);
    }
    match read_vertex(token) {
        Some(u) => Some(Some(u)),
        None => None,
    }
}

/// The distance and the parent of a line `d p`.
pub(crate) fn read_tree_row(line: &[u8]) -> Option<(u64, Option<VertexId>)>
    ensures row { result ≡ tree_row (tokens_of line.now) }
{
    let mut tokens = Tokens::over(line);
    let distance = read_whole(tokens.next_token()?)?;
    let parent = read_parent(tokens.next_token()?)?;
    if tokens.is_empty() {
        Some((distance, parent))
    } else {
        None
    }
}

// A depth of at least 1, and a side with its lesser end first.
fn read_below_root(depth: &[u8], u: &[u8], v: &[u8]) -> Option<(u32, Option<(VertexId, VertexId)>)>
    ensures row { result ≡ dual_row (depth.now ∷ u.now ∷ v.now ∷ []) }
{
    let depth = read_number(depth)?;
    let u = read_number(u)?;
    let v = read_number(v)?;
    if depth >= 1 && u < v {
        Some((depth, Some((VertexId::new(u), VertexId::new(v)))))
    } else {
        None
    }
}

/// The depth and the side of a line `depth u v` or `0 -`.
pub(crate) fn read_dual_row(line: &[u8]) -> Option<(u32, Option<(VertexId, VertexId)>)>
    ensures row { result ≡ dual_row (tokens_of line.now) }
{
    let mut tokens = Tokens::over(line);
    let depth = tokens.next_token()?;
    let u = tokens.next_token()?;
    match tokens.next_token() {
        Some(v) => {
            if !tokens.is_empty() {
                return None;
            }
            read_below_root(depth, u, v)
        }
        None => {
            if is_token(depth, b"0") && is_token(u, b"-") {
                Some((0, None))
            } else {
                None
            }
        }
    }
}

// The pair of a line `u v`, the lesser first.
fn read_pair(line: &[u8]) -> Option<(u32, u32)>
    ensures pair { result ≡ pair_of (tokens_of line.now) }
{
    let mut tokens = Tokens::over(line);
    let u = read_number(tokens.next_token()?)?;
    let v = read_number(tokens.next_token()?)?;
    if tokens.is_empty() && u < v {
        Some((u, v))
    } else {
        None
    }
}

// Whether a pair stands behind the one before, if there is one.
fn is_next(before: Option<(u32, u32)>, pair: (u32, u32)) -> bool
    ensures next { result ≡ is_next before pair }
{
    match before {
        Some((u, v)) => u < pair.0 || u == pair.0 && v < pair.1,
        None => true,
    }
}

/// The pair of a line `u v`, which stands behind the pair of the line before.
pub(crate) fn read_pair_behind(before: Option<(u32, u32)>, line: &[u8]) -> Option<(u32, u32)>
    ensures pair { result ≡ pair_behind before (tokens_of line.now) }
{
    let pair = read_pair(line)?;
    if is_next(before, pair) {
        Some(pair)
    } else {
        None
    }
}
