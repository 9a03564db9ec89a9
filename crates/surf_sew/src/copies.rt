//! The copy lines of a text.
ghost use Rattle.std.specs.Prelude.{◌≡◌, ◌<◌, ◌≤◌, ◌+◌, ◌-◌, ◌++◌, ◌∷◌, [], ℕ, true, Some, IfOk, MatchOption, codes};
ghost use Rattle.std.specs.Prelude.{length, slice_index};
ghost use Rattle.std.specs.List.{count_by, position, slice_split};
ghost use Rattle.std.specs.Option.{IfSome};
ghost use Rattle.std.specs.Str.{bytes_eq};
ghost use Rattle.surf_text.specs.Text.{is_comment_sign, is_line_end, words_of};
ghost use Rattle.surf_text.specs.Walks.{parts_of};
ghost use Rattle.surf_base.specs.Gives.{Gives};
ghost use Rattle.surf_sew.specs.Copies.{word_lines_from, is_copy, copies_among, origin_at, origin_of, copies_in};
ghost use Rattle.surf_sew.specs.declared.copies.CopyFault.TheVariants.{Memory};
ghost use Rattle.surf_base.specs.declared.limits.TheConstants.{MAX_TEXT};

use memchr::{memchr, memchr_iter, memrchr};
use std::alloc::{AllocFailed, Global};
use surf_base::VertexId;
use surf_text::{Tokens, read_whole};

/// The first fault of the copy lines of a text. Lines are numbered from 1.
#[derive(Clone, Copy, Debug, PartialEq, Eq)]
pub enum CopyFault {
    /// This copy line isn't `# copy i from v`, with its own place from 0 as `i` and a number of 32
    /// bits as `v`.
    CopyForm { line: u32 },
    /// The number of copy lines, where it isn't that of the copies.
    CopyCount { have: u32 },
    /// There was no memory.
    Memory,
}

impl<T: Drop> From<AllocFailed<T>> for CopyFault {
    ghost from_gives = { λ _ e. e ≡ Memory };

    fn from(_: AllocFailed<T>) -> CopyFault {
        CopyFault::Memory
    }
}

fn line_end(bytes: &[u8]) -> Option<usize>
    ensures place { result ≡ position is_line_end bytes.now }
{
    memchr(b'\n', bytes)
}

fn comment_sign(bytes: &[u8]) -> Option<usize>
    ensures place { result ≡ position is_comment_sign bytes.now }
{
    memchr(b'#', bytes)
}

fn count_ends(bytes: &[u8]) -> usize
    ensures count { result ≡ count_by is_line_end bytes.now }
{
    memchr_iter(b'\n', bytes).count()
}

// Where the line of a place begins: behind the last line end before it.
fn line_start(bytes: &[u8], place: usize) -> usize
    requires within { place ≤ length bytes.now }
    ensures before { result ≤ place }
    ensures behind { 0 < result → is_line_end (slice_index bytes.now (result - 1)) ≡ true }
{
    match memrchr(b'\n', &bytes[..place]) {
        Some(end) => end + 1,
        None => 0,
    }
}

// A first line and what stands behind its end, if it has one.
fn split_line(bytes: &[u8]) -> (&[u8], Option<&[u8]>)
    ensures parts { slice_split is_line_end bytes.now
        ≡ result.0.now ∷ parts_of is_line_end result.1 }
{
    match line_end(bytes) {
        Some(end) => (&bytes[..end], Some(&bytes[end + 1..])),
        None => (bytes, None),
    }
}

// A line with a comment sign, how many lines without one stand before it, and what stands behind
// its end.
#[derive(Clone, Copy)]
struct Marked<'a> {
    skipped: usize,
    line: &'a [u8],
    behind: Option<&'a [u8]>,
}

// How many lines have no comment sign before the first that has one, and what stands behind them.
fn skip_lines(bytes: &[u8]) -> Option<(usize, &[u8])>
    ensures copies { MatchOption result ((n : ℕ) →
        copies_among (word_lines_from n (slice_split is_line_end bytes.now)) ≡ []) (λ r. (n : ℕ) →
        copies_among (word_lines_from n (slice_split is_line_end bytes.now))
        ≡ copies_among (word_lines_from (n + r.0) (slice_split is_line_end r.1.now))) }
    ensures lines { IfSome result (λ r. r.0 + length (slice_split is_line_end r.1.now)
        ≡ length (slice_split is_line_end bytes.now)) }
{
    let sign = comment_sign(bytes)?;
    let start = line_start(bytes, sign);
    Some((count_ends(&bytes[..start]), &bytes[start..]))
}

// The next line with a comment sign. No other is a copy line.
fn next_marked(rest: Option<&[u8]>) -> Option<Marked<'_>>
    ensures copies { MatchOption result ((n : ℕ) →
        copies_among (word_lines_from n (parts_of is_line_end rest.entry)) ≡ []) (λ m. (n : ℕ) →
        copies_among (word_lines_from n (parts_of is_line_end rest.entry))
        ≡ copies_among (word_lines_from (n + m.skipped)
        (m.line.now ∷ parts_of is_line_end m.behind))) }
    ensures lines { IfSome result (λ m. m.skipped + (length (parts_of is_line_end m.behind) + 1)
        ≡ length (parts_of is_line_end rest.entry)) }
{
    let (skipped, bytes) = skip_lines(rest?)?;
    let (line, behind) = split_line(bytes);
    Some(Marked {
        skipped,
        line,
        behind,
    })
}

fn is_word(token: &[u8], word: &[u8]) -> bool
    ensures word { result ≡ bytes_eq token.now word.now }
{
    token == word
}

// What stands behind `# copy ` where a line begins as `cut` writes it.
fn behind_copy(line: &[u8]) -> Option<&[u8]>
    ensures behind { IfSome result (λ rest. line.now ≡ codes "# copy " ++ rest.now) }
{
    line.strip_prefix(b"# copy ")
}

fn is_copy_line(line: &[u8]) -> bool
    ensures copy { result ≡ is_copy (words_of line.now) }
{
    if behind_copy(line).is_some() {
        return true;
    }
    let mut words = Tokens::between_blanks(line);
    match (words.next_token(), words.next_token()) {
        (Some(sign), Some(word)) => is_word(sign, b"#") && is_word(word, b"copy"),
        _ => false,
    }
}

// The vertex, where the copy is the one that is due.
fn origin_at(place: u64, copy: u64, vertex: u64) -> Option<VertexId>
    ensures origin { result ≡ origin_at place (Some copy) (Some vertex) }
{
    if copy == place && vertex <= u32::MAX as u64 {
        Some(VertexId::new(vertex as u32))
    } else {
        None
    }
}

// What stands before and behind ` from ` where that is at the first space.
fn around_from(bytes: &[u8]) -> Option<(&[u8], &[u8])>
    ensures parts { IfSome result (λ r. bytes.now ≡ r.0.now ++ (codes " from " ++ r.1.now)) }
{
    let end = bytes.iter().position(|b| *b == b' ')?;
    let behind = bytes[end..].strip_prefix(b" from ")?;
    Some((&bytes[..end], behind))
}

// The origin that a copy line names which has one space between its words. None says nothing of a
// line.
fn read_plain(line: &[u8], place: u64) -> Option<VertexId>
    ensures origin { IfSome result (λ v. origin_of place (words_of line.now) ≡ Some v) }
{
    let numbers = behind_copy(line)?;
    let (copy, vertex) = around_from(numbers)?;
    let copy = read_whole(copy)?;
    let vertex = read_whole(vertex)?;
    origin_at(place, copy, vertex)
}

// The origin that a copy line names, by the words of the line.
fn read_words(line: &[u8], place: u64) -> Option<VertexId>
    ensures origin { result ≡ origin_of place (words_of line.now) }
{
    let mut words = Tokens::between_blanks(line);
    words.next_token()?;
    words.next_token()?;
    let copy = words.next_token()?;
    let from = words.next_token()?;
    let vertex = words.next_token()?;
    if !words.is_empty() {
        return None;
    }
    if !is_word(from, b"from") {
        return None;
    }
    origin_at(place, read_whole(copy)?, read_whole(vertex)?)
}

// The origin that a copy line names, for the copy at its place.
fn read_origin(line: &[u8], place: u64) -> Option<VertexId>
    ensures origin { result ≡ origin_of place (words_of line.now) }
{
    match read_plain(line, place) {
        Some(origin) => Some(origin),
        None => read_words(line, place),
    }
}

/// Reads the origins of so many copies from the copy lines of a text: those whose first two tokens,
/// between blanks alone, are `#` and `copy`. They may stand anywhere. Refuses with the first that
/// isn't `# copy i from v`, then where there are more or fewer of them than `count`, and with
/// `Memory` where there is none. The text has at most 268,435,456 bytes.
pub fn read_copies(alloc: Global, text: &[u8], count: u32) -> Result<Vec<VertexId>, CopyFault>
    requires short { length text.now ≤ MAX_TEXT }
    ensures copies { Gives CopyFault.Memory (λ origins. origins.items) result
        (copies_in text.now count) }
    ensures count { IfOk result (λ origins. length origins.items ≡ count) }
{
    let mut origins = Vec::new(alloc);
    let mut rest = Some(text);
    let mut number: u32 = 0;
    while let Some(marked) = next_marked(rest) {
        rest = marked.behind;
        number += marked.skipped as u32 + 1;
        if is_copy_line(marked.line) {
            let Some(origin) = read_origin(marked.line, origins.len() as u64) else {
                return Err(CopyFault::CopyForm { line: number });
            };
            origins.push(origin)?;
        }
    }
    if origins.len() != count as usize {
        return Err(CopyFault::CopyCount {
            have: origins.len() as u32,
        });
    }
    Ok(origins)
}
