//! A walk over the lines of a text that says where they stand.
ghost use Rattle.std.specs.Prelude.{◌≡◌, ◌<◌, ◌≤◌, ◌+◌, [], ◌∷◌, length, take, drop, IfSome, MatchOption};
ghost use Rattle.std.specs.List.{before_first, position_or_len};
ghost use Rattle.surf_text.specs.Text.{is_line_end, tokens_of, trimmed, uncommented, onto_lines};
ghost use Rattle.surf_text.specs.Walks.{placed_line, lines_ahead, StandsAt};

use crate::places::{split_uncommented, trim_back, trim_front};
use std::marker::Model;

/// What a first line has: how many bytes it is long, and the slice from its first token's first
/// byte to its last token's last byte, which begins at byte `start` of the line.
#[derive(Clone, Copy, Debug)]
pub struct FirstLine<'a> {
    pub len: usize,
    pub start: usize,
    pub bytes: &'a [u8],
}

// The first line of a text, however long it is.
#[inline(never)]
fn long_line(text: &[u8]) -> FirstLine<'_>
    ensures len { result.len ≡ position_or_len is_line_end text.now }
    ensures bytes { result.bytes.now ≡ trimmed (uncommented (before_first is_line_end text.now)) }
    ensures place { StandsAt text.now result.bytes.now result.start }
{
    let (line, len) = split_uncommented(text);
    let front = trim_front(line);
    FirstLine {
        len,
        start: line.len() - front.len(),
        bytes: trim_back(front),
    }
}

/// The first line of a text.
///
/// Nothing is looked for where it ends at once, as a face line does behind its corners.
#[inline]
pub fn first_line(text: &[u8]) -> FirstLine<'_>
    ensures len { result.len ≡ position_or_len is_line_end text.now }
    ensures bytes { result.bytes.now ≡ trimmed (uncommented (before_first is_line_end text.now)) }
    ensures place { StandsAt text.now result.bytes.now result.start }
{
    match text {
        [b'\n', ..] => FirstLine {
            len: 0,
            start: 0,
            bytes: &text[..0],
        },
        _ => long_line(text),
    }
}

/// A line that has a token: its number in the text, counted from 1, the place of its first token's
/// first byte in the text, and the slice of the text from there to its last token's last byte.
#[derive(Clone, Copy, Debug)]
pub struct PlacedLine<'a> {
    pub number: u32,
    pub start: u32,
    pub bytes: &'a [u8],
}

/// A walk over the lines that have a token, seen as the text, the place that it has come to and the
/// number of lines before that place.
#[derive(Drop)]
pub struct PlacedLines<'a> {
    text: &'a [u8],
    at: usize,
    number: u32,
}

impl<'a> Model for PlacedLines<'a> {
    ghost use Rattle.std.specs.Prelude.{◌<◌, ◌≤◌, length};
    ghost use Rattle.surf_text.specs.Walks.{PlacedWalk};

    ghost Value = { PlacedWalk };

    ghost view = { λ s. record { text = s.text.now; at = s.at; number = s.number } };

    ghost invariant = { λ s. (s.number ≤ s.at) × (s.at ≤ length s.text.now)
        × (length s.text.now < 4294967295) };
}

impl<'a> PlacedLines<'a> {
    /// A walk over all lines of a text that have a token. The text is shorter than 2^32 − 1 bytes,
    /// so that line numbers and places fit.
    pub fn over(text: &'a [u8]) -> PlacedLines<'a>
        requires short { length text.now < 4294967295 }
        ensures start { result ≡ record { text = text.now; at = 0; number = 0 } }
    {
        PlacedLines {
            text,
            at: 0,
            number: 0,
        }
    }

    /// The text from the place on that it has come to.
    pub fn rest(&self) -> &'a [u8]
        ensures bytes { result.now ≡ drop self.now.at self.now.text }
    {
        &self.text[self.at..]
    }

    /// The place that it has come to.
    pub fn place(&self) -> u32
        ensures place { result ≡ self.now.at }
        ensures within { self.now.at ≤ length self.now.text }
        ensures short { length self.now.text < 4294967295 }
    {
        self.at as u32
    }

    /// Passes over a line of so many bytes, whatever stands on it. The number of that line.
    pub fn pass_line(&mut self, len: usize) -> u32
        requires inside { self.old.at < length self.old.text }
        requires line { position_or_len is_line_end (drop self.old.at self.old.text) ≡ len }
        ensures text { self.new.text ≡ self.old.text }
        ensures onward { self.old.at < self.new.at }
        ensures number { result ≡ self.old.number + 1 }
        ensures ahead { lines_ahead self.old ≡ onto_lines (record {
          number = result;
          bytes = trimmed (uncommented (take len (drop self.old.at self.old.text)));
        }) (tokens_of (take len (drop self.old.at self.old.text))) (lines_ahead self.new) }
    {
        self.at = self.text.len().min(self.at + len + 1);
        self.number += 1;
        self.number
    }

    /// The next line that has a token. None where no later line has one.
    pub fn next_line(&mut self) -> Option<PlacedLine<'a>>
        ensures next { MatchOption result
            ((lines_ahead self.old ≡ []) × (lines_ahead self.new ≡ []))
            (λ line. lines_ahead self.old ≡ placed_line line ∷ lines_ahead self.new) }
        ensures text { self.new.text ≡ self.old.text }
        ensures place { IfSome result (λ line. StandsAt self.old.text line.bytes.now line.start) }
        ensures short { length self.old.text < 4294967295 }
    {
        while self.at < self.text.len() {
            let from = self.at;
            let line = first_line(&self.text[from..]);
            let number = self.pass_line(line.len);
            if !line.bytes.is_empty() {
                return Some(PlacedLine {
                    number,
                    start: (from + line.start) as u32,
                    bytes: line.bytes,
                });
            }
        }
        None
    }
}
