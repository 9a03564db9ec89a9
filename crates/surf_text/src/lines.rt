//! A walk over the lines of a text.
ghost use Rattle.std.specs.Prelude.{◌≡◌, ◌<◌, [], ◌∷◌, length, MatchOption};
ghost use Rattle.surf_text.specs.Text.{lines_of};
ghost use Rattle.surf_text.specs.Walks.{text_line};

use crate::placed::PlacedLines;
use std::marker::Model;

/// A line that has a token: its number in the text, counted from 1, and the slice of the text from
/// its first token's first byte to its last token's last byte.
#[derive(Clone, Copy, Debug)]
pub struct Line<'a> {
    pub number: u32,
    pub bytes: &'a [u8],
}

/// A walk over the lines that have a token, seen as the list of those to come.
#[derive(Drop)]
pub struct Lines<'a> {
    placed: PlacedLines<'a>,
}

impl<'a> Model for Lines<'a> {
    ghost use Rattle.std.specs.Prelude.{List};
    ghost use Rattle.surf_text.specs.Text.{TextLine};
    ghost use Rattle.surf_text.specs.Walks.{lines_ahead};

    ghost Value = { List TextLine };

    ghost view = { λ s. lines_ahead s.placed };
}

impl<'a> Lines<'a> {
    /// A walk over all lines of a text that have a token. The text is shorter than 2^32 − 1 bytes,
    /// so that line numbers fit.
    pub fn over(text: &'a [u8]) -> Lines<'a>
        requires short { length text.now < 4294967295 }
        ensures lines { result ≡ lines_of text.now }
    {
        Lines {
            placed: PlacedLines::over(text),
        }
    }

    /// The next line that has a token. None where no later line has one.
    pub fn next_line(&mut self) -> Option<Line<'a>>
        ensures next { MatchOption result ((self.old ≡ []) × (self.new ≡ [])) (λ line. self.old
            ≡ text_line line ∷ self.new) }
    {
        match self.placed.next_line() {
            Some(line) => Some(Line {
                number: line.number,
                bytes: line.bytes,
            }),
            None => None,
        }
    }
}
