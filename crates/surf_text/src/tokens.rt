//! A walk over the tokens of a line.
ghost use Rattle.std.specs.Prelude.{◌≡◌, ◌==◌, ◌<◌, [], ◌∷◌, length, not, nat_le, MatchOption};
ghost use Rattle.surf_text.specs.Text.{behind_word, tokens_of};
ghost use Rattle.surf_text.specs.Walks.{walk_over, walk_between_blanks, has_some};

use crate::places::{before_comment, is_blank, is_comment_sign, split_blank, trim, trim_front};
use std::marker::Model;

/// A walk over the tokens of a line, seen as the list of those to come and the bytes from the first
/// of them to the last byte of the last.
#[derive(Drop)]
pub struct Tokens<'a> {
    rest: &'a [u8],
}

impl<'a> Model for Tokens<'a> {
    ghost use Rattle.std.specs.Prelude.{◌≡◌};
    ghost use Rattle.surf_text.specs.Text.{words_of, trimmed_front};
    ghost use Rattle.surf_text.specs.Walks.{TokenWalk};

    ghost Value = { TokenWalk };

    ghost view = { λ s. record { tokens = words_of s.rest.now; rest = s.rest.now } };

    ghost invariant = { λ s. trimmed_front s.rest.now ≡ s.rest.now };
}

impl<'a> Tokens<'a> {
    /// A walk over all tokens of a line. A comment has none.
    pub fn over(line: &'a [u8]) -> Tokens<'a>
        ensures tokens { result ≡ walk_over line.now }
    {
        Tokens {
            rest: trim(before_comment(line)),
        }
    }

    /// A walk over all tokens of a line, with `#` as a byte like others.
    pub fn between_blanks(line: &'a [u8]) -> Tokens<'a>
        ensures tokens { result ≡ walk_between_blanks line.now }
    {
        Tokens { rest: trim(line) }
    }

    /// The next token. None where none is left.
    pub fn next_token(&mut self) -> Option<&'a [u8]>
        ensures next { MatchOption result ((self.old.tokens ≡ []) × (self.new.tokens ≡ []))
            (λ token. self.old.tokens ≡ token.now ∷ self.new.tokens) }
        ensures rest { self.new.rest ≡ behind_word self.old.rest }
    {
        if self.rest.is_empty() {
            return None;
        }
        let (token, behind) = split_blank(self.rest);
        self.rest = trim_front(behind);
        Some(token)
    }

    /// The slice from the next token's first byte to the last token's last byte; empty where none
    /// is left.
    pub fn rest(&self) -> &'a [u8]
        ensures rest { result.now ≡ self.now.rest }
    {
        self.rest
    }

    /// Whether none is left.
    pub fn is_empty(&self) -> bool
        ensures empty { result ≡ not (has_some self.now.tokens) }
    {
        self.rest.is_empty()
    }

    /// Whether at least `n` are left.
    pub fn has(&self, n: u64) -> bool
        ensures count { result ≡ nat_le n (length self.now.tokens) }
    {
        let mut tokens = Tokens { rest: self.rest };
        for _ in 0..n {
            if tokens.next_token().is_none() {
                return false;
            }
        }
        true
    }
}

/// Whether a line has at least so many tokens. It looks no further than the first byte of the last
/// of them.
#[inline(never)]
pub fn has_tokens(line: &[u8], least: u64) -> bool
    ensures count { result ≡ nat_le least (length (tokens_of line.now)) }
{
    let mut missing = least;
    let mut inside = false;
    for b in line {
        // (most bytes are so: greater than all blanks and the comment sign, or a space)
        if *b > b'#' {
            if inside {
                continue;
            }
            if missing <= 1 {
                return true;
            }
            missing -= 1;
            inside = true;
            continue;
        }
        if *b == b' ' {
            inside = false;
            continue;
        }
        if missing == 0 {
            return true;
        }
        if is_comment_sign(*b) {
            return false;
        }
        let dark = !is_blank(*b);
        if dark && !inside {
            missing -= 1;
        }
        inside = dark;
    }
    missing == 0
}
