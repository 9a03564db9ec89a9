//! What the lines of a certificate by sheets say.
ghost use Rattle.std.specs.Prelude.{◌≡◌, ◌≤◌, IfSome, MatchOption, None, Some, drop, length};
ghost use Rattle.std.specs.Str.{bytes_eq};
ghost use Rattle.surf_text.specs.Text.{tokens_of};
ghost use Rattle.surf_cert.specs.Lines.{is_next};
ghost use Rattle.surf_sheetcert.specs.Lines.{is_second_header, is_sheet_header, count_of, rises, cocycles_among, sheet_on};

use surf_cert::read_number;
use surf_records::SheetRow;
use surf_text::{Tokens, read_whole};

// Whether a token is a word.
fn is_token(token: &[u8], word: &[u8]) -> bool
    ensures word { result ≡ bytes_eq token.now word.now }
{
    token == word
}

// Whether a line is the first line of a certificate of the second version for what a word names.
fn is_second_header(line: &[u8], word: &[u8]) -> bool
    ensures header { result ≡ is_second_header word.now (tokens_of line.now) }
{
    let mut tokens = Tokens::over(line);
    match (
        tokens.next_token(),
        tokens.next_token(),
        tokens.next_token(),
    ) {
        (Some(name), Some(version), Some(kind)) => {
            is_token(name, b"SURFCERT")
                && is_token(version, b"2")
                && is_token(kind, word)
                && tokens.is_empty()
        }
        _ => false,
    }
}

/// Whether a line is the first line of a certificate by sheets.
pub(crate) fn is_sheet_header(line: &[u8]) -> bool
    ensures header { result ≡ is_sheet_header (tokens_of line.now) }
{
    is_second_header(line, b"basis")
}

/// The count of a line of a word and a count.
pub(crate) fn read_count(word: &[u8], line: &[u8]) -> Option<u32>
    ensures count { result ≡ count_of word.now (tokens_of line.now) }
{
    let mut tokens = Tokens::over(line);
    if !is_token(tokens.next_token()?, word) {
        return None;
    }
    let count = read_number(tokens.next_token()?)?;
    if tokens.is_empty() { Some(count) } else { None }
}

// Whether numbers rise from 1 to k.
fn are_rising(k: u32, numbers: &[u32]) -> bool
    ensures rises { result ≡ rises 0 k numbers.now }
{
    let mut before = 0;
    for number in numbers {
        if *number <= before || *number > k {
            return false;
        }
        before = *number;
    }
    true
}

// Whether a pair stands behind the one before, if there is one.
fn is_next(before: Option<(u32, u32)>, pair: (u32, u32)) -> bool
    ensures next { result ≡ is_next before pair }
{
    match before {
        Some((u, v)) => u < pair.0 || u == pair.0 && v < pair.1,
        None => true,
    }
}

/// The edge of the numbers of a line `u v i1 i2 ..`, behind the edge of the line before. The numbers
/// of its cocycles are those behind the first two.
pub(crate) fn edge_among(k: u32, before: Option<(u32, u32)>, numbers: &[u32]) -> Option<(u32, u32)>
    ensures edge { MatchOption result (cocycles_among k before numbers.now ≡ None) (λ edge.
        cocycles_among k before numbers.now ≡ Some (edge, drop 2 numbers.now)) }
    ensures two { IfSome result (λ _. 2 ≤ length numbers.now) }
{
    match numbers {
        [] => None,
        [_] => None,
        [u, v, row @ ..] => {
            let edge = (*u, *v);
            if *u < *v && is_next(before, edge) && !row.is_empty() && are_rising(k, row) {
                Some(edge)
            } else {
                None
            }
        }
    }
}

/// The sheet of a line `f g w a b m`.
pub(crate) fn read_sheet(line: &[u8]) -> Option<SheetRow>
    ensures sheet { result ≡ sheet_on (tokens_of line.now) }
{
    let mut tokens = Tokens::over(line);
    let from = read_number(tokens.next_token()?)?;
    let to = read_number(tokens.next_token()?)?;
    let walk = read_number(tokens.next_token()?)?;
    let first = read_number(tokens.next_token()?)?;
    let last = read_number(tokens.next_token()?)?;
    let margin = read_whole(tokens.next_token()?)?;
    if tokens.is_empty() {
        Some(SheetRow::make((from, to), walk, (first, last), margin))
    } else {
        None
    }
}
