//! Where lines, comments and blanks begin and end.
ghost use Rattle.std.specs.Prelude.{◌≡◌, ◌<◌, ◌||◌, not, length, take, drop, IfSome};
ghost use Rattle.std.specs.List.{position, position_or_len, before_first};
ghost use Rattle.surf_text.specs.Text.{is_blank, is_line_end, is_comment_sign, uncommented, trimmed_front};
ghost use Rattle.surf_text.specs.Text.{trimmed_back, trimmed};

use memchr::{memchr, memchr2};

/// Whether it is a space, a tab or a carriage return.
pub(crate) fn is_blank(b: u8) -> bool
    ensures blank { result ≡ is_blank b }
{
    b == b' ' || b == b'\t' || b == b'\r'
}

/// Whether it is `#`.
pub(crate) fn is_comment_sign(b: u8) -> bool
    ensures sign { result ≡ is_comment_sign b }
{
    b == b'#'
}

fn line_end(bytes: &[u8]) -> Option<usize>
    ensures place { result ≡ position is_line_end bytes.now }
{
    memchr(b'\n', bytes)
}

fn comment_sign(bytes: &[u8]) -> Option<usize>
    ensures place { result ≡ position is_comment_sign bytes.now }
{
    memchr(b'#', bytes)
}

// The first line end or comment sign.
fn first_sign(bytes: &[u8]) -> Option<usize>
    ensures place { result ≡ position (λ b. is_line_end b || is_comment_sign b) bytes.now }
    ensures within { IfSome result (λ i. i < length bytes.now) }
{
    memchr2(b'\n', b'#', bytes)
}

// How many bytes a first line has.
fn line_len(bytes: &[u8]) -> usize
    ensures len { result ≡ position_or_len is_line_end bytes.now }
{
    match line_end(bytes) {
        Some(end) => end,
        None => bytes.len(),
    }
}

/// What stands before a comment.
pub(crate) fn before_comment(line: &[u8]) -> &[u8]
    ensures bytes { result.now ≡ uncommented line.now }
{
    match comment_sign(line) {
        Some(end) => &line[..end],
        None => line,
    }
}

/// A first line up to its comment, and how many bytes the line has.
///
/// A line without a comment is gone over once.
pub(crate) fn split_uncommented(bytes: &[u8]) -> (&[u8], usize)
    ensures line { result.0.now ≡ uncommented (before_first is_line_end bytes.now) }
    ensures len { result.1 ≡ position_or_len is_line_end bytes.now }
{
    let Some(sign) = first_sign(bytes) else {
        return (bytes, bytes.len());
    };
    if bytes[sign] == b'\n' {
        return (&bytes[..sign], sign);
    }
    let len = line_len(bytes);
    (before_comment(&bytes[..len]), len)
}

fn first_blank(bytes: &[u8]) -> Option<usize>
    ensures place { result ≡ position is_blank bytes.now }
{
    bytes.iter().position(|b| is_blank(*b))
}

fn first_word(bytes: &[u8]) -> Option<usize>
    ensures place { result ≡ position (λ b. not (is_blank b)) bytes.now }
{
    bytes.iter().position(|b| !is_blank(*b))
}

/// The bytes before a first blank, and those from it on.
pub(crate) fn split_blank(bytes: &[u8]) -> (&[u8], &[u8])
    ensures word { result.0.now ≡ take (position_or_len is_blank bytes.now) bytes.now }
    ensures behind { result.1.now ≡ drop (position_or_len is_blank bytes.now) bytes.now }
{
    match first_blank(bytes) {
        Some(end) => (&bytes[..end], &bytes[end..]),
        None => (bytes, &bytes[bytes.len()..]),
    }
}

/// The bytes from a first one on that isn't blank.
pub(crate) fn trim_front(bytes: &[u8]) -> &[u8]
    ensures bytes { result.now ≡ trimmed_front bytes.now }
{
    match first_word(bytes) {
        Some(start) => &bytes[start..],
        None => &bytes[bytes.len()..],
    }
}

/// The bytes up to the last that isn't blank.
pub(crate) fn trim_back(bytes: &[u8]) -> &[u8]
    ensures bytes { result.now ≡ trimmed_back bytes.now }
{
    let mut end = bytes.len();
    while end > 0 && is_blank(bytes[end - 1]) {
        end -= 1;
    }
    &bytes[..end]
}

/// The bytes from the first to the last that isn't blank.
pub(crate) fn trim(bytes: &[u8]) -> &[u8]
    ensures bytes { result.now ≡ trimmed bytes.now }
{
    trim_back(trim_front(bytes))
}
