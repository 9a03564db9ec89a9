//! Decimal numbers in parts.
ghost use Rattle.std.specs.Prelude.{◌≡◌, ◌≤◌, true, ◌++◌, option_map, IfSome};
ghost use Rattle.std.specs.Char.{is_ascii_digit};
ghost use Rattle.std.specs.List.{before_first, after_first, position, list_all};
ghost use Rattle.surf_geom.specs.Fixed.{is_point, is_letter, is_negative, unsigned, exponent_in, behind_letter};
ghost use Rattle.surf_geom.specs.Fixed.{exponent_of, are_digits, decimal_in};
ghost use Rattle.surf_geom.specs.Seen.{decimal_seen, seen};

use surf_text::read_whole;

/// A decimal number: its digits before and behind the point, and by how many powers of ten its
/// exponent raises or lowers it.
#[derive(Clone, Copy)]
pub(crate) struct Number<'a> {
    pub(crate) negative: bool,
    pub(crate) front: &'a [u8],
    pub(crate) behind: &'a [u8],
    pub(crate) raised: u32,
    pub(crate) lowered: u32,
}

fn all_digits(bytes: &[u8]) -> bool
    ensures digits { result ≡ list_all is_ascii_digit bytes.now }
{
    bytes.iter().all(|b| b.is_ascii_digit())
}

fn point_place(bytes: &[u8]) -> Option<usize>
    ensures place { result ≡ position is_point bytes.now }
{
    bytes.iter().position(|b| *b == b'.')
}

fn letter_place(bytes: &[u8]) -> Option<usize>
    ensures place { result ≡ position is_letter bytes.now }
{
    bytes.iter().position(|b| *b == b'E' || *b == b'e')
}

// Whether a minus stands in front, and what stands behind the sign.
fn split_sign(bytes: &[u8]) -> (bool, &[u8])
    ensures negative { result.0 ≡ is_negative bytes.now }
    ensures unsigned { result.1.now ≡ unsigned bytes.now }
{
    match bytes {
        [b'-', rest @ ..] => (true, rest),
        [b'+', rest @ ..] => (false, rest),
        _ => (false, bytes),
    }
}

// What stands before the point, and what stands behind it.
fn split_point(bytes: &[u8]) -> (&[u8], &[u8])
    ensures front { result.0.now ≡ before_first is_point bytes.now }
    ensures behind { result.1.now ≡ after_first is_point bytes.now }
{
    match point_place(bytes) {
        Some(place) => (&bytes[..place], &bytes[place + 1..]),
        None => (bytes, &bytes[bytes.len()..]),
    }
}

// What stands before the letter of an exponent, and what stands behind it, if there is one.
fn split_letter(bytes: &[u8]) -> (&[u8], Option<&[u8]>)
    ensures mantissa { result.0.now ≡ before_first is_letter bytes.now }
    ensures exponent { seen result.1 ≡ behind_letter bytes.now }
{
    match letter_place(bytes) {
        Some(place) => (&bytes[..place], Some(&bytes[place + 1..])),
        None => (bytes, None),
    }
}

// By how many powers of ten an exponent raises and lowers.
fn read_exponent(text: &[u8]) -> Option<(u32, u32)>
    ensures exponent { result ≡ exponent_in text.now }
    ensures small { IfSome result (λ x. (x.0 ≤ 999) × (x.1 ≤ 999)) }
{
    let (negative, digits) = split_sign(text);
    if digits.len() > 3 {
        return None;
    }
    let size = read_whole(digits)? as u32;
    Some(if negative { (0, size) } else { (size, 0) })
}

// By how many powers of ten what stands behind a letter raises and lowers, if there is a letter.
fn read_shift(exponent: Option<&[u8]>) -> Option<(u32, u32)>
    ensures exponent { result ≡ exponent_of (seen exponent.entry) }
    ensures small { IfSome result (λ x. (x.0 ≤ 999) × (x.1 ≤ 999)) }
{
    match exponent {
        None => Some((0, 0)),
        Some(text) => read_exponent(text),
    }
}

// Whether there is at least one digit, and nothing else.
fn are_digits(bytes: &[u8]) -> bool
    ensures digits { result ≡ are_digits bytes.now }
{
    !bytes.is_empty() && all_digits(bytes)
}

// Whether two texts together have at least one digit, and nothing else.
fn are_mantissa(front: &[u8], behind: &[u8]) -> bool
    ensures digits { result ≡ are_digits (front.now ++ behind.now) }
{
    if front.is_empty() {
        return are_digits(behind);
    }
    all_digits(front) && all_digits(behind)
}

/// The number that a token has the form of.
pub(crate) fn read_number(token: &[u8]) -> Option<Number<'_>>
    ensures number { option_map decimal_seen result ≡ decimal_in token.now }
    ensures digits { IfSome result (λ n. list_all is_ascii_digit (n.front.now ++ n.behind.now)
        ≡ true) }
    ensures small { IfSome result (λ n. (n.raised ≤ 999) × (n.lowered ≤ 999)) }
{
    let (negative, text) = split_sign(token);
    let (mantissa, exponent) = split_letter(text);
    let (front, behind) = split_point(mantissa);
    if !are_mantissa(front, behind) {
        return None;
    }
    let (raised, lowered) = read_shift(exponent)?;
    Some(Number {
        negative,
        front,
        behind,
        raised,
        lowered,
    })
}
