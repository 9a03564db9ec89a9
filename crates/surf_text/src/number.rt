//! Whole numbers.
ghost use Rattle.std.specs.Prelude.{◌≡◌, ◌==◌, ◌≤◌, min, length, take, None, Some, MatchOption, if◌then◌else◌};
ghost use Rattle.std.specs.List.{position_or_len};
ghost use Rattle.surf_text.specs.Text.{whole, short_whole, front_digits, is_no_digit, value_of};
ghost use Rattle.surf_text.specs.declared.number.TheConstants.{FEW};

/// The whole number that a token is. None where the token is empty, has a byte that isn't a digit,
/// or stands for more than 18,446,744,073,709,551,615. Leading zeros are allowed.
pub fn read_whole(token: &[u8]) -> Option<u64>
    ensures number { result ≡ whole token.now }
{
    if token.is_empty() {
        return None;
    }
    let mut number: u64 = 0;
    for b in token {
        if !b.is_ascii_digit() {
            return None;
        }
        let tens = number.checked_mul(10)?;
        number = tens.checked_add((*b - b'0') as u64)?;
    }
    Some(number)
}

// A number and how many digits it has, unless it has none.
fn counted(number: u32, digits: usize) -> Option<(u32, usize)>
    ensures counted { result ≡ (if digits == 0 then None else Some (number, digits)) }
{
    if digits == 0 {
        None
    } else {
        Some((number, digits))
    }
}

// No number of fewer digits passes 32 bits, so that they are read without a bound.
const FEW: usize = 8;

// The number that the first digits of so few bytes are, and how many they are.
#[inline(always)]
fn few_digits(bytes: &[u8], most: usize) -> (u32, usize)
    requires few { most ≤ FEW }
    requires within { most ≤ length bytes.now }
    ensures digits { result.1 ≡ min most (position_or_len is_no_digit bytes.now) }
    ensures number { result.0 ≡ value_of (take result.1 bytes.now) }
{
    let mut number: u32 = 0;
    for i in 0..most {
        let b = bytes[i];
        if !b.is_ascii_digit() {
            return (number, i);
        }
        number = number * 10 + (b - b'0') as u32;
    }
    (number, most)
}

// The number that the first digits of the first eight bytes are, or of all bytes where there are
// fewer, and how many digits there are.
//
// Where there are eight, no end is looked for: the compiler writes a loop over so many bytes as a
// chain.
#[inline(always)]
fn first_digits(bytes: &[u8]) -> (u32, usize)
    ensures digits { result.1 ≡ min FEW (position_or_len is_no_digit bytes.now) }
    ensures number { result.0 ≡ value_of (take result.1 bytes.now) }
{
    if bytes.len() < FEW {
        few_digits(bytes, bytes.len())
    } else {
        few_digits(bytes, FEW)
    }
}

// The number that the digits in front are, and how many they are, however many that is: no digits
// where they aren't a number of 32 bits.
#[inline(never)]
fn long_number(bytes: &[u8]) -> (u32, usize)
    ensures number { MatchOption (if result.1 == 0 then None else Some result)
        (short_whole (front_digits bytes.now) ≡ None)
        (λ x. (short_whole (front_digits bytes.now) ≡ Some x.0)
        × (position_or_len is_no_digit bytes.now ≡ x.1)) }
{
    let mut number: u64 = 0;
    for (i, b) in bytes.iter().enumerate() {
        if !b.is_ascii_digit() {
            return (number as u32, i);
        }
        number = number * 10 + (*b - b'0') as u64;
        if number > u32::MAX as u64 {
            return (0, 0);
        }
    }
    (number as u32, bytes.len())
}

/// The whole number of 32 bits that the digits in front are, and how many they are. None where they
/// aren't such a number.
#[inline(always)]
pub fn front_number(bytes: &[u8]) -> Option<(u32, usize)>
    ensures number { MatchOption result (short_whole (front_digits bytes.now) ≡ None)
        (λ x. (short_whole (front_digits bytes.now) ≡ Some x.0)
        × (position_or_len is_no_digit bytes.now ≡ x.1)) }
{
    let (number, digits) = first_digits(bytes);
    if digits < FEW {
        return counted(number, digits);
    }
    let (number, digits) = long_number(bytes);
    counted(number, digits)
}
