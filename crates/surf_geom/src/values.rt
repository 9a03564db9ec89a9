//! The fixed value of a token.
ghost use Rattle.std.specs.Prelude.{◌≡◌, ◌+◌, ◌*◌, ◌^◌, ◌<◌, ◌≤◌, ◌++◌, true};
ghost use Rattle.std.specs.Char.{is_ascii_digit};
ghost use Rattle.std.specs.List.{list_all};
ghost use Rattle.surf_geom.specs.Digits.{pushed, pushed_to, in_range};
ghost use Rattle.surf_geom.specs.Fixed.{fixed_amount, signed, fixed_of};
ghost use Rattle.surf_geom.specs.Seen.{decimal_seen};

use crate::FixedFault;
use crate::numbers::{Number, read_number};

// 10^9 in units of 10^-9.
const TOO_GREAT: u64 = 1_000_000_000_000_000_000;

// The number whose digits are those of an amount and then these.
fn push_digits(amount: u64, digits: &[u8]) -> Option<u64>
    requires digits { list_all is_ascii_digit digits.now ≡ true }
    requires small { amount < 10 ^ 18 }
    ensures amount { result ≡ in_range (pushed amount digits.now) }
{
    let mut amount = amount;
    for digit in digits {
        amount = amount * 10 + u64::from(*digit - b'0');
        if amount >= TOO_GREAT {
            return None;
        }
    }
    Some(amount)
}

// The number whose digits are those of an amount and then so many zeros.
fn push_zeros(amount: u64, zeros: usize) -> Option<u64>
    requires small { amount < 10 ^ 18 }
    ensures amount { result ≡ in_range (amount * 10 ^ zeros) }
{
    if amount == 0 {
        return Some(0);
    }
    let mut amount = amount;
    for _ in 0..zeros {
        amount *= 10;
        if amount >= TOO_GREAT {
            return None;
        }
    }
    Some(amount)
}

// The number whose digits are those of an amount and then these, up to so many places behind it.
fn push_places(amount: u64, digits: &[u8], places: usize) -> Option<u64>
    requires digits { list_all is_ascii_digit digits.now ≡ true }
    requires small { amount < 10 ^ 18 }
    ensures amount { result ≡ in_range (pushed_to amount digits.now places) }
{
    if places <= digits.len() {
        return push_digits(amount, &digits[..places]);
    }
    push_zeros(push_digits(amount, digits)?, places - digits.len())
}

// The fixed amount of a number. Its value has the digits before and behind the point, and in units
// of 10^-9 the point lies nine places farther to the right, and as many more as the exponent says.
// What lies behind it is cut.
fn amount(number: &Number<'_>) -> Option<u64>
    requires digits { list_all is_ascii_digit (number.now.front.now ++ number.now.behind.now)
        ≡ true }
    requires raised { number.now.raised ≤ 999 }
    requires lowered { number.now.lowered ≤ 999 }
    ensures amount { result ≡ in_range (fixed_amount (decimal_seen number.now)) }
{
    let front = number.front;
    let right = number.raised as usize + 9;
    let left = number.lowered as usize;
    if right < left {
        let kept = front.len().saturating_sub(left - right);
        return push_digits(0, &front[..kept]);
    }
    let whole = push_digits(0, front)?;
    push_places(whole, number.behind, right - left)
}

fn signed(negative: bool, amount: u64) -> i64
    requires small { amount < 10 ^ 18 }
    ensures value { result ≡ signed negative amount }
{
    if negative {
        -(amount as i64)
    } else {
        amount as i64
    }
}

/// The fixed value of a coordinate: its value times 10^9, cut to a whole number towards zero. It
/// takes no memory.
///
/// A token has the form of a coordinate where it is an optional `+` or `-`, then digits with at
/// most one `.` among, before or behind them and at least one digit, and then optionally `e` or
/// `E`, an optional sign and one to three digits. Refuses another token with `Form`, and with
/// `Range` one whose amount is 10^9 or more.
pub fn fixed(token: &[u8]) -> Result<i64, FixedFault>
    ensures fixed { result ≡ fixed_of token.now }
{
    let Some(number) = read_number(token) else {
        return Err(FixedFault::Form);
    };
    let Some(amount) = amount(&number) else {
        return Err(FixedFault::Range);
    };
    Ok(signed(number.negative, amount))
}
