//! Plain lines: three numbers of 32 bits, a space between any two, and a line feed at once behind
//! the last.
ghost use Rattle.std.specs.Prelude.{IfSome};
ghost use Rattle.surf_lengths.specs.Plain.{IsBefore, IsPlain};

use surf_text::front_number;

/// The numbers of a plain line, and how long it is without its line feed.
#[derive(Clone, Copy)]
pub(crate) struct PlainLine {
    pub u: u32,
    pub v: u32,
    pub n: u32,
    pub len: usize,
}

// The number that a text begins with, if this byte is next, and what stands behind that.
#[inline(always)]
fn number_before(text: &[u8], sign: u8) -> Option<(u32, &[u8])>
    ensures before { IfSome result (λ x. IsBefore sign text.now x.0 x.1.now) }
{
    let (number, digits) = front_number(text)?;
    match &text[digits..] {
        [b, behind @ ..] if *b == sign => Some((number, behind)),
        _ => None,
    }
}

/// The first line of a text, if it is plain.
#[inline(never)]
pub(crate) fn plain_line(text: &[u8]) -> Option<PlainLine>
    ensures plain { IfSome result (λ line. IsPlain text.now line) }
{
    let (u, second) = number_before(text, b' ')?;
    let (v, third) = number_before(second, b' ')?;
    let (n, behind) = number_before(third, b'\n')?;
    Some(PlainLine {
        u,
        v,
        n,
        len: text.len() - behind.len() - 1,
    })
}
