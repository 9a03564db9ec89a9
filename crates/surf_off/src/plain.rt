//! Plain face lines: a size and as many corners, a space between any two numbers. What stands
//! behind the last corner is the colour.
ghost use Rattle.std.specs.Prelude.{◌≡◌, ◌<◌, ◌≤◌, ◌∷◌, length, IfOk, IfErr, IfSome};
ghost use Rattle.std.specs.List.{All};
ghost use Rattle.surf_off.specs.Plain.{is_end, closes, BeginsWith, IsPlain};
ghost use Rattle.surf_off.specs.declared.fault.OffFault.TheVariants.{Memory};

use crate::fault::OffFault;
use surf_base::VertexId;
use surf_text::front_number;

// Whether a token ends before this byte.
fn is_end(b: u8) -> bool
    ensures end { result ≡ is_end b }
{
    b == b' ' || b == b'\t' || b == b'\r' || b == b'\n' || b == b'#'
}

// Whether a token ends where these bytes begin.
fn ends_token(bytes: &[u8]) -> bool
    ensures ends { result ≡ closes bytes.now }
{
    match bytes {
        [] => true,
        [b, ..] => is_end(*b),
    }
}

// What stands behind a space.
fn behind_space(bytes: &[u8]) -> Option<&[u8]>
    ensures rest { IfSome result (λ rest. bytes.now ≡ 32 ∷ rest.now) }
{
    match bytes {
        [b' ', rest @ ..] => Some(rest),
        _ => None,
    }
}

// What stands behind so many corners, if a text begins with them, a space before each. They take
// the place of the corners that were kept.
fn plain_corners<'a>(
    text: &'a [u8],
    vertices: u32,
    size: u32,
    corners: &mut Vec<VertexId>,
) -> Result<Option<&'a [u8]>, OffFault>
    ensures read { IfOk result (λ plain. IfSome plain (λ behind. BeginsWith vertices text.now
        corners.new.items behind.now)) }
    ensures size { IfOk result (λ plain. IfSome plain (λ _. length corners.new.items ≡ size)) }
    ensures within { IfOk result (λ plain. IfSome plain
        (λ _. All (λ u. u < vertices) corners.new.items)) }
    ensures fault { IfErr result (λ e. e ≡ Memory) }
{
    corners.clear();
    let mut behind = text;
    for _ in 0..size {
        let Some(number) = behind_space(behind) else {
            return Ok(None);
        };
        let Some((u, digits)) = front_number(number) else {
            return Ok(None);
        };
        if u >= vertices {
            return Ok(None);
        }
        corners.push(VertexId::new(u))?;
        behind = &number[digits..];
    }
    if ends_token(behind) {
        Ok(Some(behind))
    } else {
        Ok(None)
    }
}

/// What stands behind the corners of a face of at most so many sides, if a text begins with it
/// plainly. If it does, its corners take the place of those that were kept.
#[inline(never)]
pub(crate) fn read_plain<'a>(
    text: &'a [u8],
    vertices: u32,
    most: u32,
    corners: &mut Vec<VertexId>,
) -> Result<Option<&'a [u8]>, OffFault>
    ensures read { IfOk result (λ plain. IfSome plain (λ behind. IsPlain vertices text.now
        corners.new.items behind.now)) }
    ensures size { IfOk result (λ plain. IfSome plain (λ _. (3 ≤ length corners.new.items)
        × (length corners.new.items ≤ most))) }
    ensures within { IfOk result (λ plain. IfSome plain
        (λ _. All (λ u. u < vertices) corners.new.items)) }
    ensures fault { IfErr result (λ e. e ≡ Memory) }
{
    match front_number(text) {
        Some((size, digits)) if size >= 3 && size <= most => {
            plain_corners(&text[digits..], vertices, size, corners)
        }
        _ => Ok(None),
    }
}
