//! Lines of words and numbers.
ghost use Rattle.std.specs.Prelude.{◌≡◌, string_bytes, IfOk};
ghost use Rattle.surf_text.specs.Numbers.{numbered};

use std::alloc::{AllocError, Global};

/// A line that begins with these words and goes on with these numbers, each behind a space.
pub fn numbered(alloc: Global, words: &str, numbers: &[u32]) -> Result<String, AllocError>
    ensures line { IfOk result (λ line. string_bytes line ≡ numbered words.now numbers.now) }
{
    let mut line = String::from_str(alloc, words)?;
    for n in numbers {
        let number = format!(in alloc; " {n}")?;
        line.push_str(number.as_str())?;
    }
    line.push_str("\n")?;
    Ok(line)
}
