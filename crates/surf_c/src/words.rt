//! The words of a call.
ghost use Rattle.std.specs.Prelude.{◌≡◌, All, IfOk, IfErr, string_bytes};
ghost use Rattle.std.specs.Str.{IsUtf8};
ghost use Rattle.surf_words.specs.Words.{texts};
ghost use Rattle.surf_text.specs.Text.{words_of};

use std::alloc::{AllocError, AllocFailed, Global};
use surf_text::Tokens;

/// Why there are no words.
pub(crate) enum WordFault {
    /// One of them is no UTF-8.
    NoText,
    /// There was no memory.
    Memory,
}

impl From<AllocError> for WordFault {
    ghost use Rattle.std.specs.Prelude.{◌≡◌};
    ghost use Rattle.surf_c.specs.declared.words.WordFault.TheVariants.{Memory};

    ghost from_gives = { λ _ e. e ≡ Memory };

    fn from(_: AllocError) -> WordFault {
        WordFault::Memory
    }
}

impl<T: Drop> From<AllocFailed<T>> for WordFault {
    ghost use Rattle.std.specs.Prelude.{◌≡◌};
    ghost use Rattle.surf_c.specs.declared.words.WordFault.TheVariants.{Memory};

    ghost from_gives = { λ _ e. e ≡ Memory };

    fn from(_: AllocFailed<T>) -> WordFault {
        WordFault::Memory
    }
}

fn read_word(alloc: Global, token: &[u8]) -> Result<String, WordFault>
    ensures word { IfOk result (λ word. string_bytes word ≡ token.now) }
    ensures no_text { IfErr result (λ fault. fault ≡ WordFault.NoText → ¬ IsUtf8 token.now) }
{
    match str::from_utf8(token) {
        Ok(text) => Ok(String::from_str(alloc, text)?),
        Err(_) => Err(WordFault::NoText),
    }
}

/// The words between the blanks of a text.
pub(crate) fn read_words(alloc: Global, text: &[u8]) -> Result<Vec<String>, WordFault>
    ensures words { IfOk result (λ words. texts words.items ≡ words_of text.now) }
    ensures no_text { IfErr result (λ fault. fault ≡ WordFault.NoText →
        ¬ All IsUtf8 (words_of text.now)) }
{
    let mut tokens = Tokens::between_blanks(text);
    let mut words = Vec::new(alloc);
    while let Some(token) = tokens.next_token() {
        match read_word(alloc, token) {
            Ok(word) => words.push(word)?,
            Err(fault) => return Err(fault),
        }
    }
    Ok(words)
}
