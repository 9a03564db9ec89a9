//! The fixed texts.
ghost use Rattle.std.specs.Prelude.{◌≡◌};
ghost use Rattle.surf_words.specs.Words.{help_text, version_text};
ghost use Rattle.surf_texts.specs.Outcome.{answers};
ghost use Rattle.surf_answers.specs.Tells.{Concludes};

use std::alloc::Global;
use surf_answers::Answered;
use surf_texts::Refused;
use surf_words::{HELP, VERSION};

fn fixed(alloc: Global, text: &str) -> Result<Answered, Refused>
    ensures { Concludes (λ end. end ≡ answers 0 text.now) result }
{
    let text = text.as_bytes().to_vec(alloc)?;
    Ok(Answered::yes(text))
}

/// How the program is called.
pub fn help(alloc: Global) -> Result<Answered, Refused>
    ensures { Concludes (λ end. end ≡ answers 0 help_text) result }
{
    fixed(alloc, HELP)
}

/// The program's name and version.
pub fn version(alloc: Global) -> Result<Answered, Refused>
    ensures { Concludes (λ end. end ≡ answers 0 version_text) result }
{
    fixed(alloc, VERSION)
}
