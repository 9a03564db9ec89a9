//! Whether a mesh is a disc.
ghost use Rattle.std.specs.Prelude.{◌≡◌, ◌≢◌};
ghost use Rattle.surf_disc.specs.declared.faults.DiscFault.TheVariants.{Memory};
ghost use Rattle.surf_answers.specs.Discs.{JudgesDisc};
ghost use Rattle.surf_texts.specs.DiscLines.{no_line};
ghost use Rattle.surf_texts.specs.Outcome.{answers};
ghost use Rattle.surf_answers.specs.Tells.{Concludes};

use std::alloc::Global;
use surf_answers::{Answered, Verdict};
use surf_disc::{DiscFault, check_disc};
use surf_soup::Soup;
use surf_texts::{Refused, disc_text, no_line};

/// Whether a mesh is a disc, with its border, or what is wrong with it.
pub(crate) fn disc_of(alloc: Global, soup: &Soup) -> Result<Answered, Refused>
    ensures { Concludes (JudgesDisc soup.now) result }
{
    match check_disc(alloc, soup) {
        Ok(border) => {
            let text = disc_text(alloc, border)?;
            Ok(Answered::yes(text.into_bytes()))
        }
        Err(DiscFault::Memory) => Err(Refused::Memory),
        Err(fault) => not_disc(alloc, &fault),
    }
}

/// What is wrong with a mesh that is no disc.
pub(crate) fn not_disc(alloc: Global, fault: &DiscFault) -> Result<Answered, Refused>
    requires { fault.now ≢ Memory }
    ensures { Concludes (λ end. end ≡ answers 1 (no_line fault.now)) result }
{
    let line = no_line(alloc, fault)?;
    Ok(Answered {
        verdict: Verdict::No,
        text: line.into_bytes(),
    })
}
