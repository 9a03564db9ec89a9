//! Lines that say why there is no answer.
ghost use Rattle.std.specs.Prelude.{◌≡◌};
ghost use Rattle.surf_texts.specs.Refusals.{cause_of};
ghost use Rattle.surf_run.specs.Run.{PutsLine, Refuses};

use std::alloc::Global;
use surf_base::{Sink, put_all};
use surf_texts::Refused;

/// The line for want of memory.
pub const MEMORY: &str = "memory\n";

/// Says a line, whatever the sink answers.
pub fn say<D: Sink>(diag: &mut D, line: &str)
    ensures { PutsLine (D.written diag.old) (D.written diag.new) (D.faults diag.old)
        (D.faults diag.new) line.now }
{
    let _ = put_all(diag, line.as_bytes());
}

/// Says why there is no answer, and gives the status: that of a cause, or want of memory for its
/// line.
pub(crate) fn refuse<D: Sink>(alloc: Global, refused: &Refused, diag: &mut D) -> u8
    ensures { Refuses (cause_of refused.now) result (D.written diag.old) (D.written diag.new)
        (D.faults diag.old) (D.faults diag.new) }
{
    match refused.line(alloc) {
        Ok(line) => {
            say(diag, line.as_str());
            refused.status()
        }
        Err(_) => {
            say(diag, MEMORY);
            11
        }
    }
}
