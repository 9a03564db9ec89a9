//! The texts of cycles.
ghost use Rattle.std.specs.Prelude.{◌≡◌};
ghost use Rattle.surf_texts.specs.Fills.{Fills};
ghost use Rattle.surf_texts.specs.MeasuredTexts.{measured_line, total_lines};

use crate::numbers::{put_head, put_line};
use surf_base::VertexId;
use surf_text::{Page, PageFault};

/// Puts the line of a cycle: its length and its walk.
pub fn put_cycle(page: &mut Page, length: u64, walk: &[VertexId]) -> Result<(), PageFault>
    ensures fills { Fills page.old page.new (measured_line "cycle " length walk.now) result }
{
    put_line(page, b"cycle ", length, walk)
}

/// Puts how many cycles there are and what they total.
pub fn put_cycles_head(page: &mut Page, count: usize, total: u128) -> Result<(), PageFault>
    ensures fills { Fills page.old page.new (total_lines "cycles " count total) result }
{
    put_head(page, b"cycles ", count, total)
}
