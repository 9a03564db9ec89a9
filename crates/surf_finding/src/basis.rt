//! Least bases.
ghost use Rattle.std.specs.Prelude.{◌≡◌, ◌+◌, ◌≤◌, length, map, sum, flat_map};
ghost use Rattle.surf_basis.specs.Cycles.{as_loops};
ghost use Rattle.surf_surfaces.specs.Surface.{edge_count, loop_count};
ghost use Rattle.surf_texts.specs.MeasuredTexts.{measured_text};
ghost use Rattle.surf_texts.specs.Fills.{Fills};
ghost use Rattle.surf_finding.specs.CycleTexts.{cycle_found_line};
ghost use Rattle.surf_answers.specs.LeastBasis.{GivesBasis};
ghost use Rattle.surf_answers.specs.Tells.{Concludes};
ghost use Rattle.surf_base.specs.declared.limits.TheConstants.{MAX_LOOPS};

use std::alloc::Global;
use surf_answers::Answered;
use surf_base::MAX_ANSWER;
use surf_basis::{Cycle, least_basis};
use surf_lengths::Lengths;
use surf_mesh::HalfMesh;
use surf_text::{Page, PageFault};
use surf_texts::{Refused, put_cycle, put_cycles_head};

/// A least basis of a surface.
pub(crate) fn basis_of(
    alloc: Global,
    mesh: &HalfMesh,
    lengths: &Lengths,
) -> Result<Answered, Refused>
    requires lengths { length lengths.now ≡ edge_count mesh.now }
    requires few { loop_count mesh.now ≤ MAX_LOOPS }
    ensures { Concludes (GivesBasis mesh.now lengths.now) result }
{
    mesh.law_of_surface();
    lengths.law_of_lengths();
    let basis = least_basis(alloc, mesh, lengths)?;
    let mut page = Page::make(alloc, MAX_ANSWER);
    put_basis(&mut page, &basis)?;
    Ok(Answered::yes(page.into_bytes()))
}

// Puts how many cycles there are and what they total, and the line of each.
fn put_basis(page: &mut Page, basis: &[Cycle]) -> Result<(), PageFault>
    ensures { Fills page.old page.new (measured_text "cycles " "cycle "
        (as_loops basis.now)) result }
{
    put_cycles_head(page, basis.len(), total_of(basis))?;
    put_cycles(page, basis)
}

/// The sum of the lengths of cycles.
pub(crate) fn total_of(cycles: &[Cycle]) -> u128
    ensures { result ≡ sum (map (λ c. c.length) cycles.now) }
{
    let mut total = 0u128;
    for cycle in cycles {
        total += u128::from(cycle.length);
    }
    total
}

// Puts the line of each cycle.
fn put_cycles(page: &mut Page, cycles: &[Cycle]) -> Result<(), PageFault>
    ensures { Fills page.old page.new (flat_map cycle_found_line cycles.now) result }
{
    for cycle in cycles {
        put_cycle(page, cycle.length, cycle.walk.vertices())?;
    }
    Ok(())
}
