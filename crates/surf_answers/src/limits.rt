//! Limits on counts.
ghost use Rattle.std.specs.Prelude.{◌≡◌, ◌≤◌, IfOk, IfErr};
ghost use Rattle.surf_base.specs.declared.limits.LimitKind.TheVariants.{Loops};
ghost use Rattle.surf_base.specs.declared.limits.TheConstants.{MAX_LOOPS};
ghost use Rattle.surf_surfaces.specs.Surface.{loop_count};
ghost use Rattle.surf_answers.specs.Tells.{Takes};
ghost use Rattle.surf_answers.specs.Steps.{AtMost};

use crate::info::loop_count;
use surf_base::{LimitKind, MAX_LOOPS};
use surf_mesh::HalfMesh;
use surf_texts::Refused;

/// Whether a count is at most its limit.
pub fn at_most(kind: LimitKind, most: u128, count: u128) -> Result<(), Refused>
    ensures tells { Takes (λ _. tt) (AtMost kind most count) result }
    ensures few { IfOk result (λ _. count ≤ most) }
    ensures limit { IfErr result (λ e. e ≡ Refused.Limit kind) }
{
    if count > most {
        return Err(Refused::Limit(kind));
    }
    Ok(())
}

/// Whether a surface has few loops.
pub fn test_loops(mesh: &HalfMesh) -> Result<(), Refused>
    ensures tells { Takes (λ _. tt) (AtMost Loops MAX_LOOPS (loop_count mesh.now)) result }
    ensures few { IfOk result (λ _. loop_count mesh.now ≤ MAX_LOOPS) }
    ensures limit { IfErr result (λ e. e ≡ Refused.Limit Loops) }
{
    at_most(
        LimitKind::Loops,
        MAX_LOOPS as u128,
        u128::from(loop_count(mesh.surface())),
    )
}
