//! Whether evidence is right for the class of a walk.
ghost use Rattle.surf_class.specs.Seen.{seen};
ghost use Rattle.surf_surfaces.specs.Walk.{IsClosed};
ghost use Rattle.surf_answers.specs.Confirming.{JudgesEvidence};
ghost use Rattle.surf_answers.specs.Tells.{Concludes};

use std::alloc::Global;
use surf_answers::{Answered, Verdict};
use surf_class::{ClassFault, Evidence, check_class};
use surf_mesh::{HalfMesh, Walk};
use surf_texts::{Refused, right_line, wrong_line};

/// Whether evidence is right, or what is wrong with it.
pub(crate) fn judge_evidence(
    alloc: Global,
    mesh: &HalfMesh,
    walk: &Walk,
    evidence: &Evidence,
) -> Result<Answered, Refused>
    requires closed { IsClosed mesh.now walk.now }
    ensures { Concludes (JudgesEvidence mesh.now walk.now (seen evidence.now)) result }
{
    match check_class(alloc, mesh, walk, evidence) {
        Ok(()) => {
            let text = right_line(evidence).as_bytes().to_vec(alloc)?;
            Ok(Answered::yes(text))
        }
        Err(ClassFault::Memory) => Err(Refused::Memory),
        Err(fault) => Ok(Answered {
            verdict: Verdict::No,
            text: wrong_line(alloc, &fault)?.into_bytes(),
        }),
    }
}
