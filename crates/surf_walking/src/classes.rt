//! Evidence of the classes of walks.
ghost use Rattle.std.specs.Prelude.{◌≡◌, ◌≤◌, ◌+◌, IfOk};
ghost use Rattle.std.specs.Option.{option_copied};
ghost use Rattle.surf_class.specs.Seen.{seen};
ghost use Rattle.surf_classes.specs.Evidence.{AreClosed, IsClassEvidence, IsEvidence, joint_parity};
ghost use Rattle.surf_surfaces.specs.Surface.{loop_count};
ghost use Rattle.surf_answers.specs.Classes.{evidence_words, GivesClass};
ghost use Rattle.surf_answers.specs.Tells.{Concludes};
ghost use Rattle.surf_base.specs.declared.limits.TheConstants.{MAX_LOOPS};

use crate::desk::chosen_desk;
use std::alloc::Global;
use surf_answers::Answered;
use surf_base::{MAX_ANSWER, NoMemory};
use surf_class::{Evidence, classify, write_evidence};
use surf_lengths::unit_lengths;
use surf_mesh::{HalfMesh, Walk};
use surf_text::Page;
use surf_texts::Refused;

// The words of evidence of faces and of edges.
fn kinds(second: Option<&Walk>) -> (&'static [u8], &'static [u8])
    ensures null { result.0.now ≡ (evidence_words (option_copied second.entry)).0 }
    ensures odd { result.1.now ≡ (evidence_words (option_copied second.entry)).1 }
{
    match second {
        None => (b"null", b"odd"),
        Some(_) => (b"same", b"different"),
    }
}

/// The answer on one walk, or on two.
pub(crate) fn class_of(
    alloc: Global,
    mesh: &HalfMesh,
    first: &Walk,
    second: Option<&Walk>,
) -> Result<Answered, Refused>
    requires few { loop_count mesh.now ≤ MAX_LOOPS }
    requires closed { AreClosed mesh.now first.now (option_copied second) }
    ensures { Concludes (GivesClass mesh.now first.now (option_copied second.entry)) result }
{
    let evidence = evidence_of(alloc, mesh, first, second)?;
    let mut page = Page::make(alloc, MAX_ANSWER);
    let (null, odd) = kinds(second);
    write_evidence(&mut page, null, odd, &evidence)?;
    Ok(Answered::yes(page.into_bytes()))
}

// The evidence that is chosen, by the trees at vertex 0 where each edge has length 1.
fn evidence_of(
    alloc: Global,
    mesh: &HalfMesh,
    first: &Walk,
    second: Option<&Walk>,
) -> Result<Evidence, NoMemory>
    requires few { loop_count mesh.now ≤ MAX_LOOPS }
    requires closed { AreClosed mesh.now first.now (option_copied second) }
    ensures chosen { IfOk result (λ e. IsClassEvidence mesh.now (joint_parity mesh.now first.now
        (option_copied second.entry)) (seen e)) }
    ensures right { IfOk result (λ e. IsEvidence mesh.now (joint_parity mesh.now first.now
        (option_copied second.entry)) (seen e)) }
{
    let lengths = unit_lengths(alloc, mesh)?;
    let desk = chosen_desk(alloc, mesh, &lengths)?;
    classify(alloc, mesh, desk.cotree(), first, second)
}
