//! The command `confirm`.
ghost use Rattle.std.specs.Prelude.{◌≡◌, ◌≤◌, ℕ, List, length, Some};
ghost use Rattle.surf_surfaces.specs.Walk.{IsClosed};
ghost use Rattle.surf_off.specs.Off.{OffParts};
ghost use Rattle.surf_class.specs.Seen.{seen};
ghost use Rattle.surf_words.specs.Words.{confirm};
ghost use Rattle.surf_answers.specs.Confirming.{JudgesEvidence};
ghost use Rattle.surf_answers.specs.Tells.{Concludes, ConcludesOver, Takes};
ghost use Rattle.surf_answers.specs.Commands.{OnRequest};
ghost use Rattle.surf_answers.specs.Reading.{HoldsSurface, IsEvidenceText};
ghost use Rattle.surf_answers.specs.Steps.{Ends};
ghost use Rattle.surf_base.specs.declared.limits.TheConstants.{MAX_TEXT};

use crate::evidence::judge_evidence;
use std::alloc::Global;
use surf_answers::{Answered, read_file, surface_at, walk_named};
use surf_base::Shelf;
use surf_class::{Evidence, read_evidence};
use surf_mesh::{HalfMesh, Walk};
use surf_texts::{Refused, WalkFile};

/// What `confirm` answers: whether the evidence of a file is right for the class of a walk.
pub fn answer<S: Shelf>(
    alloc: Global,
    shelf: &mut S,
    mesh: &str,
    walk: &str,
    cert: &str,
) -> Result<Answered, Refused>
    ensures holds { S.holds shelf.new ≡ S.holds shelf.old }
    ensures later { S.faults shelf.old ≤ S.faults shelf.new }
    ensures tells { ConcludesOver (S.holds shelf.old) (S.faults shelf.old) (S.faults shelf.new)
        (OnRequest (Some (confirm mesh.now walk.now cert.now))) result }
{
    let mesh = surface_at(alloc, shelf, mesh)?;
    answer_on(alloc, shelf, &mesh, walk, cert)
}

// What `confirm` answers of a surface.
fn answer_on<S: Shelf>(
    alloc: Global,
    shelf: &mut S,
    mesh: &HalfMesh,
    walk: &str,
    cert: &str,
) -> Result<Answered, Refused>
    ensures holds { S.holds shelf.new ≡ S.holds shelf.old }
    ensures later { S.faults shelf.old ≤ S.faults shelf.new }
    ensures tells { (name bytes : List ℕ) (parts : OffParts) → HoldsSurface (S.holds shelf.old) name
        bytes (parts, mesh.now) → ConcludesOver (S.holds shelf.old) (S.faults shelf.old)
        (S.faults shelf.new) (OnRequest (Some (confirm name walk.now cert.now))) result }
{
    let walk = walk_named(alloc, shelf, mesh, WalkFile::First, walk)?;
    let text = read_file(alloc, shelf, cert)?;
    judge_text(alloc, mesh, &walk, &text)
}

// What `confirm` answers of a surface with a walk and the text of evidence.
fn judge_text(alloc: Global, mesh: &HalfMesh, walk: &Walk, text: &[u8]) -> Result<Answered, Refused>
    requires closed { IsClosed mesh.now walk.now }
    requires short { length text.now ≤ MAX_TEXT }
    ensures { Concludes (Ends (IsEvidenceText text.now) (λ evidence. JudgesEvidence mesh.now
        walk.now evidence)) result }
{
    let evidence = evidence_of(alloc, text)?;
    judge_evidence(alloc, mesh, walk, &evidence)
}

// The evidence of a text.
fn evidence_of(alloc: Global, bytes: &[u8]) -> Result<Evidence, Refused>
    requires { length bytes.now ≤ MAX_TEXT }
    ensures { Takes seen (IsEvidenceText bytes.now) result }
{
    let evidence = read_evidence(alloc, bytes)?;
    Ok(evidence)
}
