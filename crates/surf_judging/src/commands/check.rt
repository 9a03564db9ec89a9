//! The command `check`.
ghost use Rattle.std.specs.Prelude.{◌≡◌, ◌≤◌, length, Some, IfErr};
ghost use Rattle.surf_surfaces.specs.Surface.{edge_count, loop_count};
ghost use Rattle.surf_words.specs.Words.{check};
ghost use Rattle.surf_answers.specs.Tells.{Concludes, ConcludesOver, Takes};
ghost use Rattle.surf_answers.specs.Verdicts.{JudgesCert};
ghost use Rattle.surf_answers.specs.Commands.{OnRequest};
ghost use Rattle.surf_answers.specs.Reading.{IsCertText, tree_count};
ghost use Rattle.surf_answers.specs.Steps.{AtMost, Ends};
ghost use Rattle.surf_base.specs.declared.limits.LimitKind.TheVariants.{CertificateVertices};
ghost use Rattle.surf_base.specs.declared.limits.TheConstants.{MAX_CERTIFICATE_VERTICES, MAX_LOOPS, MAX_TEXT};

use crate::verdicts::judge;
use std::alloc::Global;
use surf_answers::{Answered, at_most, measured_surface, read_file};
use surf_base::{LimitKind, MAX_CERTIFICATE_VERTICES, Shelf};
use surf_cert::{Cert, take_cert};
use surf_lengths::Lengths;
use surf_mesh::HalfMesh;
use surf_texts::Refused;

/// What `check` answers: whether the certificate of a file is valid for the mesh of a file with
/// lengths.
pub fn answer<S: Shelf>(
    alloc: Global,
    shelf: &mut S,
    mesh: &str,
    lengths: &str,
    cert: &str,
) -> Result<Answered, Refused>
    ensures holds { S.holds shelf.new ≡ S.holds shelf.old }
    ensures later { S.faults shelf.old ≤ S.faults shelf.new }
    ensures tells { ConcludesOver (S.holds shelf.old) (S.faults shelf.old) (S.faults shelf.new)
        (OnRequest (Some (check mesh.now lengths.now cert.now))) result }
{
    let (mesh, lengths) = measured_surface(alloc, shelf, mesh, lengths)?;
    let text = read_file(alloc, shelf, cert)?;
    judge_text(alloc, &mesh, &lengths, text)
}

// What `check` answers of a surface with lengths and the text of a certificate, which is kept no
// longer than it is read.
fn judge_text(
    alloc: Global,
    mesh: &HalfMesh,
    lengths: &Lengths,
    text: Vec<u8>,
) -> Result<Answered, Refused>
    requires lengths { length lengths.now ≡ edge_count mesh.now }
    requires few { loop_count mesh.now ≤ MAX_LOOPS }
    requires short { length text.items ≤ MAX_TEXT }
    ensures { Concludes (Ends (IsCertText text.items) (λ cert. Ends (AtMost CertificateVertices
        MAX_CERTIFICATE_VERTICES (tree_count mesh.now cert)) (λ _. JudgesCert mesh.now lengths.now
        cert))) result }
{
    let cert = cert_of(alloc, text)?;
    test_trees(mesh, &cert)?;
    judge(alloc, mesh, lengths, &cert)
}

// The certificate of a text.
fn cert_of(alloc: Global, text: Vec<u8>) -> Result<Cert, Refused>
    requires { length text.items ≤ MAX_TEXT }
    ensures { Takes (λ cert. cert) (IsCertText text.items) result }
{
    let cert = take_cert(alloc, text)?;
    Ok(cert)
}

// Whether a certificate has few trees. One of a basis has a tree at each vertex.
fn test_trees(mesh: &HalfMesh, cert: &Cert) -> Result<(), Refused>
    ensures tells { Takes (λ _. tt) (AtMost CertificateVertices MAX_CERTIFICATE_VERTICES
        (tree_count mesh.now cert.now)) result }
    ensures limit { IfErr result (λ e. e ≡ Refused.Limit CertificateVertices) }
{
    let trees = match cert {
        Cert::Loops(_) => 1,
        Cert::Basis(_) => mesh.vertices(),
    };
    at_most(
        LimitKind::CertificateVertices,
        u128::from(MAX_CERTIFICATE_VERTICES),
        u128::from(trees),
    )
}
