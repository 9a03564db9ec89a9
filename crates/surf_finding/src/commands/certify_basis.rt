//! The command `certify` without a base.
ghost use Rattle.std.specs.Prelude.{◌≡◌, ◌≤◌, Some};
ghost use Rattle.surf_words.specs.Words.{certify_basis};
ghost use Rattle.surf_answers.specs.Tells.{ConcludesOver};
ghost use Rattle.surf_answers.specs.Commands.{OnRequest};

use crate::certificates::basis_cert_of;
use std::alloc::Global;
use surf_answers::{Answered, small_surface};
use surf_base::{LimitKind, MAX_CERTIFICATE_VERTICES, Shelf};
use surf_texts::Refused;

/// What `certify` answers without a base: a certificate that a basis is least.
pub fn answer<S: Shelf>(
    alloc: Global,
    shelf: &mut S,
    mesh: &str,
    lengths: &str,
) -> Result<Answered, Refused>
    ensures holds { S.holds shelf.new ≡ S.holds shelf.old }
    ensures later { S.faults shelf.old ≤ S.faults shelf.new }
    ensures tells { ConcludesOver (S.holds shelf.old) (S.faults shelf.old) (S.faults shelf.new)
        (OnRequest (Some (certify_basis mesh.now lengths.now))) result }
{
    let limit = (LimitKind::CertificateVertices, MAX_CERTIFICATE_VERTICES);
    let (mesh, lengths) = small_surface(alloc, shelf, limit, mesh, lengths)?;
    basis_cert_of(alloc, &mesh, &lengths)
}
