//! Certificates of what is least.
ghost use Rattle.std.specs.Prelude.{◌≡◌, ◌<◌, ◌≤◌, ◌+◌, IfOk, length};
ghost use Rattle.surf_surfaces.specs.Surface.{edge_count, loop_count};
ghost use Rattle.surf_records.specs.Fits.{LoopFits};
ghost use Rattle.surf_answers.specs.Certificates.{IsTheLoopCert, GivesLoopCert, GivesBasisCert};
ghost use Rattle.surf_answers.specs.Tells.{Concludes};
ghost use Rattle.surf_base.specs.declared.limits.TheConstants.{MAX_LOOPS};

use std::alloc::Global;
use surf_answers::Answered;
use surf_base::{MAX_ANSWER, NoMemory, VertexId};
use surf_basis::basis_cert;
use surf_cert::{write_basis_cert, write_loop_cert};
use surf_lengths::Lengths;
use surf_loops::LoopDesk;
use surf_mesh::HalfMesh;
use surf_records::LoopCert;
use surf_text::Page;
use surf_texts::Refused;

// The certificate of the loops that are chosen at a base. What it is made of isn't kept, so that
// its memory is free for the text.
fn chosen_loop_cert(
    alloc: Global,
    mesh: &HalfMesh,
    lengths: &Lengths,
    base: VertexId,
) -> Result<LoopCert, NoMemory>
    requires lengths { length lengths.now ≡ edge_count mesh.now }
    requires base { base < mesh.now.vertices }
    ensures cert { IfOk result (IsTheLoopCert mesh.now lengths.now base) }
    ensures fits { IfOk result LoopFits }
{
    let mut desk = LoopDesk::make(alloc, mesh)?;
    desk.greedy(mesh, lengths, base);
    desk.cert(alloc, mesh, lengths)
}

/// A certificate that the loops that are chosen at a base are least there.
pub(crate) fn loop_cert_of(
    alloc: Global,
    mesh: &HalfMesh,
    lengths: &Lengths,
    base: VertexId,
) -> Result<Answered, Refused>
    requires lengths { length lengths.now ≡ edge_count mesh.now }
    requires base { base < mesh.now.vertices }
    ensures { Concludes (GivesLoopCert mesh.now lengths.now base) result }
{
    let cert = chosen_loop_cert(alloc, mesh, lengths, base)?;
    let mut page = Page::make(alloc, MAX_ANSWER);
    write_loop_cert(&mut page, &cert)?;
    Ok(Answered::yes(page.into_bytes()))
}

/// A certificate that the cycles of the basis that is chosen are a least basis.
pub(crate) fn basis_cert_of(
    alloc: Global,
    mesh: &HalfMesh,
    lengths: &Lengths,
) -> Result<Answered, Refused>
    requires lengths { length lengths.now ≡ edge_count mesh.now }
    requires few { loop_count mesh.now ≤ MAX_LOOPS }
    ensures { Concludes (GivesBasisCert mesh.now lengths.now) result }
{
    mesh.law_of_surface();
    lengths.law_of_lengths();
    let cert = basis_cert(alloc, mesh, lengths)?;
    let mut page = Page::make(alloc, MAX_ANSWER);
    write_basis_cert(&mut page, &cert)?;
    Ok(Answered::yes(page.into_bytes()))
}
