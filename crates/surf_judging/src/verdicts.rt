//! Whether a certificate is valid for a surface and lengths.
ghost use Rattle.std.specs.Prelude.{◌≡◌, ◌≢◌, ◌≤◌, ◌+◌, length};
ghost use Rattle.surf_records.specs.declared.cert.Cert.TheVariants.{Basis, Loops};
ghost use Rattle.surf_treecheck.specs.declared.fault.CertFault.TheVariants.{Memory};
ghost use Rattle.surf_surfaces.specs.Surface.{edge_count, loop_count};
ghost use Rattle.surf_texts.specs.Outcome.{answers};
ghost use Rattle.surf_answers.specs.Tells.{Concludes};
ghost use Rattle.surf_answers.specs.Verdicts.{JudgesCert};
ghost use Rattle.surf_texts.specs.VerdictLines.{fault_line};
ghost use Rattle.surf_base.specs.declared.limits.TheConstants.{MAX_LOOPS};

use std::alloc::Global;
use surf_answers::{Answered, Verdict};
use surf_cert::{BasisCert, Cert, LoopCert};
use surf_certcheck::{CertFault, check_basis, check_loops};
use surf_lengths::Lengths;
use surf_mesh::HalfMesh;
use surf_texts::{Refused, basis_line, fault_line, loops_line};

/// Whether a certificate is valid, with the total that it shows to be least, or what is wrong with
/// it.
pub(crate) fn judge(
    alloc: Global,
    mesh: &HalfMesh,
    lengths: &Lengths,
    cert: &Cert,
) -> Result<Answered, Refused>
    requires lengths { length lengths.now ≡ edge_count mesh.now }
    requires few { loop_count mesh.now ≤ MAX_LOOPS }
    ensures { Concludes (JudgesCert mesh.now lengths.now cert.now) result }
{
    match cert {
        Cert::Loops(cert) => judge_loops(alloc, mesh, lengths, cert),
        Cert::Basis(cert) => judge_basis(alloc, mesh, lengths, cert),
    }
}

fn judge_loops(
    alloc: Global,
    mesh: &HalfMesh,
    lengths: &Lengths,
    cert: &LoopCert,
) -> Result<Answered, Refused>
    requires { length lengths.now ≡ edge_count mesh.now }
    ensures { Concludes (JudgesCert mesh.now lengths.now (Loops cert.now)) result }
{
    match check_loops(alloc, mesh, lengths, cert) {
        Ok(total) => {
            let text = loops_line(alloc, total)?;
            Ok(Answered::yes(text.into_bytes()))
        }
        Err(CertFault::Memory) => Err(Refused::Memory),
        Err(fault) => invalid(alloc, &fault),
    }
}

fn judge_basis(
    alloc: Global,
    mesh: &HalfMesh,
    lengths: &Lengths,
    cert: &BasisCert,
) -> Result<Answered, Refused>
    requires lengths { length lengths.now ≡ edge_count mesh.now }
    requires few { loop_count mesh.now ≤ MAX_LOOPS }
    ensures { Concludes (JudgesCert mesh.now lengths.now (Basis cert.now)) result }
{
    match check_basis(alloc, mesh, lengths, cert) {
        Ok(total) => {
            let text = basis_line(alloc, total)?;
            Ok(Answered::yes(text.into_bytes()))
        }
        Err(CertFault::Memory) => Err(Refused::Memory),
        Err(fault) => invalid(alloc, &fault),
    }
}

// What is wrong with a certificate.
fn invalid(alloc: Global, fault: &CertFault) -> Result<Answered, Refused>
    requires { fault.now ≢ Memory }
    ensures { Concludes (λ end. end ≡ answers 1 (fault_line fault.now)) result }
{
    let line = fault_line(alloc, fault)?;
    Ok(Answered {
        verdict: Verdict::No,
        text: line.into_bytes(),
    })
}
