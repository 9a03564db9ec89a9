//! A certificate of loops.
use crate::kinds::{loops_of, read};
use crate::texts::loops;
use std::alloc::Global;
use std::test::Fail;
use surf_cert::LoopCert;
use surf_certcheck::{CertFault, check_loops};
use surf_lengths::unit_lengths;
use surf_mesh::HalfMesh;
use surf_samples::{pillow, surface};

// The certificate of a text.
fn cert_of(alloc: Global, text: &[u8]) -> Result<LoopCert, Fail> {
    let cert = loops_of(read(alloc, text)?);
    Ok(cert.ok_or("a certificate of loops")?)
}

// What the checker says of a certificate where each edge has length 1; none for want of memory.
fn judged(alloc: Global, mesh: &HalfMesh, cert: &LoopCert) -> Option<Result<u128, CertFault>> {
    let lengths = unit_lengths(alloc, mesh).ok()?;
    Some(check_loops(alloc, mesh, &lengths, cert))
}

#[test]
fn no_loops_are_valid(rt: HostRuntime) -> Result<(), Fail> {
    let alloc = rt.alloc();
    let mesh = surface(alloc, 3, pillow())?;
    let cert = cert_of(alloc, loops().as_bytes())?;
    assert_eq!(rt; judged(alloc, &mesh, &cert), Some(Ok(0)));
    Ok(())
}
