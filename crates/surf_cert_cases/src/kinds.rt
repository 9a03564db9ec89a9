//! Certificates of a text, by their kind. Each step stands alone, since a proof that reads, tells
//! apart and refuses in one function takes minutes.
use std::alloc::Global;
use std::test::Fail;
use surf_cert::{BasisCert, Cert, LoopCert, read_cert};

/// The certificate of a text.
pub fn read(alloc: Global, text: &[u8]) -> Result<Cert, Fail> {
    if text.len() > 20_000 {
        return Err("a long text")?;
    }
    Ok(read_cert(alloc, text).ok().ok_or("a certificate")?)
}

/// The certificate, where it is one of a basis.
pub fn basis_of(cert: Cert) -> Option<BasisCert> {
    match cert {
        Cert::Basis(cert) => Some(cert),
        Cert::Loops(_) => None,
    }
}

/// The certificate, where it is one of loops.
pub fn loops_of(cert: Cert) -> Option<LoopCert> {
    match cert {
        Cert::Loops(cert) => Some(cert),
        Cert::Basis(_) => None,
    }
}
