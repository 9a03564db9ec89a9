//! Why a text is not a certificate.
ghost use Rattle.std.specs.Prelude.{◌≡◌};
ghost use Rattle.surf_cert.specs.declared.fault.CertText.TheVariants.{Memory};

use std::alloc::{AllocError, AllocFailed};
use surf_base::NoMemory;

/// The first fault of a text. Lines are numbered from 1, and 0 stands for a line that isn't there.
#[derive(Clone, Copy, Debug, PartialEq, Eq)]
pub enum CertText {
    /// The first line with a token is neither `SURFCERT 1 loops` nor `SURFCERT 1 basis`.
    Header { line: u32 },
    /// A later line doesn't have the form that its place asks for.
    Form { line: u32 },
    /// The text ends before its last line.
    Early,
    /// A line with a token stands after the last one.
    Trailing { line: u32 },
    /// There was no memory.
    Memory,
}

impl From<NoMemory> for CertText {
    ghost from_gives = { λ _ e. e ≡ Memory };

    fn from(_: NoMemory) -> CertText {
        CertText::Memory
    }
}

impl From<AllocError> for CertText {
    ghost from_gives = { λ _ e. e ≡ Memory };

    fn from(_: AllocError) -> CertText {
        CertText::Memory
    }
}

impl<T: Drop> From<AllocFailed<T>> for CertText {
    ghost from_gives = { λ _ e. e ≡ Memory };

    fn from(_: AllocFailed<T>) -> CertText {
        CertText::Memory
    }
}
