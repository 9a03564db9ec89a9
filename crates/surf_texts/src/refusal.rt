//! Why there is no answer.
ghost use Rattle.std.specs.Prelude.{◌≡◌, IfOk, string_bytes};
ghost use Rattle.surf_texts.specs.Cause.{line_of, status_of_cause};
ghost use Rattle.surf_texts.specs.Refusals.{cause_of, of_page};
ghost use Rattle.surf_texts.specs.declared.refusal.Refused.TheVariants.{MeshText, Surface, Lengths, Certificate};
ghost use Rattle.surf_texts.specs.declared.refusal.Refused.TheVariants.{Coordinates, Sewing, Evidence, Points, Memory};

use crate::certificates::cert_line;
use crate::evidence::evidence_line;
use crate::lengths::{base_line, length_line};
use crate::lines::{limit_line, told_line};
use crate::meshes::{off_line, surface_line};
use crate::points::{near_line, point_line};
use crate::sewing::{copy_line, sew_line};
use crate::walks::{WalkFile, walk_line};
use std::alloc::{AllocError, AllocFailed, Global};
use surf_base::{LimitKind, NoMemory};
use surf_cert::CertText;
use surf_check::SurfaceFault;
use surf_class::{EvidenceFault, PointFault, WalkFault};
use surf_geom::GeomFault;
use surf_lengths::LengthFault;
use surf_off::OffFault;
use surf_sew::{CopyFault, SewFault};
use surf_text::PageFault;

/// Why there is no answer: the first test that refuses, in their order.
#[derive(Clone, Copy, Debug, PartialEq, Eq)]
pub enum Refused {
    MeshText(OffFault),
    Surface(SurfaceFault),
    Lengths(LengthFault),
    Base { base: u32, vertices: u32 },
    Certificate(CertText),
    Coordinates(GeomFault),
    Copies { fault: CopyFault, vertices: u32 },
    Sewing(SewFault),
    Walk { file: WalkFile, fault: WalkFault },
    Evidence(EvidenceFault),
    Points(PointFault),
    /// The cut through the vertices has fewer than two edges.
    Near,
    Limit(LimitKind),
    Read,
    Memory,
}

impl From<NoMemory> for Refused {
    ghost from_gives = { λ _ e. e ≡ Memory };

    fn from(_: NoMemory) -> Refused {
        Refused::Memory
    }
}

impl From<AllocError> for Refused {
    ghost from_gives = { λ _ e. e ≡ Memory };

    fn from(_: AllocError) -> Refused {
        Refused::Memory
    }
}

impl<T: Drop> From<AllocFailed<T>> for Refused {
    ghost from_gives = { λ _ e. e ≡ Memory };

    fn from(_: AllocFailed<T>) -> Refused {
        Refused::Memory
    }
}

impl From<OffFault> for Refused {
    ghost from_gives = { λ fault e. e ≡ MeshText fault };

    fn from(fault: OffFault) -> Refused {
        Refused::MeshText(fault)
    }
}

impl From<LengthFault> for Refused {
    ghost from_gives = { λ fault e. e ≡ Lengths fault };

    fn from(fault: LengthFault) -> Refused {
        Refused::Lengths(fault)
    }
}

impl From<CertText> for Refused {
    ghost from_gives = { λ fault e. e ≡ Certificate fault };

    fn from(fault: CertText) -> Refused {
        Refused::Certificate(fault)
    }
}

impl From<GeomFault> for Refused {
    ghost from_gives = { λ fault e. e ≡ Coordinates fault };

    fn from(fault: GeomFault) -> Refused {
        Refused::Coordinates(fault)
    }
}

impl From<SewFault> for Refused {
    ghost from_gives = { λ fault e. e ≡ Sewing fault };

    fn from(fault: SewFault) -> Refused {
        Refused::Sewing(fault)
    }
}

impl From<EvidenceFault> for Refused {
    ghost from_gives = { λ fault e. e ≡ Evidence fault };

    fn from(fault: EvidenceFault) -> Refused {
        Refused::Evidence(fault)
    }
}

impl From<PointFault> for Refused {
    ghost from_gives = { λ fault e. e ≡ Points fault };

    fn from(fault: PointFault) -> Refused {
        Refused::Points(fault)
    }
}

impl From<PageFault> for Refused {
    ghost from_gives = { λ fault e. e ≡ of_page fault };

    fn from(fault: PageFault) -> Refused {
        match fault {
            PageFault::Full => Refused::Limit(LimitKind::Answer),
            PageFault::Memory => Refused::Memory,
        }
    }
}

impl From<SurfaceFault> for Refused {
    ghost from_gives = { λ fault e. e ≡ Surface fault };

    fn from(fault: SurfaceFault) -> Refused {
        Refused::Surface(fault)
    }
}

impl Refused {
    /// The status with which the program ends.
    pub fn status(&self) -> u8
        ensures { result ≡ status_of_cause (cause_of self.now) }
    {
        match self {
            Refused::MeshText(OffFault::Limit { .. }) | Refused::Limit(_) => 6,
            Refused::MeshText(OffFault::Memory)
            | Refused::Surface(SurfaceFault::Memory)
            | Refused::Lengths(LengthFault::Memory)
            | Refused::Certificate(CertText::Memory)
            | Refused::Coordinates(GeomFault::Memory)
            | Refused::Copies {
                fault: CopyFault::Memory,
                ..
            }
            | Refused::Sewing(SewFault::Memory)
            | Refused::Walk {
                fault: WalkFault::Memory,
                ..
            }
            | Refused::Evidence(EvidenceFault::Memory)
            | Refused::Points(PointFault::Memory)
            | Refused::Memory => 11,
            Refused::MeshText(_) => 3,
            Refused::Surface(_) => 4,
            Refused::Lengths(_) => 5,
            Refused::Base { .. } => 7,
            Refused::Certificate(_) | Refused::Evidence(_) => 8,
            Refused::Read => 9,
            Refused::Coordinates(_) => 12,
            Refused::Walk { .. } => 13,
            Refused::Copies { .. } | Refused::Sewing(_) => 14,
            Refused::Points(_) | Refused::Near => 15,
        }
    }

    /// The line that says why.
    pub fn line(&self, alloc: Global) -> Result<String, AllocError>
        ensures { IfOk result (λ line. string_bytes line ≡ line_of (cause_of self.now)) }
    {
        match self {
            Refused::MeshText(fault) => off_line(alloc, fault),
            Refused::Surface(fault) => surface_line(alloc, fault),
            Refused::Lengths(fault) => length_line(alloc, fault),
            Refused::Base { base, vertices } => base_line(alloc, *base, *vertices),
            Refused::Certificate(fault) => cert_line(alloc, fault),
            Refused::Coordinates(fault) => told_line(alloc, fault.line(alloc)?),
            Refused::Copies { fault, vertices } => copy_line(alloc, fault, *vertices),
            Refused::Sewing(fault) => sew_line(alloc, fault),
            Refused::Walk { file, fault } => walk_line(alloc, *file, fault),
            Refused::Evidence(fault) => evidence_line(alloc, fault),
            Refused::Points(fault) => point_line(alloc, fault),
            Refused::Near => near_line(alloc),
            Refused::Limit(kind) => limit_line(alloc, *kind),
            Refused::Read => String::from_str(alloc, "read fault\n"),
            Refused::Memory => String::from_str(alloc, "memory\n"),
        }
    }
}
