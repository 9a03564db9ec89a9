//! The lines of checks of certificates.
ghost use Rattle.std.specs.Prelude.{◌≡◌, ◌≢◌, string_bytes, IfOk};
ghost use Rattle.surf_treecheck.specs.declared.fault.CertFault.TheVariants.{Heavier, Memory, Shape};
ghost use Rattle.surf_texts.specs.VerdictLines.{fault_line};
ghost use Rattle.surf_texts.specs.CountLines.{count_line};

use std::alloc::{AllocError, Global};
use surf_base::VertexId;
use surf_text::numbered;
use surf_treecheck::{CertFault, CertPart};

/// The line of a valid certificate of loops.
pub fn loops_line(alloc: Global, total: u128) -> Result<String, AllocError>
    ensures { IfOk result (λ text. string_bytes text ≡ count_line "valid loops " total) }
{
    format!(in alloc; "valid loops {total}\n")
}

/// The line of a valid certificate of a basis.
pub fn basis_line(alloc: Global, total: u128) -> Result<String, AllocError>
    ensures { IfOk result (λ text. string_bytes text ≡ count_line "valid basis " total) }
{
    format!(in alloc; "valid basis {total}\n")
}

fn part_line(part: CertPart) -> &'static str
    ensures { result.now ≡ fault_line (Shape part) }
{
    match part {
        CertPart::Vertices => "no shape vertices\n",
        CertPart::Faces => "no shape faces\n",
        CertPart::Loops => "no shape loops\n",
        CertPart::Base => "no shape base\n",
    }
}

fn heavier_line(
    alloc: Global,
    left: (VertexId, VertexId),
    cotree: (VertexId, VertexId),
) -> Result<String, AllocError>
    ensures { IfOk result (λ line. string_bytes line ≡ fault_line (Heavier left cotree)) }
{
    let (u, v) = left;
    let (s, t) = cotree;
    numbered(
        alloc,
        "no heavier",
        &[u.number(), v.number(), s.number(), t.number()],
    )
}

/// The line of what is wrong with a certificate.
pub fn fault_line(alloc: Global, fault: &CertFault) -> Result<String, AllocError>
    requires { fault.now ≢ Memory }
    ensures { IfOk result (λ line. string_bytes line ≡ fault_line fault.now) }
{
    match fault {
        CertFault::Shape { part } => String::from_str(alloc, part_line(*part)),
        CertFault::Parent { base, vertex } => {
            numbered(alloc, "no parent", &[base.number(), vertex.number()])
        }
        CertFault::Distance { base, vertex } => {
            numbered(alloc, "no distance", &[base.number(), vertex.number()])
        }
        CertFault::Slack { base, u, v } => numbered(
            alloc,
            "no slack",
            &[base.number(), u.number(), v.number()],
        ),
        CertFault::Dual { face } => numbered(alloc, "no dual", &[face.number()]),
        CertFault::Split { u, v } => numbered(alloc, "no split", &[u.number(), v.number()]),
        CertFault::Heavier { left, cotree } => heavier_line(alloc, *left, *cotree),
        CertFault::NotClosed { place } => numbered(alloc, "no not-closed", &[*place]),
        CertFault::Dependent { place } => numbered(alloc, "no dependent", &[*place]),
        CertFault::Uncovered { base, u, v } => numbered(
            alloc,
            "no uncovered",
            &[base.number(), u.number(), v.number()],
        ),
        CertFault::Memory => unreachable!(),
    }
}
