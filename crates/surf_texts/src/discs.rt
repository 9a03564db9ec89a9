//! The lines of discs.
ghost use Rattle.std.specs.Prelude.{◌≡◌, ◌≢◌, string_bytes, IfOk};
ghost use Rattle.surf_disc.specs.declared.faults.DiscFault.TheVariants.{Border, Memory};
ghost use Rattle.surf_texts.specs.DiscLines.{no_line};
ghost use Rattle.surf_texts.specs.CountLines.{count_line};

use std::alloc::{AllocError, Global};
use surf_disc::{BorderKind, DiscFault};
use surf_text::numbered;

/// The lines of a disc with this many border sides.
pub fn disc_text(alloc: Global, border: u32) -> Result<String, AllocError>
    ensures { IfOk result (λ text. string_bytes text ≡ count_line "disc\nborder " border) }
{
    format!(in alloc; "disc\nborder {border}\n")
}

fn border_line(alloc: Global, kind: &BorderKind) -> Result<String, AllocError>
    ensures { IfOk result (λ line. string_bytes line ≡ no_line (Border kind.now)) }
{
    match kind {
        BorderKind::Nothing => String::from_str(alloc, "no border none\n"),
        BorderKind::Two { u, v, s, t } => numbered(
            alloc,
            "no border",
            &[u.number(), v.number(), s.number(), t.number()],
        ),
    }
}

/// The line of what is wrong with a mesh that is no disc.
pub fn no_line(alloc: Global, fault: &DiscFault) -> Result<String, AllocError>
    requires { fault.now ≢ Memory }
    ensures { IfOk result (λ line. string_bytes line ≡ no_line fault.now) }
{
    match fault {
        DiscFault::Crowded { u, v, faces } => numbered(
            alloc,
            "no crowded",
            &[
                u.number(),
                v.number(),
                faces[0].number(),
                faces[1].number(),
                faces[2].number(),
            ],
        ),
        DiscFault::Isolated { v } => numbered(alloc, "no isolated", &[v.number()]),
        DiscFault::Pinched { v, first, second } => numbered(
            alloc,
            "no pinched",
            &[v.number(), first.number(), second.number()],
        ),
        DiscFault::Apart { face } => numbered(alloc, "no apart", &[face.number()]),
        DiscFault::Border { kind } => border_line(alloc, kind),
        DiscFault::Count {
            vertices,
            edges,
            faces,
        } => numbered(alloc, "no count", &[*vertices, *edges, *faces]),
        DiscFault::Memory => unreachable!(),
    }
}
