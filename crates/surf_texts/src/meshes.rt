//! The lines of meshes that are refused.
ghost use Rattle.std.specs.Prelude.{◌≡◌, string_bytes, IfOk};
ghost use Rattle.surf_texts.specs.Cause.{line_of};
ghost use Rattle.surf_texts.specs.MeshLines.{off_cause};
ghost use Rattle.surf_texts.specs.SurfaceLines.{surface_cause};

use crate::lines::limit_line;
use std::alloc::{AllocError, Global};
use surf_check::SurfaceFault;
use surf_off::OffFault;
use surf_text::numbered;

/// The line of a fault in the text of a mesh.
pub(crate) fn off_line(alloc: Global, fault: &OffFault) -> Result<String, AllocError>
    ensures { IfOk result (λ line. string_bytes line ≡ line_of (off_cause fault.now)) }
{
    match fault {
        OffFault::Header { line } => numbered(alloc, "mesh text: header", &[*line]),
        OffFault::Counts { line } => numbered(alloc, "mesh text: counts", &[*line]),
        OffFault::VertexLine { line } => numbered(alloc, "mesh text: vertex-line", &[*line]),
        OffFault::FaceSize { line } => numbered(alloc, "mesh text: face-size", &[*line]),
        OffFault::FaceIndex { line, place } => {
            numbered(alloc, "mesh text: face-index", &[*line, *place])
        }
        OffFault::FaceRepeat { line, vertex } => {
            numbered(alloc, "mesh text: face-repeat", &[*line, vertex.number()])
        }
        OffFault::Early { missing } => numbered(alloc, "mesh text: early", &[*missing]),
        OffFault::Trailing { line } => numbered(alloc, "mesh text: trailing", &[*line]),
        OffFault::Limit { line: _, kind } => limit_line(alloc, *kind),
        OffFault::Memory => String::from_str(alloc, "memory\n"),
    }
}

/// The line of a fault for which a mesh is no surface.
pub(crate) fn surface_line(alloc: Global, fault: &SurfaceFault) -> Result<String, AllocError>
    ensures { IfOk result (λ line. string_bytes line ≡ line_of (surface_cause fault.now)) }
{
    match fault {
        SurfaceFault::Empty => numbered(alloc, "surface: empty", &[]),
        SurfaceFault::Border { u, v, face } => numbered(
            alloc,
            "surface: border",
            &[u.number(), v.number(), face.number()],
        ),
        SurfaceFault::Crowded { u, v, faces } => numbered(
            alloc,
            "surface: crowded",
            &[
                u.number(),
                v.number(),
                faces[0].number(),
                faces[1].number(),
                faces[2].number(),
            ],
        ),
        SurfaceFault::Isolated { v } => numbered(alloc, "surface: isolated", &[v.number()]),
        SurfaceFault::Pinched { v, first, second } => numbered(
            alloc,
            "surface: pinched",
            &[v.number(), first.number(), second.number()],
        ),
        SurfaceFault::Apart { face } => numbered(alloc, "surface: apart", &[face.number()]),
        SurfaceFault::Memory => String::from_str(alloc, "memory\n"),
    }
}
