//! The counts and the measures of surfaces as texts.
ghost use Rattle.std.specs.Prelude.{◌≡◌, string_bytes, IfOk};
ghost use Rattle.surf_texts.specs.SummaryTexts.{counts_text, mesh_counts, kind_text, measures_text};

use std::alloc::{AllocError, Global};
use surf_check::Kind;
use surf_mesh::Surface;

// The lines that say how many vertices, edges and faces there are.
fn count_lines(alloc: Global, vertices: u32, edges: u32, faces: u32) -> Result<String, AllocError>
    ensures { IfOk result (λ text. string_bytes text ≡ counts_text vertices edges faces) }
{
    format!(in alloc; "vertices {vertices}\nedges {edges}\nfaces {faces}\n")
}

/// How many vertices, edges and faces a surface has.
pub fn counts_text(alloc: Global, mesh: &Surface) -> Result<String, AllocError>
    ensures { IfOk result (λ text. string_bytes text ≡ mesh_counts mesh.now) }
{
    count_lines(alloc, mesh.vertices(), mesh.edges(), mesh.faces())
}

/// How many vertices, edges and faces a surface has of which only the kind is kept.
pub fn kind_counts_text(alloc: Global, kind: &Kind) -> Result<String, AllocError>
    ensures { IfOk result (λ text. string_bytes text ≡ mesh_counts kind.now) }
{
    count_lines(alloc, kind.vertices(), kind.edges(), kind.faces())
}

/// The characteristic and the genus of a surface.
pub fn genus_text(alloc: Global, characteristic: i64, genus: u32) -> Result<String, AllocError>
    ensures { IfOk result (λ text. string_bytes text ≡ kind_text "\ngenus " characteristic genus) }
{
    format!(in alloc; "characteristic {characteristic}\ngenus {genus}\n")
}

/// The characteristic and the crosscaps of a surface.
pub fn crosscaps_text(
    alloc: Global,
    characteristic: i64,
    crosscaps: u64,
) -> Result<String, AllocError>
    ensures { IfOk result (λ text. string_bytes text ≡ kind_text "\ncrosscaps " characteristic crosscaps) }
{
    format!(in alloc; "characteristic {characteristic}\ncrosscaps {crosscaps}\n")
}

/// What the loops, the basis and the cycle of a surface measure.
pub fn measures_text(
    alloc: Global,
    loops: u128,
    basis: u128,
    cycle: u64,
) -> Result<String, AllocError>
    ensures { IfOk result (λ text. string_bytes text ≡ measures_text loops basis cycle) }
{
    format!(in alloc; "loops {loops}\nbasis {basis}\ncycle {cycle}\n")
}
