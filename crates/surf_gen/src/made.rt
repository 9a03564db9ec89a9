//! Lengths that are made from a number.
ghost use Rattle.std.specs.Prelude.{◌≡◌, ◌<◌, ◌^◌, length, IfOk};
ghost use Rattle.surf_surfaces.specs.Surface.{edge_count};
ghost use Rattle.surf_gen.specs.Made.{made_length, made_values};

use std::alloc::Global;
use surf_base::NoMemory;
use surf_lengths::Lengths;
use surf_mesh::HalfMesh;

// One more than the remainder by 97 of the scatter times 13 more than seven times the edge's
// number. There are fewer than 2^29 edges, so the product fits in 64 bits.
fn made_length(scatter: u32, edge: u32) -> u32
    requires few { edge < 2 ^ 29 }
    ensures length { result ≡ made_length scatter edge }
{
    let spread = u64::from(scatter) * (7 * u64::from(edge) + 13);
    1 + (spread % 97) as u32
}

/// Lengths from 1 to 97 that are scattered over the edges: edge `k` has the length
/// `1 + (scatter * (7 * k + 13)) % 97`. At scatter 0 each is 1.
pub fn made_lengths(alloc: Global, mesh: &HalfMesh, scatter: u32) -> Result<Lengths, NoMemory>
    ensures values { IfOk result (λ lengths. lengths ≡ made_values mesh.now scatter) }
    ensures count { IfOk result (λ lengths. length lengths ≡ edge_count mesh.now) }
{
    surf_surfaces::law_of_faces();
    let edges = mesh.edges();
    let mut values = Vec::with_capacity(alloc, edges as usize)?;
    for edge in 0..edges {
        values.push(made_length(scatter, edge))?;
    }
    Ok(Lengths::from_values(values))
}
