//! The Euler characteristic and the genus.
ghost use Rattle.std.specs.Prelude.{◌≡◌, ◌*◌, ◌-ℤ◌, pos};
ghost use Rattle.surf_surfaces.specs.Mesh.{characteristic};
ghost use Rattle.surf_surfaces.specs.Surface.{IsOrientation};
ghost use Rattle.surf_orientation.specs.Statements.{genus_of};
ghost use Rattle.surf_check.specs.Growth.{flag_of};

use crate::answers::Turning;
use surf_mesh::{HalfMesh, Surface};

/// The number of vertices minus that of edges plus that of faces.
pub fn surface_characteristic(mesh: &Surface) -> i64
    ensures { result ≡ characteristic mesh.now }
{
    let vertices = mesh.vertices() as i64;
    let edges = mesh.edges() as i64;
    let faces = mesh.faces() as i64;
    vertices - edges + faces
}

/// The number of vertices minus that of edges plus that of faces.
pub fn characteristic(mesh: &HalfMesh) -> i64
    ensures { result ≡ characteristic mesh.now }
{
    surface_characteristic(mesh.surface())
}

/// Half of 2 minus the characteristic, for a surface and a turning of it.
pub fn surface_genus(mesh: &Surface, turning: &Turning) -> u32
    requires { IsOrientation mesh.now (flag_of turning.now) }
    ensures is { result ≡ genus_of mesh.now }
    ensures twice { pos (2 * result) ≡ pos 2 -ℤ characteristic mesh.now }
{
    let most = mesh.edges() as u64 + 2;
    let taken = mesh.vertices() as u64 + mesh.faces() as u64;
    ((most - taken) / 2) as u32
}

/// Half of 2 minus the characteristic, for a surface and a turning of it.
pub fn genus(mesh: &HalfMesh, turning: &Turning) -> u32
    requires { IsOrientation mesh.now (flag_of turning.now) }
    ensures is { result ≡ genus_of mesh.now }
    ensures twice { pos (2 * result) ≡ pos 2 -ℤ characteristic mesh.now }
{
    surface_genus(mesh.surface(), turning)
}
