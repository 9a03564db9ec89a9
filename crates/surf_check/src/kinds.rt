//! Surfaces of which no more is kept than tells their kind.
ghost use Rattle.std.specs.Prelude.{◌≡◌, ◌≢◌, ◌<◌, ◌^◌, IfOk, IfErr, MatchBool};
ghost use Rattle.surf_surfaces.specs.Mesh.{characteristic};
ghost use Rattle.surf_surfaces.specs.Surface.{IsSurface, IsOrientable, edge_count, face_count};
ghost use Rattle.surf_surfaces.specs.SideNumber.{side_count};
ghost use Rattle.surf_check.specs.Fault.{IsSurfaceFault};
ghost use Rattle.surf_check.specs.declared.checking.SurfaceFault.TheVariants.{Memory};

use crate::answers::Sides;
use crate::checking::{SurfaceFault, check_surface};
use crate::one_way::is_one_way;
use crate::orienting::orient_surface;
use std::alloc::Global;
use std::marker::Model;
use surf_base::NoMemory;
use surf_mesh::Surface;
use surf_soup::Soup;

/// A surface with what tells its kind: how many vertices, edges and faces it has, and whether it
/// has two sides. Where all faces run the same way no more than the faces are kept.
#[derive(Drop)]
pub struct Kind {
    kept: Kept,
}

// Faces that all run the same way, or a surface.
#[derive(Drop)]
enum Kept {
    OneWay(Soup),
    Other(Surface),
}

impl Model for Kind {
    ghost use Rattle.surf_surfaces.specs.Mesh.{Mesh};
    ghost use Rattle.surf_check.specs.Kinds.{kept_mesh, IsKeptKind};

    ghost Value = { Mesh };

    ghost view = { λ k. kept_mesh k.kept };

    ghost invariant = { λ k. IsKeptKind k.kept };
}

impl Kind {
    /// How many vertices there are.
    pub fn vertices(&self) -> u32
        ensures count { result ≡ self.now.vertices }
    {
        match &self.kept {
            Kept::OneWay(soup) => soup.vertices(),
            Kept::Other(mesh) => mesh.vertices(),
        }
    }

    /// How many edges there are.
    pub fn edges(&self) -> u32
        ensures count { result ≡ edge_count self.now }
    {
        match &self.kept {
            Kept::OneWay(soup) => soup.side_count() / 2,
            Kept::Other(mesh) => mesh.edges(),
        }
    }

    /// How many faces there are.
    pub fn faces(&self) -> u32
        ensures count { result ≡ face_count self.now }
    {
        match &self.kept {
            Kept::OneWay(soup) => soup.faces(),
            Kept::Other(mesh) => mesh.faces(),
        }
    }

    /// The number of vertices minus that of edges plus that of faces.
    pub fn characteristic(&self) -> i64
        ensures { result ≡ characteristic self.now }
    {
        let vertices = self.vertices() as i64;
        let edges = self.edges() as i64;
        let faces = self.faces() as i64;
        vertices - edges + faces
    }

    /// What every surface of this type keeps: it is a surface, and its sides are few. A caller
    /// whose proof rests on that calls it; it does nothing.
    pub fn law_of_kind(&self)
        ensures surface { IsSurface self.now }
        ensures few { side_count self.now < 2 ^ 30 }
    {
        match &self.kept {
            Kept::OneWay(soup) => soup.law_of_soup(),
            Kept::Other(mesh) => mesh.law_of_surface(),
        }
    }

    /// Whether the surface has two sides. The time is linear in the number of sides.
    pub fn is_two_sided(&self, alloc: Global) -> Result<bool, NoMemory>
        ensures { IfOk result (λ two. MatchBool two (IsOrientable self.now)
            (IsOrientable self.now → ⊥)) }
    {
        match &self.kept {
            Kept::OneWay(_) => Ok(true),
            Kept::Other(mesh) => are_two(alloc, mesh),
        }
    }
}

// Whether a surface has two sides.
fn are_two(alloc: Global, mesh: &Surface) -> Result<bool, NoMemory>
    ensures { IfOk result (λ two. MatchBool two (IsOrientable mesh.now) (IsOrientable mesh.now → ⊥)) }
{
    match orient_surface(alloc, mesh)? {
        Sides::Two(_) => Ok(true),
        Sides::One(_) => Ok(false),
    }
}

/// The surface with the faces of a soup for what asks only of its kind: the faults are those of
/// `check`. Where all faces run the same way less memory is taken than by `check_surface`; where
/// they don't, the sides are put into pairs once more.
pub fn check_kind(alloc: Global, soup: Soup) -> Result<Kind, SurfaceFault>
    ensures same { IfOk result (λ k. k ≡ soup) }
    ensures surface { IfOk result (λ _. IsSurface soup) }
    ensures fault { IfErr result (λ e. IsSurfaceFault soup e) }
    ensures excludes { IfErr result (λ e. e ≢ Memory → IsSurface soup → ⊥) }
{
    if is_one_way(alloc, &soup)? {
        return Ok(Kind {
            kept: Kept::OneWay(soup),
        });
    }
    let surface = check_surface(alloc, soup)?;
    Ok(Kind {
        kept: Kept::Other(surface),
    })
}
