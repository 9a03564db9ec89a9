//! A cut along which a surface opens to a disc, and the disc with the list of its border sides.
ghost use Rattle.std.specs.Prelude.{◌≡◌, ◌<◌, ◌≤◌, ◌+◌, ◌-◌, length, IfOk};
ghost use Rattle.surf_base.specs.Tables.{nobody};
ghost use Rattle.surf_surfaces.specs.Disc.{IsDisc};
ghost use Rattle.surf_surfaces.specs.Side.{after};
ghost use Rattle.surf_surfaces.specs.SideNumber.{side_count};
ghost use Rattle.surf_surfaces.specs.Surface.{edge_count};
ghost use Rattle.surf_cutter.specs.Boundary.{corners_of, HasPairedBorder, IsLeastBorderSide};
ghost use Rattle.surf_cutter.specs.Boundary.{AreBorderSides, AreCutSides};
ghost use Rattle.surf_cutter.specs.Opened.{mesh_of, IsDiscCut, IsOpenedInOrder};

use crate::copies::open_along;
use crate::opened::OpenDisc;
use crate::trimming::count_cut;
use std::alloc::Global;
use std::marker::Model;
use surf_base::{NoMemory, SideId};
use surf_mesh::HalfMesh;

/// A surface with a flag for each edge that is cut. Along these edges it opens to a disc.
#[derive(Drop)]
pub(crate) struct DiscCut<'a> {
    mesh: &'a HalfMesh,
    flags: Vec<bool>,
}

impl<'a> Model for DiscCut<'a> {
    ghost use Rattle.surf_cutter.specs.Opened.{MarkedMesh, IsDiscCut};

    ghost Value = { MarkedMesh };

    ghost view = { λ c. record { mesh = c.mesh.now; marks = c.flags.items } };

    ghost invariant = { λ c. IsDiscCut c.mesh.now c.flags.items };
}

/// A disc to which a surface is opened, with its border sides in their order. Its faces have as
/// many corners as those of the surface, so that a side has the same number in both.
#[derive(Drop)]
pub(crate) struct Bordered<'a> {
    mesh: &'a HalfMesh,
    disc: &'a OpenDisc,
    sides: Vec<SideId>,
}

impl<'a> Model for Bordered<'a> {
    ghost use Rattle.surf_surfaces.specs.Mesh.{Mesh};
    ghost use Rattle.surf_cutter.specs.Opened.{mesh_of};
    ghost use Rattle.surf_cutter.specs.Rims.{IsBordered};

    ghost Value = { Mesh };

    ghost view = { λ b. mesh_of b.disc.now };

    ghost invariant = { λ b. IsBordered b.mesh.now (mesh_of b.disc.now) b.sides.items };
}

// The sides of the surface that are cut.
fn cut_sides(alloc: Global, mesh: &HalfMesh, cut: &[bool]) -> Result<Vec<SideId>, NoMemory>
    requires { length cut.now ≡ edge_count mesh.now }
    ensures { IfOk result (λ v. AreCutSides mesh.now cut.now (side_count mesh.now) v.items) }
{
    mesh.law_of_surface();
    let mut sides = Vec::with_capacity(alloc, 2 * count_cut(cut) as usize)?;
    for s in 0..mesh.side_count() {
        let side = SideId::new(s);
        if cut[mesh.edge_of(side).index()] {
            sides.push(side)?;
        }
    }
    Ok(sides)
}

impl<'a> DiscCut<'a> {
    /// The cut along the edges of a surface that have a flag.
    pub(crate) fn of(mesh: &'a HalfMesh, flags: Vec<bool>) -> DiscCut<'a>
        requires { IsDiscCut mesh.now flags.items }
        ensures { result ≡ record { mesh = mesh.now; marks = flags.items } }
    {
        DiscCut { mesh, flags }
    }

    /// The disc to which the surface is opened.
    pub(crate) fn open(&self, alloc: Global) -> Result<OpenDisc, NoMemory>
        ensures { IfOk result (λ o. IsOpenedInOrder self.now.mesh self.now.marks o) }
    {
        self.mesh.law_of_surface();
        let (origins, faces) = open_along(alloc, self.mesh, &self.flags)?;
        Ok(OpenDisc::from_parts(origins, faces))
    }

    /// That disc with the list of its border sides: they are the sides of the surface that are cut.
    pub(crate) fn border<'b>(
        &'b self,
        alloc: Global,
        disc: &'b OpenDisc,
    ) -> Result<Bordered<'b>, NoMemory>
        requires { IsOpenedInOrder self.now.mesh self.now.marks disc.now }
        ensures { IfOk result (λ b. b ≡ mesh_of disc.now) }
    {
        self.mesh.law_of_surface();
        let mesh = self.mesh;
        let sides = cut_sides(alloc, mesh, &self.flags)?;
        Ok(Bordered { mesh, disc, sides })
    }
}

// The side after one, around a face whose sides have the numbers from `first` up to `end`.
fn after_side(first: u32, end: u32, side: u32) -> u32
    requires from { first ≤ side }
    requires upto { side < end }
    ensures { result ≡ first + after (end - first) (side - first) }
{
    if side + 1 < end { side + 1 } else { first }
}

impl<'a> Bordered<'a> {
    /// How many copies the disc has.
    pub(crate) fn copies(&self) -> u32
        ensures { result ≡ self.now.vertices }
    {
        self.disc.copies()
    }

    /// The border sides in their order.
    pub(crate) fn sides(&self) -> &[SideId]
        ensures { AreBorderSides self.now result.now }
    {
        &self.sides
    }

    /// The least border side.
    pub(crate) fn least(&self) -> SideId
        ensures { IsLeastBorderSide self.now result }
    {
        self.sides[0]
    }

    /// Where a side begins and where it ends. A side's number is the place of the corner at which
    /// it begins.
    pub(crate) fn corners(&self, side: SideId) -> (u32, u32)
        requires { side < side_count self.now }
        ensures { result ≡ corners_of self.now side }
    {
        let (first, end) = self.mesh.side_span(self.mesh.face_of(side));
        let next = after_side(first, end, side.number());
        let corners = self.disc.corners();
        (
            corners[side.index()].number(),
            corners[next as usize].number(),
        )
    }

    /// What is true of the disc and of its border. A caller whose proof rests on that calls it; it
    /// does nothing.
    pub(crate) fn law_of_border(&self)
        ensures disc { IsDisc self.now }
        ensures paired { HasPairedBorder self.now }
        ensures few { side_count self.now < nobody }
    {
        self.mesh.law_of_surface();
    }
}
