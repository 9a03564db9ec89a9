//! Cutting a surface open along edges outside a tree of its faces.
ghost use Rattle.std.specs.Prelude.{◌≡◌, ◌<◌, length, All, IfOk, OnOk, IfErr};
ghost use Rattle.surf_surfaces.specs.Disc.{IsOpening};
ghost use Rattle.surf_surfaces.specs.Surface.{edge_count, IsSurface};
ghost use Rattle.surf_cutter.specs.Kinds.{full, trimmed, through, kind_of, points_of};
ghost use Rattle.surf_cutter.specs.Kinds.{HaveCopiesOnBorder};
ghost use Rattle.surf_cutter.specs.Trimming.{IsTrimmedFrom, HasEndedBy, IsTakenTo};
ghost use Rattle.surf_cutter.specs.Opened.{IsOpenedInOrder, IsHeld, IsHeldTree, IsChosenFor, IsNearFor};
ghost use Rattle.surf_cutter.specs.Opened.{IsChosenCut, AreTurnedOver};

use crate::border::boundary_along;
use crate::disc_cut::DiscCut;
use crate::kind::{CutFault, CutKind};
use crate::taking::{mark_points, take_loose};
use crate::trimming::{count_cut, count_degrees, trim};
use crate::{OpenDisc, Opened};
use std::alloc::Global;
use std::marker::Model;
use surf_base::{NoMemory, VertexId};
use surf_mesh::HalfMesh;

/// A surface with a flag for each edge that a tree of its faces holds.
#[derive(Drop)]
pub(crate) struct HeldTree<'a> {
    mesh: &'a HalfMesh,
    flags: Vec<bool>,
}

impl<'a> Model for HeldTree<'a> {
    ghost use Rattle.surf_cutter.specs.Opened.{MarkedMesh, IsHeldTree};

    ghost Value = { MarkedMesh };

    ghost view = { λ h. record { mesh = h.mesh.now; marks = h.flags.items } };

    ghost invariant = { λ h. IsHeldTree h.mesh.now h.flags.items };
}

// Marks the edges that had no mark, and no others.
fn turn_over(flags: &mut [bool])
    ensures { AreTurnedOver flags.old flags.new }
{
    for flag in flags.iter_mut() {
        *flag = !*flag;
    }
}

// The flags that mark what these don't, in their place.
fn turned_over(flags: Vec<bool>) -> Vec<bool>
    ensures { AreTurnedOver flags.items result.items }
{
    let mut turned = flags;
    turn_over(&mut turned);
    turned
}

// Trims a full cut.
fn trim_cut(alloc: Global, mesh: &HalfMesh, cut: &mut [bool]) -> Result<(), NoMemory>
    requires { length cut.old ≡ edge_count mesh.now }
    ensures trimmed { OnOk result (IsTrimmedFrom mesh.now cut.old cut.new) }
    ensures ended { OnOk result (HasEndedBy mesh.now cut.new) }
{
    let mut degree = vec![in alloc; 0u32; mesh.vertices() as usize]?;
    count_degrees(mesh, cut, &mut degree);
    trim(mesh, cut, &mut degree);
    Ok(())
}

// Takes a full cut back to the vertices of a list.
fn take_cut(
    alloc: Global,
    mesh: &HalfMesh,
    cut: &mut [bool],
    points: &[VertexId],
) -> Result<(), CutFault>
    requires flags { length cut.old ≡ edge_count mesh.now }
    requires points { All (λ v. v < mesh.now.vertices) points.now }
    ensures taken { OnOk result (IsTakenTo mesh.now points.now cut.old cut.new) }
    ensures room { IfErr result (λ e. e ≡ CutFault.Memory) }
{
    let marks = mark_points(alloc, mesh.vertices(), points)?;
    let mut degree = vec![in alloc; 0u32; mesh.vertices() as usize]?;
    count_degrees(mesh, cut, &mut degree);
    take_loose(mesh, &marks, cut, &mut degree);
    Ok(())
}

impl<'a> HeldTree<'a> {
    /// The tree of the faces of a surface that the flags mark.
    pub(crate) fn of(mesh: &'a HalfMesh, flags: Vec<bool>) -> HeldTree<'a>
        requires { IsHeldTree mesh.now flags.items }
        ensures { result ≡ record { mesh = mesh.now; marks = flags.items } }
    {
        HeldTree { mesh, flags }
    }

    // What is true of the surface and the tree. A caller whose proof rests on that calls it; it does
    // nothing.
    fn law_of_held(&self)
        ensures surface { IsSurface self.now.mesh }
        ensures held { IsHeld self.now.mesh self.now.marks }
    {
        self.mesh.law_of_surface();
    }

    // The cut along all edges that the tree doesn't hold, with its flags in place of the tree's.
    fn full_cut(self) -> DiscCut<'a>
        ensures mesh { result.mesh ≡ self.entry.mesh }
        ensures chosen { IsChosenCut self.entry.mesh self.entry.marks full result.marks }
    {
        let HeldTree { mesh, flags } = self;
        mesh.law_of_surface();
        let cut = turned_over(flags);
        DiscCut::of(mesh, cut)
    }

    // The trimmed cut: while more than two edges are cut and a vertex has exactly one of them, the
    // greatest such vertex loses it.
    fn trimmed_cut(self, alloc: Global) -> Result<DiscCut<'a>, NoMemory>
        ensures mesh { IfOk result (λ cut. cut.mesh ≡ self.entry.mesh) }
        ensures chosen { IfOk result (λ cut.
            IsChosenCut self.entry.mesh self.entry.marks trimmed cut.marks) }
    {
        let HeldTree { mesh, flags } = self;
        let mut cut = turned_over(flags);
        trim_cut(alloc, mesh, &mut cut)?;
        mesh.law_of_surface();
        Ok(DiscCut::of(mesh, cut))
    }

    // The cut through some vertices.
    fn cut_at(self, alloc: Global, points: &[VertexId]) -> Result<DiscCut<'a>, CutFault>
        requires { All (λ v. v < self.mesh.vertices) points.now }
        ensures mesh { IfOk result (λ cut. cut.mesh ≡ self.entry.mesh) }
        ensures chosen { IfOk result (λ cut.
            IsChosenCut self.entry.mesh self.entry.marks (through points.now) cut.marks) }
        ensures near { IfErr result (λ e. e ≡ CutFault.Near →
            IsNearFor self.entry.mesh self.entry.marks (through points.now)) }
    {
        let HeldTree { mesh, flags } = self;
        mesh.law_of_surface();
        let mut cut = turned_over(flags);
        take_cut(alloc, mesh, &mut cut, points)?;
        if count_cut(&cut) < 2 {
            return Err(CutFault::Near);
        }
        Ok(DiscCut::of(mesh, cut))
    }

    // The cut of a kind.
    fn cut_of(self, alloc: Global, kind: CutKind) -> Result<DiscCut<'a>, CutFault>
        requires { All (λ v. v < self.mesh.vertices) (points_of (kind_of kind)) }
        ensures mesh { IfOk result (λ cut. cut.mesh ≡ self.entry.mesh) }
        ensures chosen { IfOk result (λ cut.
            IsChosenCut self.entry.mesh self.entry.marks (kind_of kind) cut.marks) }
        ensures near { IfErr result (λ e. e ≡ CutFault.Near →
            IsNearFor self.entry.mesh self.entry.marks (kind_of kind)) }
    {
        match kind {
            CutKind::Full => Ok(self.full_cut()),
            CutKind::Trimmed => {
                let cut = self.trimmed_cut(alloc)?;
                Ok(cut)
            }
            CutKind::Through(points) => self.cut_at(alloc, &points),
        }
    }
}

// The disc to which a surface is opened, with its border.
fn open_bordered(alloc: Global, cut: &DiscCut<'_>) -> Result<Opened, NoMemory>
    ensures { IfOk result (λ o. IsOpenedInOrder cut.now.mesh cut.now.marks o) }
{
    let disc = cut.open(alloc)?;
    let boundary = boundary_along(alloc, cut, &disc)?;
    Ok(Opened::from_parts(disc, boundary))
}

/// The surface cut along all edges that a tree of its faces doesn't hold, with its border.
pub(crate) fn open_full(alloc: Global, held: HeldTree<'_>) -> Result<Opened, NoMemory>
    ensures chosen { IfOk result (λ o. IsChosenFor held.entry.mesh held.entry.marks full o) }
    ensures opening { IfOk result (λ o. IsOpening held.entry.mesh o.origins o.faces) }
{
    held.law_of_held();
    let cut = held.full_cut();
    open_bordered(alloc, &cut)
}

/// The surface cut along the trimmed cut, with its border.
pub(crate) fn open_trimmed(alloc: Global, held: HeldTree<'_>) -> Result<Opened, NoMemory>
    ensures chosen { IfOk result (λ o. IsChosenFor held.entry.mesh held.entry.marks trimmed o) }
    ensures opening { IfOk result (λ o. IsOpening held.entry.mesh o.origins o.faces) }
{
    held.law_of_held();
    let cut = held.trimmed_cut(alloc)?;
    open_bordered(alloc, &cut)
}

/// The surface cut along the cut through some vertices, with its border.
pub(crate) fn open_through(
    alloc: Global,
    held: HeldTree<'_>,
    points: &[VertexId],
) -> Result<Opened, CutFault>
    requires { All (λ v. v < held.mesh.vertices) points.now }
    ensures chosen { IfOk result (λ o.
        IsChosenFor held.entry.mesh held.entry.marks (through points.now) o) }
    ensures opening { IfOk result (λ o. IsOpening held.entry.mesh o.origins o.faces) }
    ensures border { IfOk result (λ o. HaveCopiesOnBorder (through points.now) o.origins
        o.faces) }
    ensures near { IfErr result (λ e. e ≡ CutFault.Near →
        IsNearFor held.entry.mesh held.entry.marks (through points.now)) }
{
    held.law_of_held();
    let cut = held.cut_at(alloc, points)?;
    let opened = open_bordered(alloc, &cut)?;
    Ok(opened)
}

/// The disc that the surface is opened to along a cut of any kind.
pub(crate) fn open_disc(
    alloc: Global,
    held: HeldTree<'_>,
    kind: CutKind,
) -> Result<OpenDisc, CutFault>
    requires { All (λ v. v < held.mesh.vertices) (points_of (kind_of kind)) }
    ensures chosen { IfOk result (λ o.
        IsChosenFor held.entry.mesh held.entry.marks (kind_of kind) o) }
    ensures opening { IfOk result (λ o. IsOpening held.entry.mesh o.origins o.faces) }
    ensures border { IfOk result (λ o. HaveCopiesOnBorder (kind_of kind) o.origins o.faces) }
    ensures near { IfErr result (λ e. e ≡ CutFault.Near →
        IsNearFor held.entry.mesh held.entry.marks (kind_of kind)) }
{
    held.law_of_held();
    let cut = held.cut_of(alloc, kind)?;
    let opened = cut.open(alloc)?;
    Ok(opened)
}
