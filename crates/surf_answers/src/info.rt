//! The counts of a surface.
ghost use Rattle.std.specs.Prelude.{◌<◌, ◌^◌};
ghost use Rattle.surf_check.specs.Growth.{flag_of};
ghost use Rattle.surf_surfaces.specs.Homology.{IsLoopCount};
ghost use Rattle.surf_surfaces.specs.Surface.{IsOrientation, IsOrientable};
ghost use Rattle.surf_answers.specs.Info.{Informs, HasGenus, HasCrosscaps};
ghost use Rattle.surf_answers.specs.Tells.{Concludes};

use crate::answered::Answered;
use std::alloc::Global;
use surf_check::{Kind, Sides, Turning, orient_surface, surface_characteristic, surface_genus};
use surf_mesh::Surface;
use surf_texts::{Refused, counts_text, crosscaps_text, genus_text, kind_counts_text};

/// The counts of a surface, its characteristic, and its genus or its crosscaps.
pub fn info_of(alloc: Global, mesh: &Surface) -> Result<Answered, Refused>
    ensures { Concludes (Informs mesh.now) result }
{
    match orient_surface(alloc, mesh)? {
        Sides::Two(turning) => two_sided(alloc, mesh, &turning),
        Sides::One(_) => one_sided(alloc, mesh),
    }
}

// The answer for a surface that a turning shows to be two-sided.
fn two_sided(alloc: Global, mesh: &Surface, turning: &Turning) -> Result<Answered, Refused>
    requires { IsOrientation mesh.now (flag_of turning.now) }
    ensures { Concludes (HasGenus mesh.now) result }
{
    mesh.law_of_surface();
    let mut text = counts_text(alloc, mesh)?;
    let shape = genus_text(
        alloc,
        surface_characteristic(mesh),
        surface_genus(mesh, turning),
    )?;
    text.push_str(shape.as_str())?;
    Ok(Answered::yes(text.into_bytes()))
}

// The answer for a one-sided surface.
fn one_sided(alloc: Global, mesh: &Surface) -> Result<Answered, Refused>
    requires { IsOrientable mesh.now → ⊥ }
    ensures { Concludes (HasCrosscaps mesh.now) result }
{
    let mut text = counts_text(alloc, mesh)?;
    let shape = crosscaps_text(alloc, surface_characteristic(mesh), loop_count(mesh))?;
    text.push_str(shape.as_str())?;
    Ok(Answered::yes(text.into_bytes()))
}

/// The answer of `info` for a surface of which only the kind is kept.
pub fn kind_info_of(alloc: Global, kind: &Kind) -> Result<Answered, Refused>
    ensures { Concludes (Informs kind.now) result }
{
    if kind.is_two_sided(alloc)? {
        two_sided_kind(alloc, kind)
    } else {
        one_sided_kind(alloc, kind)
    }
}

// The answer for a two-sided surface of which only the kind is kept.
fn two_sided_kind(alloc: Global, kind: &Kind) -> Result<Answered, Refused>
    requires { IsOrientable kind.now }
    ensures { Concludes (HasGenus kind.now) result }
{
    kind.law_of_kind();
    let mut text = kind_counts_text(alloc, kind)?;
    let genus = (kind_loop_count(kind) / 2) as u32;
    let shape = genus_text(alloc, kind.characteristic(), genus)?;
    text.push_str(shape.as_str())?;
    Ok(Answered::yes(text.into_bytes()))
}

// The answer for a one-sided surface of which only the kind is kept.
fn one_sided_kind(alloc: Global, kind: &Kind) -> Result<Answered, Refused>
    requires { IsOrientable kind.now → ⊥ }
    ensures { Concludes (HasCrosscaps kind.now) result }
{
    let mut text = kind_counts_text(alloc, kind)?;
    let shape = crosscaps_text(alloc, kind.characteristic(), kind_loop_count(kind))?;
    text.push_str(shape.as_str())?;
    Ok(Answered::yes(text.into_bytes()))
}

// How many independent loops there are: 2 minus the characteristic.
fn kind_loop_count(kind: &Kind) -> u64
    ensures loops { IsLoopCount kind.now result }
    ensures few { result < 2 ^ 32 }
{
    kind.law_of_kind();
    let edges = kind.edges() as u64;
    let cells = kind.vertices() as u64 + kind.faces() as u64;
    edges + 2 - cells
}

/// How many independent loops a surface has: 2 minus its characteristic.
pub fn loop_count(mesh: &Surface) -> u64
    ensures { IsLoopCount mesh.now result }
{
    let edges = mesh.edges() as u64;
    let cells = mesh.vertices() as u64 + mesh.faces() as u64;
    edges + 2 - cells
}
