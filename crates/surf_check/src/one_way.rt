//! Whether a soup is a surface whose faces all run the same way.
ghost use Rattle.std.specs.Prelude.{◌≡◌, ◌<◌, ℕ, IfOk, IfErr, OnOk, MatchBool};
ghost use Rattle.surf_surfaces.specs.Mesh.{edges};
ghost use Rattle.surf_surfaces.specs.Surface.{IsSurface, IsConnected, HasOneFan, face_count};
ghost use Rattle.surf_surfaces.specs.SideNumber.{side_count};
ghost use Rattle.surf_soup.specs.First.{AreFirstSides};
ghost use Rattle.surf_soup.specs.Half.{AreAllMates};
ghost use Rattle.surf_soup.specs.Pairing.{AreGreaterEnds};
ghost use Rattle.surf_soup.specs.Pairs.{HasTwoFaces};
ghost use Rattle.surf_soup.specs.Vertices.{AllMet};
ghost use Rattle.surf_check.specs.Fault.{IsSurfaceFault};
ghost use Rattle.surf_check.specs.Kinds.{RunOneWay, BeginsWithMate, NoneBeginWithMates};

use crate::checking::SurfaceFault;
use crate::descent::are_set_behind_first;
use std::alloc::Global;
use std::marker::Model;
use surf_base::SideId;
use surf_soup::{
    MatedSides, SideFaces, Soup, find_apart, find_isolated, find_pinch_by, first_sides, mated_sides,
};

// Whether no side begins where its mate does.
fn begin_apart(soup: &Soup, mate: &[SideId]) -> bool
    requires mates { AreAllMates soup.now mate.now }
    ensures { MatchBool result (NoneBeginWithMates soup.now mate.now)
        ((s : ℕ) × (s < side_count soup.now) × BeginsWithMate soup.now mate.now s) }
{
    soup.law_of_soup();
    let tails = soup.corners();
    for side in 0..mate.len() {
        if tails[mate[side].index()] == tails[side] {
            return false;
        }
    }
    true
}

// The mates of the sides of a soup, and the least side at each vertex, where there is a face, each
// edge is a side of two faces and each vertex is in a face; else the first fault.
fn mated(alloc: Global, soup: &Soup) -> Result<(MatedSides, Vec<SideId>), SurfaceFault>
    ensures some { IfOk result (λ _. 0 < face_count soup.now) }
    ensures two { IfOk result (λ _. HasTwoFaces soup.now) }
    ensures met { IfOk result (λ _. AllMet soup.now) }
    ensures mates { IfOk result (λ t. AreAllMates soup.now t.0.mate.items) }
    ensures greater { IfOk result (λ t. AreGreaterEnds soup.now.vertices (edges soup.now)
        t.0.greater.items) }
    ensures first { IfOk result (λ t. AreFirstSides soup.now t.1.items) }
    ensures fault { IfErr result (λ e. IsSurfaceFault soup.now e) }
{
    soup.law_of_soup();
    let mated = mated_sides(alloc, soup)?;
    let first = first_sides(alloc, soup)?;
    if let Some(v) = find_isolated(soup, &first) {
        return Err(SurfaceFault::Isolated { v });
    }
    Ok((mated, first))
}

// A soup with a face, whose edges have two faces each and whose vertices are all in faces, with the
// tables by which its faces are tested. It is seen as the soup.
#[derive(Drop)]
struct MatedSoup<'t> {
    soup: &'t Soup,
    mated: MatedSides,
    first: Vec<SideId>,
    face_of: SideFaces,
}

impl<'t> Model for MatedSoup<'t> {
    ghost use Rattle.surf_surfaces.specs.Mesh.{Mesh};
    ghost use Rattle.surf_check.specs.Mated.{IsMatedSoup};

    ghost Value = { Mesh };

    ghost view = { λ m. m.soup.now };

    ghost invariant = { λ m. IsMatedSoup m.soup.now m.mated.mate.items m.face_of m.first.items
        m.mated.greater.items };
}

// Whether the faces at each vertex form one cycle, where there is no fault before; else the next.
fn test_fans(alloc: Global, tables: &MatedSoup<'_>) -> Result<(), SurfaceFault>
    ensures fans { OnOk result ((v : ℕ) → v < tables.now.vertices → HasOneFan tables.now v) }
    ensures fault { IfErr result (λ e. IsSurfaceFault tables.now e) }
{
    let found = find_pinch_by(
        alloc,
        tables.soup,
        &tables.mated.mate,
        &tables.face_of,
        &tables.first,
    )?;
    match found {
        None => Ok(()),
        Some(pinch) => Err(SurfaceFault::Pinched {
            v: pinch.v,
            first: pinch.first,
            second: pinch.second,
        }),
    }
}

// Whether all faces are joined, where there is no fault before; else the last one.
fn test_faces_joined(alloc: Global, tables: &MatedSoup<'_>) -> Result<(), SurfaceFault>
    requires { (v : ℕ) → v < tables.now.vertices → HasOneFan tables.now v }
    ensures joined { OnOk result (IsConnected tables.now) }
    ensures fault { IfErr result (λ e. IsSurfaceFault tables.now e) }
{
    tables.soup.law_of_soup();
    if are_set_behind_first(&tables.mated.greater) {
        return Ok(());
    }
    let found = find_apart(alloc, tables.soup, &tables.mated.mate, &tables.face_of)?;
    match found {
        None => Ok(()),
        Some(face) => Err(SurfaceFault::Apart { face }),
    }
}

/// Whether a soup is a surface whose faces all run the same way, or a fault that it has. No numbers
/// of edges are made for it.
pub(crate) fn is_one_way(alloc: Global, soup: &Soup) -> Result<bool, SurfaceFault>
    ensures one_way { IfOk result (λ one_way. MatchBool one_way
        (IsSurface soup.now × RunOneWay soup.now)
        (IsSurface soup.now → RunOneWay soup.now → ⊥)) }
    ensures fault { IfErr result (λ e. IsSurfaceFault soup.now e) }
{
    soup.law_of_soup();
    let (mated, first) = mated(alloc, soup)?;
    if !begin_apart(soup, &mated.mate) {
        return Ok(false);
    }
    let face_of = SideFaces::build(alloc, soup)?;
    let tables = MatedSoup {
        soup,
        mated,
        first,
        face_of,
    };
    test_fans(alloc, &tables)?;
    test_faces_joined(alloc, &tables)?;
    Ok(true)
}
