//! Whether the faces are connected across their sides.
ghost use Rattle.std.specs.Prelude.{◌≡◌, ◌<◌, ◌≤◌, ◌+◌, ℕ, length, All, OnOk, IfOk, IfErr, slice_index};
ghost use Rattle.surf_surfaces.specs.Surface.{face_count, IsConnected};
ghost use Rattle.surf_soup.specs.Apart.{AreAcross};
ghost use Rattle.surf_soup.specs.Vertices.{AllMet};
ghost use Rattle.surf_disc.specs.Across.{NoneCrowded};
ghost use Rattle.surf_disc.specs.Fault.{AllFans, IsDiscFault};

use crate::DiscFault;
use crate::corners::CornerTables;
use std::alloc::Global;
use surf_base::{FaceId, NoMemory, SideId};
use surf_rows::Rows;
use surf_soup::{first_unmarked, reach};

// Lists the faces across some sides that follow one another.
fn list_over(
    row: &mut Vec<u32>,
    first: usize,
    count: usize,
    across: &[SideId],
    face_of: &[FaceId],
) -> Result<(), NoMemory>
    requires inside { first + count ≤ length across.now }
    requires across { All (λ t. t < length face_of.now) across.now }
    ensures size { OnOk result (length row.new.items ≡ count) }
    ensures faces { OnOk result ((m : ℕ) → m < count →
        slice_index row.new.items m
        ≡ slice_index face_of.now (slice_index across.now (first + m))) }
{
    row.clear();
    for k in 0..count {
        let over = across[first + k].index();
        row.push(face_of[over].number())?;
    }
    Ok(())
}

// The faces across the sides of each face, in order.
fn faces_over(alloc: Global, corners: &CornerTables<'_>) -> Result<Rows<u32>, NoMemory>
    ensures rows { IfOk result (λ rows. AreAcross corners.now.soup.now corners.now.across.now
        (face_count corners.now.soup.now) rows) }
{
    let soup = corners.soup;
    let across = corners.across;
    let face_of = corners.face_of;
    soup.law_of_soup();
    let ends = Vec::with_capacity(alloc, soup.faces() as usize)?;
    let mut rows = Rows::in_room(Vec::with_capacity(alloc, across.len())?, ends);
    let mut row = Vec::new(alloc);
    let mut first = 0;
    for f in 0..soup.faces() {
        let count = soup.face(FaceId::new(f)).len();
        list_over(&mut row, first, count, across, face_of)?;
        rows.push(&row)?;
        first += count;
    }
    Ok(rows)
}

/// Refuses a soup where some face isn't connected with face 0.
pub(crate) fn refuse_apart(alloc: Global, corners: &CornerTables<'_>) -> Result<(), DiscFault>
    requires none_crowded { NoneCrowded corners.now.soup.now }
    requires met { AllMet corners.now.soup.now }
    requires fans { AllFans corners.now.soup.now }
    ensures ok { OnOk result (IsConnected corners.now.soup.now) }
    ensures fault { IfErr result (λ e. IsDiscFault corners.now.soup.now e) }
{
    if corners.soup.faces() == 0 {
        return Ok(());
    }
    let rows = faces_over(alloc, corners)?;
    let seen = reach(alloc, &rows, 0)?;
    match first_unmarked(&seen) {
        None => Ok(()),
        Some(f) => Err(DiscFault::Apart {
            face: FaceId::new(f as u32),
        }),
    }
}
