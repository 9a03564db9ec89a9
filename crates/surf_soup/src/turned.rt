//! Tables of the sides that stand next to each other around a face.
ghost use Rattle.std.specs.Prelude.{◌≡◌, ◌<◌, ◌+◌, ◌^◌, ℕ, length, OnOk, IfOk};
ghost use Rattle.std.specs.Prelude.{slice_index};
ghost use Rattle.surf_surfaces.specs.Side.{after, before};
ghost use Rattle.surf_surfaces.specs.Surface.{face_count};
ghost use Rattle.surf_soup.specs.Ring.{AreTurned, place_by};

use crate::Soup;
use std::alloc::Global;
use surf_base::{FaceId, NoMemory, SideId};

/// A step around a face: to the place after one, or to the place before.
#[derive(Clone, Copy)]
pub enum Turn {
    /// To the next place; from the last to the first.
    After,
    /// To the place before; from the first to the last.
    Before,
}

// The place after one, around a face.
fn after_place(count: u32, k: u32) -> u32
    requires { k < count }
    ensures { result ≡ after count k }
{
    if k + 1 < count { k + 1 } else { 0 }
}

// The place before one, around a face.
fn before_place(count: u32, k: u32) -> u32
    requires { k < count }
    ensures { result ≡ before count k }
{
    if k == 0 { count - 1 } else { k - 1 }
}

// The place that a step around a face leads to.
fn place_by(turn: Turn, count: u32, k: u32) -> u32
    requires { k < count }
    ensures place { result ≡ place_by turn count k }
    ensures inside { result < count }
{
    match turn {
        Turn::After => after_place(count, k),
        Turn::Before => before_place(count, k),
    }
}

// Lists the side to which a step leads from each of some sides that go round a face.
fn list_turned(table: &mut Vec<SideId>, turn: Turn, first: u32, count: u32) -> Result<(), NoMemory>
    requires few { first + count < 2 ^ 30 }
    ensures size { OnOk result (length table.new.items ≡ length table.old.items + count) }
    ensures kept { OnOk result ((s : ℕ) → s < length table.old.items →
        slice_index table.new.items s ≡ slice_index table.old.items s) }
    ensures here { OnOk result ((k : ℕ) → k < count →
        slice_index table.new.items (length table.old.items + k) ≡ first + place_by turn count k) }
{
    for k in 0..count {
        table.push(SideId::new(first + place_by(turn, count, k)))?;
    }
    Ok(())
}

/// For each side the next one around its face, or the one before.
pub fn turned_sides(alloc: Global, soup: &Soup, turn: Turn) -> Result<Vec<SideId>, NoMemory>
    ensures { IfOk result (λ v. AreTurned (place_by turn) soup.now (face_count soup.now) v.items) }
{
    soup.law_of_soup();
    let mut table = Vec::with_capacity(alloc, soup.side_count() as usize)?;
    let mut first = 0u32;
    for f in 0..soup.faces() {
        let count = soup.face(FaceId::new(f)).len() as u32;
        list_turned(&mut table, turn, first, count)?;
        first += count;
    }
    Ok(table)
}
